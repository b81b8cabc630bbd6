// An input of a pipeline that is open.
ghost use Rattle.std.specs.Prelude.{◌≡◌, ◌↔◌, ◌||◌, [], true, false, None, Ok, IsErr, IfSome, IfOk, OnOk, OnErr};
ghost use Rattle.io_traits.specs.Counts.{HasCause};
ghost use Rattle.io_traits.specs.Moments.{EachMoment, LeavesBeside, ReadsBeside};
ghost use Rattle.in_lines.specs.Settings.{with_settings};
ghost use Rattle.in_lines.specs.declared.poll_outcome.Got.TheVariants as got;
ghost use Rattle.event_text.specs.Options.{with_options};
ghost use Rattle.event_tree.specs.Events.{Ev};
ghost use Rattle.line_inputs.specs.Inputs as spec;
ghost use Rattle.line_inputs.specs.Positions.{AreReady, IsOfThese, stored};
ghost use Rattle.line_inputs.specs.Sources.{AreCame, AssuredInPart, LastHasRoom, NextHasRoom, WasPolled, around, assured, connections_of, events_held, files_of, passed_on, with_row};

use crate::source::InputSource;
use event_text::Options;
use event_tree::Event;
use in_lines::{EventSettings, Got, PollFault};
use io_traits::{Failed, Files, Links, Source, Store};
use plain_data::Instant;
use std::alloc::{AllocError, Global};
use std::marker::Model;

/// An input of a pipeline that is open: its source, with the settings that its events get.
pub struct OpenInput {
    alloc: Global,
    source: InputSource,
    settings: EventSettings,
    /// Whether the settings change no event.
    plain: bool,
    /// The event that the source gave and that was not handed on yet.
    waiting: Option<Event>,
    /// Whether a poll met the end.
    ended: bool,
}

// Written out, so that it is one call wherever an error is handed on while one is held.
impl Drop for OpenInput {
    fn drop(self) {
        let OpenInput {
            alloc: _,
            source: _source,
            settings: _settings,
            plain: _,
            waiting: _waiting,
            ended: _,
        } = self;
    }
}

impl Model for OpenInput {
    ghost use Rattle.std.specs.Prelude.{◌≡◌, true};
    ghost use Rattle.std.specs.Coded.{codes};
    ghost use Rattle.event_tree.specs.Events.{Ev};
    ghost use Rattle.event_tree.specs.contracts.value.Value as tree;
    ghost use Rattle.in_lines.specs.Settings.{with_settings};
    ghost use Rattle.line_inputs.specs.Inputs.{InputView};

    ghost Value = { InputView };

    ghost coded = { Prim.hlevel (codes, tree.the_row.coded) };

    ghost view = { λ o. record {
      source = o.source;
      settings = o.settings;
      waiting = o.waiting;
      ended = o.ended;
    } };

    ghost invariant = { λ o. o.plain ≡ true
        → (event : Ev) → with_settings o.settings event ≡ event };
}

impl OpenInput {
    /// An input of this source, whose events get these settings; those of a generator get its own.
    pub fn of(alloc: Global, source: InputSource, settings: EventSettings) -> OpenInput
        ensures { result ≡ record {
          source = source;
          settings = settings;
          waiting = None;
          ended = false;
        } }
    {
        let plain = is_plain(&settings);
        OpenInput {
            alloc,
            source,
            settings,
            plain,
            waiting: None,
            ended: false,
        }
    }

    /// Polls its source at a moment of the clock, unless an event is to come; then it is `Lines`.
    pub fn poll<I: Source, F: Files, L: Links>(
        &mut self,
        stdin: &mut I,
        files: &mut F,
        links: &mut L,
        moment: Instant,
    ) -> Result<Got, PollFault>
        requires { AreCame I.Source F.Files L.Links self.old.source links.old }
        ensures polled { spec.coming self.old ≡ [] → WasPolled I.Source F.Files L.Links moment
            (around I.Source F.Files L.Links stdin.old stdin.new files.old files.new
            links.old links.new)
            self.old.source self.new.source result }
        ensures stood { (spec.coming self.old ≡ [] → ⊥) → (result ≡ Ok got.Lines)
            × (self.new ≡ self.old) × (stdin.new ≡ stdin.old) × (files.new ≡ files.old) × (links.new ≡ links.old) }
        ensures ended { spec.coming self.old ≡ []
            → self.new.ended ≡ (self.old.ended || spec.met_end result) }
        ensures settings { self.new.settings ≡ self.old.settings }
        ensures waiting { self.new.waiting ≡ self.old.waiting }
        ensures stored { stored (files_of self.new.source) ≡ stored (files_of self.old.source) }
    {
        if self.holds() {
            return Ok(Got::Lines);
        }
        let polled = self.source.poll(stdin, files, links, moment);
        self.ended = self.ended || met_end(&polled);
        polled
    }

    /// Whether an event is to come before another poll. Takes no memory.
    pub fn holds(&self) -> bool
        ensures { (result ≡ false) ↔ (spec.coming self.now ≡ []) }
    {
        self.waiting.is_some() || self.source.holds()
    }

    /// The next event, with the settings of the input; none exactly where none is to come. The only error is want of memory, and then the
    /// same events are to come.
    pub fn next(&mut self) -> Result<Option<Event>, AllocError>
        ensures gave { spec.GaveNext self.old self.new result }
        ensures room { IfOk result (λ event. IfSome event
            (λ given. LastHasRoom self.new.source)) }
        ensures stored { stored (files_of self.new.source) ≡ stored (files_of self.old.source) }
        ensures connections { connections_of self.new.source
            ≡ connections_of self.old.source }
    {
        self.fetch()?;
        self.make_room()?;
        let Some(event) = self.hand_on()? else {
            return Ok(None);
        };
        self.pass_on();
        Ok(Some(event))
    }

    // Makes room for the row of the event that is handed on next.
    fn make_room(&mut self) -> Result<(), AllocError>
        ensures room { OnOk result (NextHasRoom self.new.source) }
        ensures events { events_held self.new.source ≡ events_held self.old.source }
        ensures stored { stored (files_of self.new.source) ≡ stored (files_of self.old.source) }
        ensures connections { connections_of self.new.source
            ≡ connections_of self.old.source }
        ensures rest { self.new ≡ record self.old { source = self.new.source } }
    {
        self.source.make_room()
    }

    // The event that was handed on last has its place.
    fn pass_on(&mut self)
        ensures room { NextHasRoom self.old.source → LastHasRoom self.new.source }
        ensures events { events_held self.new.source ≡ events_held self.old.source }
        ensures stored { stored (files_of self.new.source) ≡ stored (files_of self.old.source) }
        ensures connections { connections_of self.new.source
            ≡ connections_of self.old.source }
        ensures rest { self.new ≡ record self.old { source = passed_on self.old.source } }
    {
        self.source.pass_on();
    }

    /// Notes the row that the event which [`OpenInput::next`] gave last became: where it is of a watched file, with the place behind its
    /// line. Takes no memory.
    pub fn note_row(&mut self, number: u64)
        requires { LastHasRoom self.old.source }
        ensures with_row { self.new ≡ record self.old { source = with_row number self.old.source } }
        ensures stored { stored (files_of self.new.source) ≡ stored (files_of self.old.source) }
        ensures connections { connections_of self.new.source
            ≡ connections_of self.old.source }
    {
        self.source.note_row(number);
    }

    /// Records of each watched file the place that its rows up to a front reach, unless it is recorded, and forgets these rows. Takes no memory.
    ///
    /// Behind an error, which leaves the positions of the first few files recorded, the input has to be opened again.
    pub fn assure<S: Store>(&mut self, store: &mut S, front: u64) -> Result<(), Failed>
        requires { AreReady S.Store (files_of self.old.source) store.old }
        ensures ok { OnOk result (self.new
            ≡ record self.old { source = assured front self.old.source }) }
        ensures ready { OnOk result (AreReady S.Store (files_of self.new.source) store.new) }
        ensures err { OnErr result (AssuredInPart front self.old.source self.new.source) }
        ensures any_moment { EachMoment S.Store store.old store.new
            (LeavesBeside S.Store (IsOfThese (files_of self.old.source)) store.old) }
        ensures beside { ReadsBeside S.Store (IsOfThese (files_of self.old.source))
            store.old store.new }
        ensures cause { HasCause (S.faults store.old) (S.faults store.new) (IsErr result) }
    {
        self.source.assure(store, front)
    }

    // Takes the next event of the source, where none waits.
    fn fetch(&mut self) -> Result<(), AllocError>
        ensures coming { spec.coming self.new ≡ spec.coming self.old }
        ensures none { OnOk result (self.new.waiting ≡ None → events_held self.new.source ≡ []) }
        ensures stored { stored (files_of self.new.source) ≡ stored (files_of self.old.source) }
        ensures connections { connections_of self.new.source
            ≡ connections_of self.old.source }
        ensures settings { self.new.settings ≡ self.old.settings }
        ensures ended { self.new.ended ≡ self.old.ended }
    {
        if self.waiting.is_some() {
            return Ok(());
        }
        self.waiting = self.source.next()?;
        Ok(())
    }

    // Hands on the event that waits.
    fn hand_on(&mut self) -> Result<Option<Event>, AllocError>
        requires { self.old.waiting ≡ None → events_held self.old.source ≡ [] }
        ensures gave { spec.GaveNext self.old self.new result }
        ensures source { self.new.source ≡ self.old.source }
    {
        if self.plain {
            return Ok(self.waiting.take());
        }
        let Some(event) = &self.waiting else {
            return Ok(None);
        };
        let copy = event.copy()?;
        let changed = self.settings.apply(self.alloc, copy)?;
        self.waiting = None;
        Ok(Some(changed))
    }

    /// Whether a poll met the end. Takes no memory.
    pub fn is_ended(&self) -> bool
        ensures { result ≡ self.now.ended }
    {
        self.ended
    }
}

// Whether settings change no event.
fn is_plain(settings: &EventSettings) -> bool
    ensures { result ≡ true → (event : Ev) → with_settings settings.now event ≡ event }
{
    if settings.event_type.is_some() {
        return false;
    }
    has_none(&settings.options)
}

// Whether there is no option.
fn has_none(options: &Options) -> bool
    ensures { result ≡ true → (event : Ev) → with_options options.now event ≡ event }
{
    if !options.add_field.is_empty() {
        return false;
    }
    if !options.remove_field.is_empty() {
        return false;
    }
    if !options.add_tag.is_empty() {
        return false;
    }
    options.remove_tag.is_empty()
}

fn met_end(polled: &Result<Got, PollFault>) -> bool
    ensures { result ≡ spec.met_end polled.now }
{
    matches!(polled, Ok(Got::End))
}
