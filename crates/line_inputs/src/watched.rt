// The files that one input watches, polled in turn.
ghost use Rattle.std.specs.Prelude.{◌≡◌, ◌<◌, ◌↔◌, ◌++◌, [], false, None, Err, IsErr, IfSome, IfOk, OnOk, OnErr, length, drop, map};
ghost use Rattle.std.specs.Option.{option_to_list};
ghost use Rattle.io_traits.specs.Counts.{HasCause};
ghost use Rattle.io_traits.specs.Moments.{EachMoment, LeavesBeside, ReadsBeside};
ghost use Rattle.in_lines.specs.declared.poll_outcome.PollFault.TheVariants as p;
ghost use Rattle.line_inputs.specs.Positions.{AreReady, IsOfThese, stored};
ghost use Rattle.line_inputs.specs.Rows.{assured};
ghost use Rattle.line_inputs.specs.Watching as spec;

use crate::watched_file::WatchedFile;
use event_tree::Event;
use in_lines::{Got, PollFault};
use io_traits::{Failed, Files, Store};
use plain_data::Instant;
use std::alloc::{AllocError, Global};
use std::marker::Model;

/// The files that one input watches, in byte order of their names. Its polls go to them in turn.
pub struct WatchedFiles {
    files: Vec<WatchedFile>,
    /// The place of the file that was polled last.
    at: usize,
    /// That of the one of which an event was handed on last.
    given_at: usize,
}

// Written out, so that it is one call wherever an error is handed on while they are held.
impl Drop for WatchedFiles {
    fn drop(self) {
        let WatchedFiles {
            files: _files,
            at: _,
            given_at: _,
        } = self;
    }
}

impl Model for WatchedFiles {
    ghost use Rattle.std.specs.Prelude.{◌≤◌, length};
    ghost use Rattle.line_inputs.specs.Watching.{Watching};

    ghost Value = { Watching };

    ghost view = { λ w. record { files = w.files.items; at = w.at; given_at = w.given_at } };

    ghost invariant = { λ w. w.at ≤ length w.files.items };
}

impl WatchedFiles {
    /// No file. Takes no memory.
    pub fn none(alloc: Global) -> WatchedFiles
        ensures { result ≡ record { files = []; at = 0; given_at = 0 } }
    {
        WatchedFiles {
            files: Vec::new(alloc),
            at: 0,
            given_at: 0,
        }
    }

    /// These files, of which none was polled. Takes no memory.
    pub(crate) fn of(files: Vec<WatchedFile>) -> WatchedFiles
        ensures { result ≡ record { files = files.items; at = 0; given_at = 0 } }
    {
        WatchedFiles {
            files,
            at: 0,
            given_at: 0,
        }
    }

    /// Polls the next file in turn whose end was not met.
    ///
    /// - `Lines`: it holds a whole line.
    /// - `End`: the end of each file was met, or there is none.
    /// - `NotYet`: there is no line so far.
    ///
    /// A `Fault` is one of the files. An error leaves the input as it was.
    pub fn poll<F: Files>(&mut self, files: &mut F, moment: Instant) -> Result<Got, PollFault>
        ensures polled { OnOk result
            (spec.WasPolled F.Files moment files.old files.new self.old self.new) }
        ensures got { IfOk result (λ got. got ≡ spec.got_of self.new) }
        ensures stored { stored self.new.files ≡ stored self.old.files }
        ensures err { OnErr result (self.new ≡ self.old) }
        ensures memory { result ≡ Err p.Memory → files.new ≡ files.old }
        ensures cause { HasCause (F.faults files.old) (F.faults files.new) (result ≡ Err p.Fault) }
    {
        self.poll_next(files, moment)?;
        Ok(self.outcome())
    }

    fn poll_next<F: Files>(&mut self, files: &mut F, moment: Instant) -> Result<(), PollFault>
        ensures polled { OnOk result
            (spec.WasPolled F.Files moment files.old files.new self.old self.new) }
        ensures stored { stored self.new.files ≡ stored self.old.files }
        ensures err { OnErr result (self.new ≡ self.old) }
        ensures memory { result ≡ Err p.Memory → files.new ≡ files.old }
        ensures cause { HasCause (F.faults files.old) (F.faults files.new) (result ≡ Err p.Fault) }
    {
        match self.next_open() {
            Some(place) => self.poll_at(place, files, moment),
            None => Ok(()),
        }
    }

    fn poll_at<F: Files>(
        &mut self,
        place: usize,
        files: &mut F,
        moment: Instant,
    ) -> Result<(), PollFault>
        requires { place < length self.old.files }
        ensures polled { OnOk result
            (spec.PolledAt F.Files place moment files.old files.new self.old self.new) }
        ensures stored { stored self.new.files ≡ stored self.old.files }
        ensures err { OnErr result (self.new ≡ self.old) }
        ensures memory { result ≡ Err p.Memory → files.new ≡ files.old }
        ensures cause { HasCause (F.faults files.old) (F.faults files.new) (result ≡ Err p.Fault) }
    {
        self.files[place].poll(files, moment)?;
        self.at = place;
        Ok(())
    }

    // The file that is polled next.
    fn next_open(&self) -> Option<usize>
        ensures place { result ≡ spec.next_open self.now }
        ensures within { IfSome result (λ place. place < length self.now.files) }
    {
        match self.open_from(self.at + 1) {
            Some(place) => Some(place),
            None => self.open_from(0),
        }
    }

    // The first file from a place on whose end was not met.
    fn open_from(&self, from: usize) -> Option<usize>
        ensures place { result ≡ spec.open_from from self.now.files }
        ensures within { IfSome result (λ place. place < length self.now.files) }
    {
        for place in from..self.files.len() {
            if !self.files[place].is_ended() {
                return Some(place);
            }
        }
        None
    }

    fn outcome(&self) -> Got
        ensures { result ≡ spec.got_of self.now }
    {
        if self.holds() {
            Got::Lines
        } else if self.is_ended() {
            Got::End
        } else {
            Got::NotYet
        }
    }

    /// Whether a line is held. Takes no memory.
    pub fn holds(&self) -> bool
        ensures { (result ≡ false) ↔ (spec.lines_held self.now ≡ []) }
    {
        self.at < self.files.len() && self.files[self.at].holds()
    }

    /// Whether the end of each file was met, or there is none. Takes no memory.
    pub fn is_ended(&self) -> bool
        ensures { result ≡ spec.is_over self.now }
    {
        self.open_from(0).is_none()
    }

    /// The event of the next line of the file that was polled last, before the settings of the input are applied to it, with its
    /// `[log][file][path]`; none exactly where no line is held. The only error is want of memory, and then the input is as it was.
    pub fn next(&mut self) -> Result<Option<Event>, AllocError>
        ensures gave { IfOk result (λ event. spec.Gave event self.old self.new) }
        ensures none { IfOk result (λ event. (event ≡ None) ↔ (spec.lines_held self.old ≡ [])) }
        ensures events { IfOk result (λ event. spec.events_held self.old
            ≡ option_to_list event ++ spec.events_held self.new) }
        ensures stored { stored self.new.files ≡ stored self.old.files }
        ensures err { OnErr result (self.new ≡ self.old) }
    {
        if self.at >= self.files.len() {
            return Ok(None);
        }
        self.files[self.at].next()
    }

    /// Makes room for one more row of the file that was polled last.
    pub fn make_room(&mut self) -> Result<(), AllocError>
        ensures room { OnOk result (spec.FirstHasRoom (drop self.new.at self.new.files)) }
        ensures stored { stored self.new.files ≡ stored self.old.files }
        ensures lines { spec.lines_held self.new ≡ spec.lines_held self.old }
        ensures events { spec.events_held self.new ≡ spec.events_held self.old }
    {
        if self.at >= self.files.len() {
            return Ok(());
        }
        self.files[self.at].make_room()
    }

    /// The event that [`WatchedFiles::next`] gave last was handed on. Takes no memory.
    pub fn pass_on(&mut self)
        ensures passed_on { self.new ≡ spec.passed_on self.old }
        ensures stored { stored self.new.files ≡ stored self.old.files }
    {
        self.given_at = self.at;
        if self.at < self.files.len() {
            self.files[self.at].pass_on();
        }
    }

    /// Notes the row that the event which was handed on last became, with the place in its file behind its line. Takes no memory.
    pub fn note_row(&mut self, number: u64)
        requires { spec.FirstHasRoom (drop self.old.given_at self.old.files) }
        ensures with_row { self.new ≡ spec.with_row number self.old }
        ensures stored { stored self.new.files ≡ stored self.old.files }
    {
        if self.given_at < self.files.len() {
            self.files[self.given_at].note_row(number);
        }
    }

    /// Records of each file the place that its rows up to a front reach, unless it is recorded already, and forgets these rows. Takes no
    /// memory.
    ///
    /// Behind an error, which leaves the positions of the first few files recorded, the files have to be opened again.
    pub fn assure<S: Store>(&mut self, store: &mut S, front: u64) -> Result<(), Failed>
        requires { AreReady S.Store self.old.files store.old }
        ensures ok { OnOk result (self.new ≡ spec.assured front self.old) }
        ensures ready { OnOk result (AreReady S.Store self.new.files store.new) }
        ensures err { OnErr result (spec.AssuredInPart front self.old self.new) }
        ensures any_moment { EachMoment S.Store store.old store.new
            (LeavesBeside S.Store (IsOfThese self.old.files) store.old) }
        ensures beside { ReadsBeside S.Store (IsOfThese self.old.files) store.old store.new }
        ensures cause { HasCause (S.faults store.old) (S.faults store.new) (IsErr result) }
    {
        assure_each(&mut self.files, store, front)
    }
}

// Assures each file up to a front.
fn assure_each<S: Store>(
    files: &mut Vec<WatchedFile>,
    store: &mut S,
    front: u64,
) -> Result<(), Failed>
    requires { AreReady S.Store files.old.items store.old }
    ensures ok { OnOk result (files.new.items ≡ map (assured front) files.old.items) }
    ensures ready { OnOk result (AreReady S.Store files.new.items store.new) }
    ensures err { OnErr result
        (spec.FrontAssured front files.old.items files.new.items) }
    ensures any_moment { EachMoment S.Store store.old store.new
        (LeavesBeside S.Store (IsOfThese files.old.items) store.old) }
    ensures beside { ReadsBeside S.Store (IsOfThese files.old.items) store.old store.new }
    ensures cause { HasCause (S.faults store.old) (S.faults store.new) (IsErr result) }
{
    for place in 0..files.len() {
        files[place].assure(store, front)?;
    }
    Ok(())
}
