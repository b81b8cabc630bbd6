// The sources of inputs, side by side.
ghost use Rattle.std.specs.Prelude.{◌≡◌, ◌↔◌, ◌++◌, [], false, IsErr, IfNone, IfOk, OnOk, OnErr};
ghost use Rattle.std.specs.Option.{option_to_list};
ghost use Rattle.io_traits.specs.Counts.{HasCause};
ghost use Rattle.io_traits.specs.Moments.{EachMoment, LeavesBeside, ReadsBeside};
ghost use Rattle.line_inputs.specs.Positions.{AreReady, IsOfThese, stored};
ghost use Rattle.line_inputs.specs.Sources as spec;

use crate::generated::GeneratedInput;
use crate::watched::WatchedFiles;
use event_tree::Event;
use in_file::StdinInput;
use in_lines::{Got, PollFault};
use in_tcp::TcpInput;
use io_traits::{Failed, Files, Links, Source, Store};
use plain_data::Instant;
use std::alloc::AllocError;

/// Where the events of an input come from.
pub enum InputSource {
    /// The lines of a stream.
    Stdin(StdinInput),
    /// A generator.
    Generated(GeneratedInput),
    /// The lines of watched files.
    Files(WatchedFiles),
    /// The lines that come over connections.
    Connections(TcpInput),
}

// Written out, so that it is one call wherever an error is handed on while one is held.
impl Drop for InputSource {
    fn drop(self) {
        match self {
            InputSource::Stdin(_input) => {}
            InputSource::Generated(_input) => {}
            InputSource::Files(_files) => {}
            InputSource::Connections(_input) => {}
        }
    }
}

impl InputSource {
    /// Polls it at a moment of the clock, as the poll of its kind has it: of the three objects it takes the one that it reads.
    pub fn poll<I: Source, F: Files, L: Links>(
        &mut self,
        stdin: &mut I,
        files: &mut F,
        links: &mut L,
        moment: Instant,
    ) -> Result<Got, PollFault>
        requires { spec.AreCame I.Source F.Files L.Links self.old links.old }
        ensures polled { spec.WasPolled I.Source F.Files L.Links moment
            (spec.around I.Source F.Files L.Links stdin.old stdin.new files.old files.new
            links.old links.new)
            self.old self.new result }
        ensures stored { stored (spec.files_of self.new) ≡ stored (spec.files_of self.old) }
    {
        match self {
            InputSource::Stdin(input) => input.poll(stdin, moment),
            InputSource::Generated(input) => Ok(input.poll(moment)),
            InputSource::Files(input) => input.poll(files, moment),
            InputSource::Connections(input) => input.poll(links, moment),
        }
    }

    /// Whether an event is held. Takes no memory.
    pub fn holds(&self) -> bool
        ensures { (result ≡ false) ↔ (spec.events_held self.now ≡ []) }
    {
        match self {
            InputSource::Stdin(input) => input.holds(),
            InputSource::Generated(input) => input.holds(),
            InputSource::Files(input) => input.holds(),
            InputSource::Connections(input) => input.holds(),
        }
    }

    /// The next event, before the settings of the input; that of a generator has its own. None exactly where none is held. The only error
    /// is want of memory, and then the same events are held.
    pub fn next(&mut self) -> Result<Option<Event>, AllocError>
        ensures events { IfOk result (λ event. spec.events_held self.old
            ≡ option_to_list event ++ spec.events_held self.new) }
        ensures none { IfOk result (λ event. IfNone event (spec.events_held self.old ≡ [])) }
        ensures stored { stored (spec.files_of self.new) ≡ stored (spec.files_of self.old) }
        ensures connections { spec.connections_of self.new ≡ spec.connections_of self.old }
        ensures err { OnErr result (spec.events_held self.new ≡ spec.events_held self.old) }
    {
        match self {
            InputSource::Stdin(input) => input.next(),
            InputSource::Generated(input) => input.next(),
            InputSource::Files(input) => input.next(),
            InputSource::Connections(input) => input.next(),
        }
    }

    /// Makes room for the row of the next event.
    pub fn make_room(&mut self) -> Result<(), AllocError>
        ensures room { OnOk result (spec.NextHasRoom self.new) }
        ensures stored { stored (spec.files_of self.new) ≡ stored (spec.files_of self.old) }
        ensures connections { spec.connections_of self.new ≡ spec.connections_of self.old }
        ensures events { spec.events_held self.new ≡ spec.events_held self.old }
    {
        match self {
            InputSource::Files(input) => input.make_room(),
            InputSource::Stdin(_) | InputSource::Generated(_) | InputSource::Connections(_) => Ok(
                (),
            ),
        }
    }

    /// The event that [`InputSource::next`] gave last was handed on. Takes no memory.
    pub fn pass_on(&mut self)
        ensures passed_on { self.new ≡ spec.passed_on self.old }
        ensures stored { stored (spec.files_of self.new) ≡ stored (spec.files_of self.old) }
        ensures connections { spec.connections_of self.new ≡ spec.connections_of self.old }
        ensures events { spec.events_held self.new ≡ spec.events_held self.old }
        ensures room { spec.NextHasRoom self.old → spec.LastHasRoom self.new }
    {
        match self {
            InputSource::Files(input) => input.pass_on(),
            InputSource::Stdin(_input) => {}
            InputSource::Generated(_input) => {}
            InputSource::Connections(_input) => {}
        }
    }

    /// Notes the row that the event which was handed on last became, where it is one of a watched file. Takes no memory.
    pub fn note_row(&mut self, number: u64)
        requires { spec.LastHasRoom self.old }
        ensures with_row { self.new ≡ spec.with_row number self.old }
        ensures stored { stored (spec.files_of self.new) ≡ stored (spec.files_of self.old) }
        ensures connections { spec.connections_of self.new ≡ spec.connections_of self.old }
    {
        match self {
            InputSource::Files(input) => input.note_row(number),
            InputSource::Stdin(_) | InputSource::Generated(_) | InputSource::Connections(_) => {}
        }
    }

    /// Records of each watched file the place that its rows up to a front reach, unless it is recorded, and forgets these rows. Takes no memory.
    ///
    /// Behind an error, which leaves the positions of the first few files recorded, the input has to be opened again.
    pub fn assure<S: Store>(&mut self, store: &mut S, front: u64) -> Result<(), Failed>
        requires { AreReady S.Store (spec.files_of self.old) store.old }
        ensures ok { OnOk result (self.new ≡ spec.assured front self.old) }
        ensures ready { OnOk result (AreReady S.Store (spec.files_of self.new) store.new) }
        ensures err { OnErr result (spec.AssuredInPart front self.old self.new) }
        ensures any_moment { EachMoment S.Store store.old store.new
            (LeavesBeside S.Store (IsOfThese (spec.files_of self.old)) store.old) }
        ensures beside { ReadsBeside S.Store (IsOfThese (spec.files_of self.old))
            store.old store.new }
        ensures cause { HasCause (S.faults store.old) (S.faults store.new) (IsErr result) }
    {
        match self {
            InputSource::Files(input) => input.assure(store, front),
            InputSource::Stdin(_input) => Ok(()),
            InputSource::Generated(_input) => Ok(()),
            InputSource::Connections(_input) => Ok(()),
        }
    }
}
