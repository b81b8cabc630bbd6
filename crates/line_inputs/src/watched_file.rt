// A watched file of an input, with the rows that its lines became.
ghost use Rattle.std.specs.Prelude.{◌≡◌, ◌↔◌, [], false, IsErr, Err, None, Some, IfOk, OnOk, OnErr};
ghost use Rattle.io_traits.specs.Counts.{HasCause};
ghost use Rattle.io_traits.specs.Moments.{EachMoment, ReadsBeside};
ghost use Rattle.byte_lines.specs.Unread.{lines_left};
ghost use Rattle.in_file.specs.Looks.{Gave, WasPolled, got_of};
ghost use Rattle.in_file.specs.Positions.{IsOwn, IsReady, LeavesOldOrNew};
ghost use Rattle.in_lines.specs.declared.poll_outcome.PollFault.TheVariants as p;
ghost use Rattle.line_inputs.specs.Positions.{LeavesReached, stored_of};
ghost use Rattle.line_inputs.specs.Rows as spec;

use event_tree::Event;
use in_file::FileInput;
use in_lines::{Got, PollFault};
use io_traits::{Failed, Files, Store};
use plain_data::Instant;
use std::alloc::{AllocError, Global};
use std::marker::Model;

/// A row, with the place in its file behind the line that it was.
#[derive(Clone, Copy)]
pub struct RowPlace {
    pub number: u64,
    pub behind: u64,
}

/// A file that an input watches, with the rows that its lines became and that are not assured yet.
pub struct WatchedFile {
    input: FileInput,
    /// The place behind the line of the last event that was handed on.
    given: u64,
    rows: Vec<RowPlace>,
    /// Whether a poll met the end of the input.
    ended: bool,
}

// Written out, so that it is one call wherever an error is handed on while one is held.
impl Drop for WatchedFile {
    fn drop(self) {
        let WatchedFile {
            input: _input,
            given: _,
            rows: _rows,
            ended: _,
        } = self;
    }
}

impl Model for WatchedFile {
    ghost use Rattle.std.specs.Vec.{vec_capacity};
    ghost use Rattle.line_inputs.specs.Rows.{Noted};

    ghost Value = { Noted };

    ghost view = { λ f. record {
      watched = f.input;
      ended = f.ended;
      given = f.given;
      rows = f.rows.items;
      capacity = vec_capacity f.rows;
    } };
}

impl WatchedFile {
    /// A file that was just opened. Takes no memory.
    pub(crate) fn new(alloc: Global, input: FileInput) -> WatchedFile
        ensures watched { result.watched ≡ input }
        ensures ended { result.ended ≡ false }
        ensures given { result.given ≡ input.behind }
        ensures rows { result.rows ≡ [] }
    {
        WatchedFile {
            given: input.behind(),
            input,
            rows: Vec::new(alloc),
            ended: false,
        }
    }

    /// Polls it, as [`FileInput::poll`] has it.
    pub(crate) fn poll<F: Files>(
        &mut self,
        files: &mut F,
        moment: Instant,
    ) -> Result<Got, PollFault>
        ensures polled { OnOk result (WasPolled F.Files moment files.old files.new
            self.old.watched self.new.watched) }
        ensures got { IfOk result (λ got. got ≡ got_of self.new.watched) }
        ensures rest { OnOk result (self.new ≡ spec.polled self.new.watched self.old) }
        ensures stored { stored_of self.new.watched ≡ stored_of self.old.watched }
        ensures err { OnErr result (self.new ≡ self.old) }
        ensures memory { result ≡ Err p.Memory → files.new ≡ files.old }
        ensures cause { HasCause (F.faults files.old) (F.faults files.new) (result ≡ Err p.Fault) }
    {
        let got = self.input.poll(files, moment)?;
        self.ended = self.ended || is_end(got);
        Ok(got)
    }

    /// Makes room for one more row.
    pub(crate) fn make_room(&mut self) -> Result<(), AllocError>
        ensures room { OnOk result (spec.HasRoom self.new) }
        ensures rest { self.new ≡ record self.old { capacity = self.new.capacity } }
    {
        self.rows.reserve(1)
    }

    /// The event of its next line, as [`FileInput::next`] has it.
    pub(crate) fn next(&mut self) -> Result<Option<Event>, AllocError>
        ensures gave { IfOk result (λ event. Gave event self.old.watched self.new.watched) }
        ensures none { IfOk result (λ event. (event ≡ None)
            ↔ (lines_left self.old.watched.unread ≡ [])) }
        ensures rest { self.new ≡ record self.old { watched = self.new.watched } }
        ensures stored { stored_of self.new.watched ≡ stored_of self.old.watched }
        ensures err { OnErr result (self.new ≡ self.old) }
    {
        self.input.next()
    }

    /// The event of its last line was handed on.
    pub(crate) fn pass_on(&mut self)
        ensures { self.new ≡ record self.old { given = self.old.watched.behind } }
    {
        self.given = self.input.behind();
    }

    /// Notes the row that the event which was handed on last became. Takes no memory.
    pub(crate) fn note_row(&mut self, number: u64)
        requires { spec.HasRoom self.old }
        ensures { self.new ≡ spec.with_row number self.old }
    {
        let behind = self.given;
        self.rows.push_reserved(RowPlace { number, behind });
    }

    // The place up to which the rows up to a front reach.
    fn reached(&self, front: u64) -> Option<u64>
        ensures { result ≡ spec.reached front self.now }
    {
        let mut found = None;
        for place in 0..self.rows.len() {
            let row = self.rows[place];
            if row.number <= front {
                found = Some(row.behind);
            }
        }
        found
    }

    // Forgets the rows up to a front.
    fn forget(&mut self, front: u64)
        ensures { self.new ≡ record self.old { rows = spec.rows_above front self.old.rows } }
    {
        self.rows.retain(|row| !(row.number <= front));
    }

    /// Records the place that the rows up to a front reach, unless it is recorded already, and forgets these rows. Takes no memory.
    ///
    /// Behind an error the file has to be opened again.
    pub(crate) fn assure<S: Store>(&mut self, store: &mut S, front: u64) -> Result<(), Failed>
        requires { IsReady S.Store self.old.watched store.old }
        ensures ok { OnOk result (self.new ≡ spec.assured front self.old) }
        ensures ready { OnOk result (IsReady S.Store self.new.watched store.new) }
        ensures err { OnErr result (self.new ≡ self.old) }
        ensures any_moment { EachMoment S.Store store.old store.new
            (LeavesReached S.Store (spec.reached front self.old) self.old.watched store.old) }
        ensures beside { ReadsBeside S.Store (IsOwn self.old.watched) store.old store.new }
        ensures cause { HasCause (S.faults store.old) (S.faults store.new) (IsErr result) }
    {
        let Some(place) = self.reached(front) else {
            self.forget(front);
            return Ok(());
        };
        self.record_place(store, place)?;
        self.forget(front);
        Ok(())
    }

    // Records a position, unless it is recorded already.
    fn record_place<S: Store>(&mut self, store: &mut S, place: u64) -> Result<(), Failed>
        requires { IsReady S.Store self.old.watched store.old }
        ensures ok { OnOk result (self.new
            ≡ record self.old { watched = spec.recorded (Some place) self.old.watched }) }
        ensures ready { OnOk result (IsReady S.Store self.new.watched store.new) }
        ensures err { OnErr result (self.new ≡ self.old) }
        ensures any_moment { EachMoment S.Store store.old store.new
            (LeavesOldOrNew S.Store self.old.watched place store.old) }
        ensures beside { ReadsBeside S.Store (IsOwn self.old.watched) store.old store.new }
        ensures cause { HasCause (S.faults store.old) (S.faults store.new) (IsErr result) }
    {
        if place == self.input.position() {
            return Ok(());
        }
        self.input.assure(store, place)
    }

    /// Whether a poll met the end of the input. Takes no memory.
    pub(crate) fn is_ended(&self) -> bool
        ensures { result ≡ self.now.ended }
    {
        self.ended
    }

    /// Whether it holds a whole line. Takes no memory.
    pub(crate) fn holds(&self) -> bool
        ensures { (result ≡ false) ↔ (lines_left self.now.watched.unread ≡ []) }
    {
        self.input.holds()
    }
}

fn is_end(got: Got) -> bool
    ensures { result ≡ spec.is_end got }
{
    matches!(got, Got::End)
}
