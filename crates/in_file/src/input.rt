// The file input: polls a watched file and records how far its lines are assured.
ghost use Rattle.std.specs.Prelude.{◌≡◌, ◌≢◌, ◌≤◌, ◌↔◌, ℕ, ◌+◌, [], true, false, IsTrue, IsErr, Err, None, Some, length, take, IfOk, OnOk, OnErr};
ghost use Rattle.io_traits.specs.Counts.{HasCause};
ghost use Rattle.io_traits.specs.Folders.{IsOneCall};
ghost use Rattle.io_traits.specs.Reads.{bytes_of, file_length};
ghost use Rattle.byte_lines.specs.Text.{text_of};
ghost use Rattle.byte_lines.specs.Unread.{lines_left};
ghost use Rattle.crc_frame.specs.Slots.{place_of, next_turn};
ghost use Rattle.io_traits.specs.Moments.{EachMoment, NowOrSynced, ReadsBeside};
ghost use Rattle.io_traits.specs.declared.queue_faults.Damage.{Damage as DamageValue};
ghost use Rattle.slot_files.specs.Positions.{recorded_in};
ghost use Rattle.slot_files.specs.declared.recorded.Recorded.{Recorded as RecordedValue};
ghost use Rattle.in_file.specs.Looks.{Gave, Keeps, WasPolled, event_from, file_path, got_of, looks, taken_in};
ghost use Rattle.in_file.specs.Openings.{IsOpened, IsDamaged, IsWhole, line_limit, opened};
ghost use Rattle.in_file.specs.Positions.{AssureLeaves, IsAssured, IsOwn, IsReady};
ghost use Rattle.in_file.specs.Views.{taken};
ghost use Rattle.in_file.specs.declared.faults.OpenFault.TheVariants as o;
ghost use Rattle.in_lines.specs.declared.poll_outcome.PollFault.TheVariants as p;

use crate::faults::OpenFault;
use crate::line_buffer::{LineBuffer, READ_LEN};
use crate::opening::{begins_at, opened, position_by, turn_by};
use crate::plan::FilePlan;
use event_text::try_put;
use event_tree::{Event, Names, Path, Value};
use in_lines::{Codec, Got, PollFault, event_of_bytes};
use io_traits::{Failed, Files, Store};
use plain_data::{Instant, Text};
use slot_files::{Recorded, record_position};
use std::alloc::{AllocError, Global};
use std::marker::Model;

/// What a watched file is called.
pub(crate) struct FileNames {
    /// The name of the file.
    pub path: Text,
    /// The name of its position file in the store.
    pub slot: Text,
    /// Where each event keeps the name of its file.
    pub field: Path,
}

// Written out, so that it is one call wherever an error is handed on while they are held.
impl Drop for FileNames {
    fn drop(self) {
        let FileNames {
            path: _path,
            slot: _slot,
            field: _field,
        } = self;
    }
}

impl FileNames {
    pub(crate) fn of(alloc: Global, path: &str, slot: &str) -> Result<FileNames, AllocError>
        ensures path { IfOk result (λ names. names.path ≡ path.now) }
        ensures slot { IfOk result (λ names. names.slot ≡ slot.now) }
        ensures field { IfOk result (λ names. names.field ≡ file_path) }
    {
        Ok(FileNames {
            path: Text::of(alloc, path)?,
            slot: Text::of(alloc, slot)?,
            field: file_path(alloc)?,
        })
    }

    /// The name of the position file, where the others aren't needed any more.
    pub(crate) fn into_slot(self) -> Text
        ensures { result ≡ self.slot }
    {
        let FileNames {
            path: _path,
            slot,
            field: _field,
        } = self;
        slot
    }
}

// The path `[log][file][path]`.
fn file_path(alloc: Global) -> Result<Path, AllocError>
    ensures { IfOk result (λ path. path ≡ file_path) }
{
    let mut parts = Names::new(alloc);
    parts.push(Text::of(alloc, "log")?)?;
    parts.push(Text::of(alloc, "file")?)?;
    parts.push(Text::of(alloc, "path")?)?;
    Ok(Path::of_parts(parts))
}

/// An input that watches a file: its lines, from a place on, as events, with the position that is recorded of it.
pub struct FileInput {
    alloc: Global,
    names: FileNames,
    /// Whether the end of the file is the end of the input.
    ends: bool,
    codec: Codec,
    /// The place in the file where this reading began.
    began: u64,
    /// The place in the file behind the last line that was given.
    behind: u64,
    /// The bytes of the file from there on that were read.
    held: LineBuffer,
    /// The moment of the poll that made the lines whole that are held.
    moment: Instant,
    /// The recorded position.
    position: u64,
    /// The turn of the slot that is written next.
    turn: u64,
}

// Written out, so that it is one call wherever an error is handed on while one is held.
impl Drop for FileInput {
    fn drop(self) {
        let FileInput {
            alloc: _,
            names: _names,
            ends: _,
            codec: _,
            began: _,
            behind: _,
            held: _held,
            moment: _,
            position: _,
            turn: _,
        } = self;
    }
}

impl Model for FileInput {
    ghost use Rattle.std.specs.Prelude.{◌+◌, ◌<◌, ◌≡◌, ◌^◌, length};
    ghost use Rattle.in_file.specs.Looks.{file_path};
    ghost use Rattle.in_file.specs.Views.{Watched};

    ghost Value = { Watched };

    ghost view = { λ w. record {
      path = w.names.path;
      slot = w.names.slot;
      ends = w.ends;
      codec = w.codec;
      began = w.began;
      behind = w.behind;
      unread = w.held;
      moment = w.moment;
      position = w.position;
      turn = w.turn;
    } };

    ghost invariant = { λ w. (w.behind + length w.held.bytes < 2 ^ 64) × (w.held.limit ≡ 1048576)
        × (w.names.field ≡ file_path) };
}

impl FileInput {
    /// Opens the input of a file, with the position file of the name `slot` in the store: settles the store, and finds
    /// where to read on.
    ///
    /// That is the recorded position, or the beginning of a file that ends before it. Where nothing is recorded it is as the
    /// plan says, the beginning or the present end of the file. A missing file counts as empty. Nothing is written.
    ///
    /// `Damaged` is a position file without an intact slot that is longer than a slot. `Memory` comes before the first call of
    /// the store. Behind an error it can be opened again.
    pub fn open_on<S: Store, F: Files>(
        alloc: Global,
        store: &mut S,
        files: &mut F,
        path: &str,
        slot: &str,
        plan: FilePlan,
    ) -> Result<FileInput, OpenFault>
        ensures opened { IfOk result
            (IsOpened S.Store F.Files path.now slot.now plan store.old files.old) }
        ensures ready { IfOk result (λ w. IsReady S.Store w store.new) }

        // Which damage there is, and that there is none, is told by what the store reads.
        ensures damaged { (damage : DamageValue) → result ≡ Err (o.Damaged damage) → IsTrue S.tells
            → IsDamaged slot.now (recorded_in (bytes_of (S.seen store.old slot.now))) damage }
        ensures not_damaged { result ≡ Err o.Files → IsTrue S.tells
            → IsWhole (recorded_in (bytes_of (S.seen store.old slot.now))) }

        ensures reads { IsTrue S.tells → S.seen store.new ≡ S.seen store.old }
        ensures any_moment { EachMoment S.Store store.old store.new (NowOrSynced S.Store store.old) }
        ensures call { OnOk result (IsOneCall F.tells F.shows F.calls files.old files.new) }
        ensures memory { result ≡ Err o.Memory
            → (store.new ≡ store.old) × (files.new ≡ files.old) }
        ensures store_cause { HasCause (S.faults store.old) (S.faults store.new)
            (result ≡ Err o.Store) }
        ensures files_cause { HasCause (F.faults files.old) (F.faults files.new)
            (result ≡ Err o.Files) }
    {
        let Ok(names) = FileNames::of(alloc, path, slot) else {
            return Err(OpenFault::Memory);
        };
        opened(alloc, store, files, names, plan)
    }

    /// An input that begins to read a file of so many bytes, of which this is recorded.
    pub(crate) fn of(
        alloc: Global,
        names: FileNames,
        plan: FilePlan,
        length: u64,
        recorded: Recorded,
    ) -> FileInput
        requires { names.field ≡ file_path }
        ensures { result ≡ opened names.path names.slot plan length recorded }
    {
        let began = begins_at(plan, length, recorded);
        FileInput {
            alloc,
            names,
            ends: plan.ends,
            codec: plan.codec,
            began,
            behind: began,
            held: LineBuffer::new(alloc),
            moment: Instant::epoch(),
            position: position_by(began, recorded),
            turn: turn_by(recorded),
        }
    }

    /// Looks whether lines came, at a moment of the clock. Where it holds a whole line, or met its end, it does not look at the
    /// file; else it reads of it, once, up to 262,144 bytes.
    ///
    /// - `Lines`: it holds a whole line.
    /// - `End`: it holds none, and the file was read to its end, which is that of the input.
    /// - `NotYet`: it holds none so far. Bytes came, or the file has none past those that were read.
    ///
    /// A `Fault` is one of the files. An error leaves the input as it was.
    pub fn poll<F: Files>(&mut self, files: &mut F, moment: Instant) -> Result<Got, PollFault>
        ensures polled { OnOk result
            (WasPolled F.Files moment files.old files.new self.old self.new) }
        ensures got { IfOk result (λ got. got ≡ got_of self.new) }
        ensures keeps { OnOk result (Keeps self.old self.new) }
        ensures err { OnErr result (self.new ≡ self.old) }
        ensures memory { result ≡ Err p.Memory → files.new ≡ files.old }
        ensures cause { HasCause (F.faults files.old) (F.faults files.new) (result ≡ Err p.Fault) }
    {
        self.read_once(files, moment)?;
        Ok(self.outcome())
    }

    // Looks at the file, unless it need not.
    fn read_once<F: Files>(&mut self, files: &mut F, moment: Instant) -> Result<(), PollFault>
        ensures polled { OnOk result
            (WasPolled F.Files moment files.old files.new self.old self.new) }
        ensures err { OnErr result (self.new ≡ self.old) }
        ensures memory { result ≡ Err p.Memory → files.new ≡ files.old }
        ensures cause { HasCause (F.faults files.old) (F.faults files.new) (result ≡ Err p.Fault) }
    {
        if self.looks() {
            return self.look(files, moment);
        }
        Ok(())
    }

    // Whether a poll looks at the file.
    fn looks(&mut self) -> bool
        ensures looks { result ≡ looks self.old }
        ensures same { self.new ≡ self.old }
        ensures limit { self.new.unread.limit ≡ line_limit }
    {
        self.held.wants_read()
    }

    fn outcome(&mut self) -> Got
        ensures got { result ≡ got_of self.old }
        ensures same { self.new ≡ self.old }
    {
        self.held.outcome()
    }

    // Reads of the file.
    fn look<F: Files>(&mut self, files: &mut F, moment: Instant) -> Result<(), PollFault>
        requires { looks self.old ≡ true }
        ensures polled { OnOk result
            (WasPolled F.Files moment files.old files.new self.old self.new) }
        ensures err { OnErr result (self.new ≡ self.old) }
        ensures memory { result ≡ Err p.Memory → files.new ≡ files.old }
        ensures cause { HasCause (F.faults files.old) (F.faults files.new) (result ≡ Err p.Fault) }
    {
        let place = self.behind + self.held.len() as u64;
        let room = (u64::MAX - place).min(READ_LEN as u64);
        let count = self
            .held
            .fill(files, self.names.path.as_str(), place, room as usize)?;
        self.append_read(count, moment);
        Ok(())
    }

    // Takes so many bytes that came, or the end where none did.
    fn append_read(&mut self, count: usize, moment: Instant)
        ensures { self.new ≡ taken_in count moment self.old }
    {
        if count > 0 {
            self.moment = moment;
        } else if self.ends {
            self.held.end();
            self.moment = moment;
        }
    }

    /// The event of the next line, before the settings of the input are applied to it, with the moment of the poll that made
    /// the line whole. Its `[log][file][path]` is the name of the file, unless the event can't hold it. None exactly where no
    /// whole line is held.
    ///
    /// The only error is want of memory, and then the input is as it was.
    pub fn next(&mut self) -> Result<Option<Event>, AllocError>
        ensures gave { IfOk result (λ event. Gave event self.old self.new) }
        ensures none { IfOk result (λ event. (event ≡ None) ↔ (lines_left self.old.unread ≡ [])) }
        ensures keeps { OnOk result (Keeps self.old self.new) }
        ensures err { OnErr result (self.new ≡ self.old) }
    {
        let Some(line) = self.held.first() else {
            return Ok(None);
        };
        let event = self.event(line.content_len)?;
        self.held.pass(line.taken);
        self.behind += line.taken as u64;
        Ok(Some(event))
    }

    // The event of so many bytes in front.
    fn event(&self, count: usize) -> Result<Event, AllocError>
        requires within { count ≤ length self.now.unread.bytes }
        requires short { count ≤ line_limit }
        ensures { let line = text_of (take count self.now.unread.bytes) in
            IfOk result (λ event. event ≡ event_from self.now.path self.now.codec
            (record { line = line; moment = self.now.moment })) }
    {
        let bytes = self.held.front(count);
        let mut event = event_of_bytes(self.alloc, self.codec, bytes, self.moment)?;
        let name = Value::Text(self.names.path.copy()?);
        try_put(&mut event, &self.names.field, name)?;
        Ok(event)
    }

    /// Whether [`FileInput::next`] would give an event: whether a whole line is held among the bytes that were read. It does not
    /// look at the file, and takes no memory.
    pub fn holds(&self) -> bool
        ensures { (result ≡ false) ↔ (lines_left self.now.unread ≡ []) }
    {
        self.held.holds()
    }

    /// Records a position, in the slot whose turn it is, and settles the store. It is meant to be where this reading began, or
    /// a place behind a line that was given. Takes no memory.
    ///
    /// Behind an error the input has to be opened again.
    pub fn assure<S: Store>(&mut self, store: &mut S, bytes: u64) -> Result<(), Failed>
        requires { IsTrue S.tells → place_of 24 self.old.turn
            ≤ file_length (S.seen store.old self.old.slot) }
        ensures ok { OnOk result (self.new
            ≡ record self.old { position = bytes; turn = next_turn self.old.turn }) }
        ensures assured { OnOk result (IsReady S.Store self.old store.old
            → IsAssured S.Store self.old bytes self.new store.new) }
        ensures err { OnErr result (self.new ≡ self.old) }
        ensures any_moment { AssureLeaves S.Store self.old bytes store.old store.new }
        ensures beside { ReadsBeside S.Store (IsOwn self.old) store.old store.new }
        ensures cause { HasCause (S.faults store.old) (S.faults store.new) (IsErr result) }
    {
        let turn = self.turn;
        record_position(store, self.names.slot.as_str(), turn, bytes)?;
        self.turn = turn.wrapping_add(1);
        self.position = bytes;
        Ok(())
    }

    /// The recorded position in bytes, and where nothing is recorded that at which this reading began. Takes no memory.
    pub fn position(&self) -> u64
        ensures { result ≡ self.now.position }
    {
        self.position
    }

    /// The place in the file behind the last line that was given, and before the first where this reading began. Takes no
    /// memory.
    pub fn behind(&self) -> u64
        ensures { result ≡ self.now.behind }
    {
        self.behind
    }
}
