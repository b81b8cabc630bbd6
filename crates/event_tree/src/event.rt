// An event: its two objects and the size of its encoding.
ghost use Rattle.std.specs.Prelude.{◌≡◌, ◌≤◌, ◌+◌, ◌==◌, ◌&&◌, length, [], Some, IfOk, IsTrue, ◌↔◌};
ghost use Rattle.event_tree.specs.Growth.{room_at_end};
ghost use Rattle.event_tree.specs.declared.value.Value.{Value as Tree};
ghost use Rattle.std.specs.Option.{option_copied};
ghost use Rattle.event_tree.specs.Events.{Ev, IsEvent, both, event_size, with_fields, with_meta, event_at, event_take, event_move, object_of};
ghost use Rattle.event_tree.specs.Outcomes.{MovesEvent, Foretells, FindsAt, PutEventAt, AppendEventAt, ChangesEvent, Takes, TakesFrom, changed};
ghost use Rattle.event_tree.specs.declared.value.Value.TheVariants as v;

use crate::change::get_in;
use crate::cut::take_in;
use crate::fault::PutFault;
use crate::measure::{room_at, size_of, size_without};
use crate::moving::{FoundValue, find, room_behind};
use crate::path::Path;
use crate::value::Value;
use crate::within::{WriteKind, change_within, room_left};
use plain_data::{Fields, Text};
use std::alloc::{AllocError, Global};
use std::marker::Model;
use std::mem;

/// How many bytes the encoding of an event may have.
const MOST_BYTES: u64 = 16_777_216;

/// An event: two objects, `fields` and `meta`.
///
/// Each event keeps these: in every object the keys rise strictly in byte order; keys and texts are
/// UTF-8, numbers stand in least form within 64 bits, and times lie in the years 0001 to 9999; lists
/// and objects nest at most 128 deep, `fields` and `meta` themselves being the first level; and its
/// encoding has at most 16,777,216 bytes.
pub struct Event {
    fields: Value,
    meta: Value,
    size: u64,
    alloc: Global,
}

// Written out, so that it is one call wherever an error is handed on while an event is held.
impl Drop for Event {
    fn drop(self) {
        let Event {
            fields: _fields,
            meta: _meta,
            size: _,
            alloc: _,
        } = self;
    }
}

impl Model for Event {
    ghost use Rattle.std.specs.Prelude.{◌≡◌};
    ghost use Rattle.std.specs.Coded.{codes};
    ghost use Rattle.event_tree.specs.Events.{Ev, IsEvent, both, event_size};
    ghost use Rattle.event_tree.specs.contracts.value.Value as tree;

    ghost Value = { Ev };

    ghost coded = { Prim.hlevel (codes, tree.the_row.coded) };

    ghost view = { λ event. record { fields = event.fields; meta = event.meta } };

    ghost invariant = { λ event. IsEvent (both event.fields event.meta) × (event.size ≡ event_size (both event.fields event.meta)) };
}

impl Event {
    /// Two empty objects. It takes no memory.
    pub fn new(alloc: Global) -> Event
        ensures { result ≡ both (v.Object []) (v.Object []) }
    {
        Event {
            fields: Value::Object(Fields::new(alloc)),
            meta: Value::Object(Fields::new(alloc)),
            size: 8,
            alloc,
        }
    }

    /// The event of two objects whose encoding has so many bytes. It takes no memory, and walks
    /// nothing: the caller knows that they are an event.
    pub fn from_objects(
        alloc: Global,
        fields: Fields<Value>,
        meta: Fields<Value>,
        size: u64,
    ) -> Event
        requires valid { IsEvent (both (v.Object fields) (v.Object meta)) }
        requires size { size ≡ event_size (both (v.Object fields) (v.Object meta)) }
        ensures { result ≡ both (v.Object fields) (v.Object meta) }
    {
        Event {
            fields: Value::Object(fields),
            meta: Value::Object(meta),
            size,
            alloc,
        }
    }

    /// How many bytes the encoding of the event has: at most 16,777,216. It is kept, not computed.
    pub fn size(&self) -> u64
        ensures size { result ≡ event_size self.now }
        ensures valid { IsEvent self.now }
    {
        self.size
    }

    /// The object `fields`.
    pub fn fields(&self) -> &Value
        ensures same { result.now ≡ self.now.fields }
        ensures valid { IsEvent self.now }
    {
        &self.fields
    }

    /// The object `meta`.
    pub fn meta(&self) -> &Value
        ensures same { result.now ≡ self.now.meta }
        ensures valid { IsEvent self.now }
    {
        &self.meta
    }

    /// What stands at the path. It takes no memory, and time for one search in each object and list
    /// on the way.
    pub fn get(&self, path: &Path) -> Option<&Value>
        ensures value { option_copied result ≡ event_at path.now self.now }
        ensures valid { IsEvent self.now }
    {
        if path.is_meta() {
            get_in(&self.meta, path.parts())
        } else {
            get_in(&self.fields, path.parts())
        }
    }

    /// Puts a value at the path, in place of the one there, and makes missing objects on the way. A
    /// refusal changes nothing. Where several reasons hold, the answer is the first of
    /// `ThroughScalar`, `Deep`, `Large` and `Memory`.
    ///
    /// It takes time for the way, and for a walk through the new value and through the one that is
    /// replaced; the rest of the event is not walked.
    pub fn put(&mut self, path: &Path, value: Value) -> Result<(), PutFault>
        ensures { PutEventAt result path.now value self.old self.new }
    {
        if path.is_meta() {
            self.change_meta(path.parts(), value, WriteKind::Put)
        } else {
            self.change_fields(path.parts(), value, WriteKind::Put)
        }
    }

    /// Adds a value at the end of the list that stands at the path, as a `put` of the longer list
    /// would, but without a copy of it. Where no list stands there, the answer is `ThroughScalar`. A
    /// refusal changes nothing. Where several reasons hold, the answer is the first of
    /// `ThroughScalar`, `Deep`, `Large` and `Memory`.
    ///
    /// It takes time for the way, and for a walk through the new value.
    pub fn append(&mut self, path: &Path, value: Value) -> Result<(), PutFault>
        ensures { AppendEventAt result path.now value self.old self.new }
    {
        if path.is_meta() {
            self.change_meta(path.parts(), value, WriteKind::Append)
        } else {
            self.change_fields(path.parts(), value, WriteKind::Append)
        }
    }

    fn change_fields(
        &mut self,
        parts: &[Text],
        value: Value,
        how: WriteKind,
    ) -> Result<(), PutFault>
        ensures { ChangesEvent result with_fields (changed how parts.now value self.old.fields)
            self.old self.new }
    {
        let room = MOST_BYTES - self.size;
        match change_within(self.alloc, &mut self.fields, parts, value, how, room) {
            Ok(left) => {
                self.size = MOST_BYTES - left;
                Ok(())
            }
            Err(fault) => Err(fault),
        }
    }

    fn change_meta(&mut self, parts: &[Text], value: Value, how: WriteKind) -> Result<(), PutFault>
        ensures { ChangesEvent result with_meta (changed how parts.now value self.old.meta) self.old
            self.new }
    {
        let room = MOST_BYTES - self.size;
        match change_within(self.alloc, &mut self.meta, parts, value, how, room) {
            Ok(left) => {
                self.size = MOST_BYTES - left;
                Ok(())
            }
            Err(fault) => Err(fault),
        }
    }

    /// Takes away what stands at the path: a list closes up, and `@metadata` leaves an empty
    /// object. It takes no memory, and time for the way, for a walk through what is taken, and for
    /// moving the later items or members of the list or the object that had it.
    pub fn take(&mut self, path: &Path) -> Option<Value>
        ensures { Takes result (event_take path.now self.old) self.old self.new }
    {
        if !path.is_meta() {
            self.take_fields(path.parts())
        } else if path.parts().is_empty() {
            Some(self.take_whole_meta())
        } else {
            self.take_meta(path.parts())
        }
    }

    /// Moves what stands at one path to another, without a copy of it: as `take` and then `put` of
    /// what was taken. `Ok(false)` where nothing stands there. A refusal is the one that the `put`
    /// would give, and changes nothing; it comes before anything is taken. Where memory runs out for
    /// the keys and objects of the new way, what was taken is gone, as after that `put`.
    ///
    /// It takes time for the ways, and for three walks through what moves and one through what is
    /// replaced.
    pub fn rename(&mut self, from: &Path, to: &Path) -> Result<bool, PutFault>
        ensures { MovesEvent result from.now to.now self.old self.new }
    {
        match self.check_move(from, to) {
            None => return Ok(false),
            Some(Err(fault)) => return Err(fault),
            Some(Ok(())) => {}
        }
        let Some(value) = self.take(from) else {
            return Ok(false);
        };
        match self.put(to, value) {
            Ok(()) => Ok(true),
            Err(fault) => Err(fault),
        }
    }

    // What a move from one path to another would answer, but for want of memory. `None` where
    // nothing stands there.
    fn check_move(&self, from: &Path, to: &Path) -> Option<Result<(), PutFault>>
        ensures { Foretells result (event_move from.now to.now self.now) }
    {
        let found = self.find(from)?;
        let room = MOST_BYTES - self.size + found.bytes;
        let free = self.room_behind(from, to, room, found.bytes);
        match room_left(free, to.parts(), found.value) {
            Ok(_) => Some(Ok(())),
            Err(fault) => Some(Err(fault)),
        }
    }

    fn find(&self, path: &Path) -> Option<FoundValue<'_>>
        ensures { FindsAt result (event_take path.now self.now) self.now }
    {
        if is_whole_meta(path) {
            let bytes = size_of(&self.meta) - 5;
            return Some(FoundValue {
                value: &self.meta,
                bytes,
            });
        }
        find(self.object_at(path), path.parts())
    }

    // The one of the two objects that the path leads into.
    fn object_at(&self, path: &Path) -> &Value
        ensures same { result.now ≡ object_of path.now self.now }
        ensures valid { IsEvent self.now }
    {
        if path.is_meta() {
            &self.meta
        } else {
            &self.fields
        }
    }

    // The room at one path once what stands at another was taken, which frees so many bytes: there
    // is then `room` beside all that is left.
    fn room_behind(&self, from: &Path, to: &Path, room: u64, freed: u64) -> Option<Option<u64>>
        requires room { room ≤ 16777220 }
        requires freed { freed ≤ room }
        ensures { (taken : Tree) (left : Ev) → event_take from.now self.now ≡ Some (taken, left)
            → event_size left + freed ≡ event_size self.now
            → result ≡ room_at_end room to.now.parts (object_of to.now left) }
    {
        let target = self.object_at(to);
        if from.is_meta() != to.is_meta() {
            return room_at(target, to.parts(), room);
        }
        if is_whole_meta(from) {
            let empty = Value::Object(Fields::new(self.alloc));
            return room_at(&empty, to.parts(), room);
        }
        room_behind(target, from.parts(), to.parts(), room, freed)
    }

    fn take_fields(&mut self, parts: &[Text]) -> Option<Value>
        ensures { TakesFrom result with_fields parts.now self.old.fields self.old self.new }
    {
        match take_in(&mut self.fields, parts) {
            Some(cut) => {
                self.size = size_without(&cut.value, self.size) - cut.key_size;
                Some(cut.value)
            }
            None => None,
        }
    }

    fn take_meta(&mut self, parts: &[Text]) -> Option<Value>
        ensures { TakesFrom result with_meta parts.now self.old.meta self.old self.new }
    {
        match take_in(&mut self.meta, parts) {
            Some(cut) => {
                self.size = size_without(&cut.value, self.size) - cut.key_size;
                Some(cut.value)
            }
            None => None,
        }
    }

    fn take_whole_meta(&mut self) -> Value
        ensures taken { result ≡ self.old.meta }
        ensures left { self.new ≡ with_meta self.old (v.Object []) }
    {
        let empty = Value::Object(Fields::new(self.alloc));
        let meta = mem::replace(&mut self.meta, empty);
        self.size = size_without(&meta, self.size + 1) + 4;
        meta
    }

    /// The same event again. It takes time in proportion to the size of the event.
    pub fn copy(&self) -> Result<Event, AllocError>
        ensures { IfOk result (λ copy. copy ≡ self.now) }
    {
        Ok(Event {
            fields: self.fields.copy()?,
            meta: self.meta.copy()?,
            size: self.size,
            alloc: self.alloc,
        })
    }
}

impl Event {
    /// Whether two events are equal.
    pub fn same(&self, other: &Event) -> bool
        ensures { IsTrue result ↔ (self.now ≡ other.now) }
    {
        self.fields.same(&other.fields) && self.meta.same(&other.meta)
    }
}

fn is_whole_meta(path: &Path) -> bool
    ensures { result ≡ (path.now.meta && (length path.now.parts == 0)) }
{
    path.is_meta() && path.parts().is_empty()
}
