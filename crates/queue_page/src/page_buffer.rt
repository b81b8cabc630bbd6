// A part of a file that is held in memory, so that elements are read from it one behind the other.
ghost use Rattle.std.specs.Prelude.{◌≡◌, ◌≤◌, ◌+◌, ℕ, [], length, vec_len, IsTrue, List, OnOk, IfOk, IfErr, Err};
ghost use Rattle.io_traits.specs.Counts.{HasCause};
ghost use Rattle.io_traits.specs.Calls.{ChangesNothing};
ghost use Rattle.queue_page.specs.Answers.{IsNoMisfit};
ghost use Rattle.queue_page.specs.Blocks.{IsPart, IsFront, OnFile, left_of, window_of};
ghost use Rattle.queue_page.specs.declared.fault.RowFault.TheVariants as r;

use crate::fault::RowFault;
use io_traits::Store;
use std::alloc::{AllocError, Global};
use std::marker::Model;

/// How many bytes of a page are read at once, at least, while rows are read in order: 64 KiB.
pub const BLOCK_LEN: usize = 65_536;

/// A part of a file that is held in memory: bytes from a place on, as many of the room as are held.
#[derive(Drop)]
pub struct PageBuffer {
    place: u64,
    held: usize,
    room: Vec<u8>,
}

impl Model for PageBuffer {
    ghost use Rattle.std.specs.Prelude.{◌≤◌, take, vec_len};
    ghost use Rattle.queue_page.specs.Views.{PageBufferView};

    ghost Value = { PageBufferView };

    ghost view = { λ block. record {
      place = block.place;
      bytes = take block.held block.room.items;
    } };

    ghost invariant = { λ block. block.held ≤ vec_len block.room };
}

impl PageBuffer {
    /// A block that holds nothing yet, with so much room, which grows to the largest element that is
    /// read.
    pub fn new(alloc: Global, room: usize) -> Result<PageBuffer, AllocError>
        ensures part { IfOk result (λ block. (file : List ℕ) → IsPart file block) }
        ensures empty { IfOk result (λ block. block ≡ record { place = 0; bytes = [] }) }
    {
        Ok(PageBuffer {
            place: 0,
            held: 0,
            room: vec![in alloc; 0; room]?,
        })
    }

    /// Whether it holds so many bytes from this place on.
    fn has(&self, place: u64, count: usize) -> bool
        ensures { IsTrue result → (self.now.place ≤ place)
            × (place + count ≤ self.now.place + length self.now.bytes) }
    {
        place >= self.place
            && count <= self.held
            && place - self.place <= (self.held - count) as u64
    }

    /// Reads bytes of a file from a place on, at least so many if the file has them, unless it holds
    /// them. No more than these are read where the room is no wider.
    pub(crate) fn fill<S: Store>(
        &mut self,
        store: &mut S,
        name: &str,
        place: u64,
        count: usize,
    ) -> Result<(), RowFault>
        ensures front { OnOk result (OnFile S.Store store.old name.now self.old
            (λ file. (end : ℕ) → place + count ≤ end → end ≤ length file
            → IsFront (left_of file place end) count (window_of self.new place end))) }
        ensures place { OnOk result ((self.new.place ≤ place)
            × (place ≤ self.new.place + length self.new.bytes)) }
        ensures part { OnFile S.Store store.old name.now self.old (λ file. IsPart file self.new) }
        ensures whole { IfErr result (λ fault. IsNoMisfit fault) }
        ensures same { ChangesNothing S.tells S.seen S.moment S.may_leave store.old store.new }
        ensures cause { HasCause (S.faults store.old) (S.faults store.new) (result ≡ Err r.Fault) }
    {
        if self.has(place, count) {
            return Ok(());
        }
        self.held = 0;
        widen(&mut self.room, count)?;
        self.held = store.read(name, place, &mut self.room)?;
        self.place = place;
        Ok(())
    }

    /// What it holds from a place on, up to another.
    pub(crate) fn window(&self, place: u64, end: u64) -> &[u8]
        requires from { self.now.place ≤ place }
        requires held { place ≤ self.now.place + length self.now.bytes }
        requires order { place ≤ end }
        ensures { result.now ≡ window_of self.now place end }
    {
        let from = (place - self.place) as usize;
        let held = &self.room[from..self.held];
        let most = end - place;
        if (held.len() as u64) <= most {
            held
        } else {
            &held[..most as usize]
        }
    }
}

/// Makes a room at least so wide.
fn widen(room: &mut Vec<u8>, count: usize) -> Result<(), AllocError>
    ensures { OnOk result (count ≤ vec_len room.new) }
{
    if room.len() < count {
        room.resize(count, 0)?;
    }
    Ok(())
}
