// A source that a worker in a thread of its own reads, so that a read here never waits.
ghost use Rattle.std.specs.Prelude.{◌≡◌, ◌≤◌, ◌<◌, None, Ok, length};
ghost use Rattle.io_traits.specs.Pieces.{IfBytes};

use batch_shop::{Shop, Task, ThreadShop};
use io_traits::{Failed, Source, Step};
use std::alloc::{AllocError, Global};

/// How many bytes one read asks for at most.
const BLOCK_LEN: usize = 65_536;

/// A read of a source, with the room for what comes.
#[derive(Drop)]
pub struct BlockRead<I> {
    input: I,
    room: Vec<u8>,
    ghost some: { 0 < length room.items },
}

/// What a read found. Its bytes stand in the front of the room.
#[derive(Drop)]
pub struct BlockDone<I> {
    input: I,
    room: Vec<u8>,
    step: Result<Step, Failed>,
    ghost some: { 0 < length room.items },
}

impl<I: Source + Drop> Task for BlockRead<I> {
    type Done = BlockDone<I>;

    ghost gives = { λ _ _. Unit {0} };

    fn work(self) -> BlockDone<I> {
        let BlockRead {
            mut input,
            mut room,
        } = self;
        let step = input.read(&mut room);
        BlockDone { input, room, step }
    }
}

/// Bytes that a read brought, from a place on, up to another.
#[derive(Drop)]
struct Block<I> {
    input: I,
    room: Vec<u8>,
    from: usize,
    to: usize,
    ghost some: { 0 < length room.items },
    ghost left: { from < to },
    ghost within: { to ≤ length room.items },
}

/// A source that a worker in a thread of its own reads, a block at a time, one ahead. Nothing is read before the first
/// read here. Where no worker was hired a read may wait.
#[derive(Drop)]
pub struct ThreadedSource<I: Source + Drop> {
    shop: ThreadShop<BlockRead<I>>,
    /// The next read, which no worker has.
    next: Option<BlockRead<I>>,
    /// What came and isn't handed on yet.
    block: Option<Block<I>>,
    ended: bool,
    faults: u64,
    waits: u64,
}

impl<I: Source + Drop> ThreadedSource<I> {
    /// A source over another one, which the workers of a shop read.
    pub fn new(
        alloc: Global,
        input: I,
        shop: ThreadShop<BlockRead<I>>,
    ) -> Result<ThreadedSource<I>, AllocError> {
        let room = vec![in alloc; 0u8; BLOCK_LEN]?;
        Ok(ThreadedSource {
            shop,
            next: Some(BlockRead { input, room }),
            block: None,
            ended: false,
            faults: 0,
            waits: 0,
        })
    }

    /// Its shop, to hire a worker.
    pub fn shop(&mut self) -> &mut ThreadShop<BlockRead<I>> {
        &mut self.shop
    }
}

impl<I: Source + Drop> ThreadedSource<I> {
    /// Hands on what came of a block, or looks for the next one.
    fn step(&mut self, into: &mut [u8]) -> Result<Step, Failed>
        ensures counts { (self.new.faults ≡ self.old.faults) × (self.new.waits ≡ self.old.waits) }
        ensures within { IfBytes result (λ n. n ≤ length into.old) }
        ensures some { IfBytes result (λ n. 0 < length into.old → 0 < n) }
    {
        if self.ended {
            return Ok(Step::End);
        }
        if self.block.is_none() {
            match self.fetch() {
                Ok(Step::Bytes(_)) => {}
                other => return without_bytes(other),
            }
        }
        match self.block.take() {
            Some(block) => Ok(self.hand_on(block, into)),
            None => Ok(Step::NotYet),
        }
    }

    /// Hands on the front of a block; where nothing of it is left the next read begins.
    fn hand_on(&mut self, block: Block<I>, into: &mut [u8]) -> Step
        ensures counts { (self.new.faults ≡ self.old.faults) × (self.new.waits ≡ self.old.waits) }
        ensures within { IfBytes (Ok result) (λ n. n ≤ length into.old) }
        ensures some { IfBytes (Ok result) (λ n. 0 < length into.old → 0 < n) }
    {
        let Block {
            input,
            room,
            from,
            to,
        } = block;
        let count = into.len().min(to - from);
        into[..count].copy_from_slice(&room[from..from + count]);
        if from + count < to {
            self.block = Some(Block {
                input,
                room,
                from: from + count,
                to,
            });
        } else {
            self.next = Some(BlockRead { input, room });
            self.begin();
        }
        Step::Bytes(count)
    }

    /// Looks for what the read that is out found, or begins one.
    fn fetch(&mut self) -> Result<Step, Failed>
        ensures counts { (self.new.faults ≡ self.old.faults) × (self.new.waits ≡ self.old.waits) }
    {
        self.begin();
        match self.shop.take() {
            Some(done) => self.settle(done),
            None => self.read_here(),
        }
    }

    /// Has the next read done by a worker, where one is there.
    fn begin(&mut self)
        ensures counts { (self.new.faults ≡ self.old.faults) × (self.new.waits ≡ self.old.waits) }
    {
        if let Some(read) = self.next.take() {
            self.next = self.shop.give(read);
        }
    }

    /// Does the next read here, where no worker has it.
    fn read_here(&mut self) -> Result<Step, Failed>
        ensures counts { (self.new.faults ≡ self.old.faults) × (self.new.waits ≡ self.old.waits) }
    {
        match self.next.take() {
            Some(read) => self.settle(read.work()),
            None => Ok(Step::NotYet),
        }
    }

    /// Keeps what a read found.
    fn settle(&mut self, done: BlockDone<I>) -> Result<Step, Failed>
        ensures counts { (self.new.faults ≡ self.old.faults) × (self.new.waits ≡ self.old.waits) }
    {
        let BlockDone { input, room, step } = done;
        match step {
            Ok(Step::Bytes(count)) if 0 < count && count <= room.len() => {
                self.block = Some(Block {
                    input,
                    room,
                    from: 0,
                    to: count,
                });
            }
            Ok(Step::End) => self.ended = true,
            _ => self.next = Some(BlockRead { input, room }),
        }
        step
    }
}

/// What a read found that brought nothing.
fn without_bytes(step: Result<Step, Failed>) -> Result<Step, Failed>
    ensures within { IfBytes result (λ n. ⊥) }
{
    match step {
        Ok(Step::End) => Ok(Step::End),
        Err(failed) => Err(failed),
        _ => Ok(Step::NotYet),
    }
}

impl<I: Source + Drop> Source for ThreadedSource<I> {
    ghost given = { λ _. None };

    ghost left = { λ _. None };

    ghost faults = { λ s. s.faults };

    ghost waits = { λ s. s.waits };

    fn read(&mut self, into: &mut [u8]) -> Result<Step, Failed> {
        let step = self.step(into);
        match step {
            Err(_) => self.faults = self.faults.saturating_add(1),
            Ok(Step::NotYet) => self.waits = self.waits.saturating_add(1),
            _ => {}
        }
        step
    }
}
