// Putting the steps of a branch's blocks together, with the numbers of steps that are skipped.
ghost use Rattle.std.specs.Prelude.{◌≡◌, ◌+◌, ◌++◌, [], IfOk, OnOk, reverse};
ghost use Rattle.event_flow.specs.Laying as spec;
ghost use Rattle.event_flow.specs.Laying.{assembled};

use crate::block::Block;
use crate::step::FlowStep;
use plain_data::Items;
use std::alloc::{AllocError, Global};

/// The sum. One that no number of 64 bits holds is told as want of memory: no list is as long.
pub(crate) fn more(number: u64, by: u64) -> Result<u64, AllocError>
    ensures { IfOk result (λ sum. sum ≡ number + by) }
{
    match number.checked_add(by) {
        Some(sum) => Ok(sum),
        None => Err(AllocError),
    }
}

/// The steps of a branch, of the blocks of its arms. They are put together from the last on, so
/// that each step is moved three times at most.
pub(crate) fn assemble(alloc: Global, blocks: Items<Block>) -> Result<Items<FlowStep>, AllocError>
    ensures { IfOk result (λ steps. steps ≡ assembled blocks []) }
{
    let mut back = Items::new(alloc);
    let mut left = blocks;
    while let Some(block) = left.pop() {
        put_block(&mut back, block)?;
    }
    let mut steps = back.into_vec();
    steps.reverse();
    Ok(Items::from_vec(steps))
}

// A block in front of the arms behind it, from its end on.
fn put_block(back: &mut Items<FlowStep>, block: Block) -> Result<(), AllocError>
    ensures { OnOk result (reverse back.new ≡ spec.with_block block (reverse back.old)) }
{
    let Block { condition, steps } = block;
    let length = steps.len() as u64;
    let over = close(back, length)?;
    put_back(back, steps)?;
    if let Some(number) = condition {
        back.push(FlowStep::Test(number, over))?;
    }
    Ok(())
}

// Where there are arms behind a block of so many steps, its end passes over them. The answer is how
// many steps are passed over where its condition is No.
fn close(back: &mut Items<FlowStep>, length: u64) -> Result<u64, AllocError>
    ensures { IfOk result (λ over. over ≡ spec.behind_block length (reverse back.old)
        × (reverse back.new ≡ spec.closing (reverse back.old))) }
{
    if back.is_empty() {
        return Ok(length);
    }
    back.push(FlowStep::Skip(back.len() as u64))?;
    more(length, 1)
}

fn put_back(back: &mut Items<FlowStep>, steps: Items<FlowStep>) -> Result<(), AllocError>
    ensures { OnOk result (back.new ≡ back.old ++ reverse steps) }
{
    let mut steps = steps.into_vec();
    steps.reverse();
    back.append(Items::from_vec(steps))
}
