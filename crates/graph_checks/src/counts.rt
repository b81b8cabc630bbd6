// How many plugins of each name there are, and whether so many boxes are left.
ghost use Rattle.std.specs.Prelude.{◌≡◌, ◌*◌, [], OnOk};
ghost use Rattle.graph_checks.specs.Answers.{Gives};
ghost use Rattle.graph_checks.specs.Boxes as spec;
ghost use Rattle.graph_checks.specs.Whole.{spare_checked, spares_checked};

use crate::fault::GraphFault;
use foreign_parts::{BoxKind, Boxes};
use indexmap::IndexMap;
use plain_data::Text;
use std::alloc::{AllocError, Global};
use std::marker::Model;

/// Names, each with how many plugins of it were met so far, in the order in which they were met.
#[derive(Drop)]
pub(crate) struct Counts {
    names: IndexMap<Text, u64>,
}

impl Model for Counts {
    ghost use Rattle.std.specs.Prelude.{List, ℕ};

    ghost Value = { List (List ℕ × ℕ) };

    ghost view = { λ counts. counts.names.entries };
}

impl Counts {
    pub(crate) fn new(alloc: Global) -> Counts
        ensures { result ≡ [] }
    {
        Counts {
            names: IndexMap::new(alloc),
        }
    }

    /// How many plugins of a name were met.
    pub(crate) fn count(&self, name: &Text) -> u64
        ensures { result ≡ spec.count_of name.now self.now }
    {
        match self.names.get(name) {
            Some(count) => *count,
            None => 0,
        }
    }

    /// Meets one more. A count that 64 bits don't hold is told as want of memory.
    pub(crate) fn raise(&mut self, name: &Text) -> Result<(), AllocError>
        ensures { OnOk result (self.new ≡ spec.one_more name.now self.old) }
    {
        let count = self.count(name).checked_add(1).ok_or(AllocError)?;
        self.names.insert(name.copy()?, count)?;
        Ok(())
    }

    /// Sees whether enough boxes are left of each name, whose plugins want so many each.
    pub(crate) fn check_spares<B: Boxes>(
        &self,
        boxes: &B,
        kind: BoxKind,
        each: u64,
    ) -> Result<(), GraphFault>
        ensures { Gives result (spares_checked (B.stand boxes.now kind) each self.now) }
    {
        check_each(boxes, kind, each, &self.names)
    }
}

fn check_each<B: Boxes>(
    boxes: &B,
    kind: BoxKind,
    each: u64,
    names: &IndexMap<Text, u64>,
) -> Result<(), GraphFault>
    ensures { Gives result (spares_checked (B.stand boxes.now kind) each names.now.entries) }
{
    for (name, count) in names {
        check_spare(boxes, kind, name, *count, each)?;
    }
    Ok(())
}

fn check_spare<B: Boxes>(
    boxes: &B,
    kind: BoxKind,
    name: &Text,
    count: u64,
    each: u64,
) -> Result<(), GraphFault>
    ensures { Gives result (spare_checked (B.stand boxes.now kind) name.now (count * each)) }
{
    let wanted = count.checked_mul(each).ok_or(AllocError)?;
    let left = boxes.left(kind, name.as_str()) as u64;
    if left < wanted {
        Err(GraphFault::NoSpare(name.copy()?, wanted, left))
    } else {
        Ok(())
    }
}
