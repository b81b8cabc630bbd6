//! The operators of conditions.

ghost use Rattle.std.specs.Prelude.{◌≡◌, ◌∷◌, ◌++◌, [], IfOk};
ghost use Rattle.config_tree.specs.Joints as joints;

use crate::tree::Condition;
use plain_data::{Boxed, Items};
use std::alloc::{AllocError, Global};

/// The joints that bind more tightly.
#[derive(Clone, Copy, PartialEq, Eq)]
pub enum Conjunction {
    And,
    Nand,
}

/// The joints that bind less tightly.
#[derive(Clone, Copy, PartialEq, Eq)]
pub enum Disjunction {
    Or,
    Xor,
}

/// `==`, `!=`, `<`, `>`, `<=` and `>=`.
#[derive(Clone, Copy, PartialEq, Eq)]
pub enum Comparison {
    Equal,
    Unequal,
    Less,
    Greater,
    AtMost,
    AtLeast,
}

/// `=~` and `!~`.
#[derive(Clone, Copy, PartialEq, Eq)]
pub enum Matching {
    Matches,
    MatchesNot,
}

impl Condition {
    /// Two conditions with a joint between them that binds more tightly. Where the left one has such joints outside
    /// already, it goes on with one more.
    pub fn conjoined(
        alloc: Global,
        joint: Conjunction,
        left: Condition,
        right: Condition,
    ) -> Result<Condition, AllocError>
        ensures { IfOk result (λ joined. joined ≡ joints.conjoined joint left right) }
    {
        match left {
            Condition::Conjoined(first, rest) => Ok(Condition::Conjoined(
                first,
                with_conjunct(rest, joint, right)?,
            )),
            other => {
                let first = Boxed::new(alloc, other);
                let rest = with_conjunct(Items::new(alloc), joint, right)?;
                Ok(Condition::Conjoined(first?, rest))
            }
        }
    }

    /// Two conditions with a joint between them that binds less tightly. Where the left one has such joints outside
    /// already, it goes on with one more.
    pub fn disjoined(
        alloc: Global,
        joint: Disjunction,
        left: Condition,
        right: Condition,
    ) -> Result<Condition, AllocError>
        ensures { IfOk result (λ joined. joined ≡ joints.disjoined joint left right) }
    {
        match left {
            Condition::Disjoined(first, rest) => Ok(Condition::Disjoined(
                first,
                with_disjunct(rest, joint, right)?,
            )),
            other => {
                let first = Boxed::new(alloc, other);
                let rest = with_disjunct(Items::new(alloc), joint, right)?;
                Ok(Condition::Disjoined(first?, rest))
            }
        }
    }
}

// A row with one more condition behind its joint.
fn with_conjunct(
    row: Items<(Conjunction, Condition)>,
    joint: Conjunction,
    condition: Condition,
) -> Result<Items<(Conjunction, Condition)>, AllocError>
    ensures { IfOk result (λ longer. longer ≡ row ++ (joint, condition) ∷ []) }
{
    let mut longer = row;
    longer.push((joint, condition))?;
    Ok(longer)
}

fn with_disjunct(
    row: Items<(Disjunction, Condition)>,
    joint: Disjunction,
    condition: Condition,
) -> Result<Items<(Disjunction, Condition)>, AllocError>
    ensures { IfOk result (λ longer. longer ≡ row ++ (joint, condition) ∷ []) }
{
    let mut longer = row;
    longer.push((joint, condition))?;
    Ok(longer)
}
