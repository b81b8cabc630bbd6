//! What the tokens so far say on how the next is read.

/// The state between two tokens.
#[derive(Clone, Copy)]
pub struct Context {
    /// Between the `if` of a branch and the `{` behind its condition.
    pub in_condition: bool,
    /// Just behind `{`, `}` or `else`, where the word `if` begins a branch.
    pub at_branch: bool,
    /// In a condition, where an operand may stand.
    pub at_operand: bool,
}
