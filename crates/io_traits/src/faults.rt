// The errors of calls of the outside.
ghost use Rattle.std.specs.Prelude.{◌≡◌};

/// A call of the outside failed, and the count of its object's faults rose in that call.
#[derive(Clone, Copy, PartialEq, Eq)]
pub struct Failed;

/// Why the names in a folder were not listed.
#[derive(Clone, Copy)]
pub enum ListFault {
    /// The call failed, and the count of its object's faults rose in that call.
    Failed,
    /// There was no memory for the names.
    Memory,
}

impl From<Failed> for ListFault {
    ghost use Rattle.io_traits.specs.declared.faults.ListFault.{ListFault};

    ghost from_gives = { λ _ fault. fault ≡ ListFault.Failed };

    fn from(_failed: Failed) -> ListFault {
        ListFault::Failed
    }
}
