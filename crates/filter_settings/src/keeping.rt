// Keeping what was read of a setting, or handing its fault on.
ghost use Rattle.std.specs.Prelude.{◌≡◌, ℕ, List, Option, Some, IfOk, OnErr};
ghost use Rattle.filter_settings.specs.Settings.{Assigned, Gives, read_as, wanted};

use config_tree::FromFault;
use std::alloc::AllocError;

/// Puts what was read in the place of what stood there, or hands the fault on, and then the place is as
/// it was.
pub fn assign<T: Drop>(to: &mut T, read: Result<T, FromFault>) -> Result<(), FromFault>
    ensures assigned { Assigned result read to.new }
    ensures kept { OnErr result (to.new ≡ to.old) }
{
    *to = read?;
    Ok(())
}

/// The same of what may be missing, and now is there.
pub fn assign_some<T: Drop>(to: &mut Option<T>, read: Result<T, FromFault>) -> Result<(), FromFault>
    ensures assigned { Assigned result (read_as Some read) to.new }
    ensures kept { OnErr result (to.new ≡ to.old) }
{
    *to = Some(read?);
    Ok(())
}

/// The fault of what is read and not kept.
pub fn not_kept<T: Drop>(read: Result<T, FromFault>) -> Result<(), FromFault>
    ensures { result ≡ read_as (λ _. tt) read }
{
    match read {
        Ok(_) => Ok(()),
        Err(fault) => Err(fault),
    }
}

/// What was read, and nothing where it was refused.
pub fn unless_refused<T: Drop>(read: Result<T, FromFault>) -> Result<Option<T>, AllocError>
    ensures { (name : List ℕ) (said : Option T) → Gives read (wanted name said)
        → IfOk result (λ found. found ≡ said) }
{
    match read {
        Ok(read) => Ok(Some(read)),
        Err(FromFault::Bad(_)) => Ok(None),
        Err(FromFault::Memory) => Err(AllocError),
    }
}
