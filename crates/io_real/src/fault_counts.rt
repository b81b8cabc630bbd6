// Calls that fail, and the counts of them.
ghost use Rattle.std.specs.Prelude.{◌≡◌, ◌≤◌, Ok, Err, IfOk, IsErr, is_err};
ghost use Rattle.io_traits.specs.Counts.{HasCause, Rose, one_more};
ghost use Rattle.io_real.specs.Adapters.{faults_after, faults_listed};

use io_traits::{Failed, ListFault};
use plain_data::Names;
use std::io::{self, ErrorKind};

/// Counts a fault, up to the last value of u64.
pub fn fail(faults: &mut u64) -> Failed
    ensures count { faults.new ≡ one_more faults.old }
    ensures later { faults.old ≤ faults.new }
    ensures rose { Rose faults.old faults.new }
{
    *faults = faults.saturating_add(1);
    Failed
}

/// Counts a fault where a call failed.
pub fn counted<T: Drop>(faults: &mut u64, outcome: io::Result<T>) -> Result<T, Failed>
    ensures count { faults.new ≡ faults_after faults.old result }
    ensures same { IfOk result (λ value. outcome ≡ Ok value) }
    ensures failed { is_err result ≡ is_err outcome }
    ensures cause { HasCause faults.old faults.new (IsErr result) }
{
    match outcome {
        Ok(value) => Ok(value),
        Err(_) => Err(fail(faults)),
    }
}

/// Counts a fault where a list of names failed, but for want of memory.
pub fn counted_list(faults: &mut u64, outcome: io::Result<Names>) -> Result<Names, ListFault>
    ensures count { faults.new ≡ faults_listed faults.old result }
    ensures same { IfOk result (λ names. outcome ≡ Ok names) }
    ensures failed { is_err result ≡ is_err outcome }
    ensures cause { HasCause faults.old faults.new (result ≡ Err ListFault.Failed) }
{
    match outcome {
        Ok(names) => Ok(names),
        Err(error) if error.kind() == ErrorKind::OutOfMemory => Err(ListFault::Memory),
        Err(_) => Err(ListFault::from(fail(faults))),
    }
}
