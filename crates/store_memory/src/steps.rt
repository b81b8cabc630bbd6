// The steps of calls.
ghost use Rattle.std.specs.Prelude.{OnOk, OnErr};
ghost use Rattle.io_memory.specs.Tables.{IsSame};
ghost use Rattle.store_memory.specs.Calls.{Applied, step_of};

use crate::calls::StoreCall;
use io_memory::{FileTable, append_in, cut_in, remove_in, write_in};
use std::alloc::AllocError;

/// Makes the step of a call. Where there is no memory, the files stay.
pub fn apply(files: &mut FileTable, call: &StoreCall) -> Result<(), AllocError>
    ensures ok { OnOk result (Applied (step_of call.now) files.old files.new) }
    ensures err { OnErr result (IsSame files.old files.new) }
{
    match call {
        StoreCall::Append(name, bytes) => append_in(files, name.as_str(), bytes.as_slice()),
        StoreCall::WriteAt(name, at, bytes) => write_in(
            files,
            name.as_str(),
            *at,
            bytes.as_slice(),
        ),
        StoreCall::Cut(name, length) => {
            cut_in(files, name.as_str(), *length);
            Ok(())
        }
        StoreCall::Remove(name) => {
            remove_in(files, name.as_str());
            Ok(())
        }
        _ => Ok(()),
    }
}
