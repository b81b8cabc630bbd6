// What the tools print.
ghost use Rattle.std.specs.Prelude.{◌≡◌, IfOk, IsErr, OnOk, string_bytes};
ghost use Rattle.io_traits.specs.Counts.{HasCause};
ghost use Rattle.io_traits.specs.Telling.{Grows, GrowsInPart, IsFlushed};
ghost use Rattle.pq_tools.specs.Statuses as spec;

use crate::status::ToolStatus;
use io_traits::{Failed, Sink, write_all};
use std::alloc::{AllocError, Global};

/// The line that says how many rows a queue has.
pub(crate) fn rows_line(alloc: Global, count: u64) -> Result<String, AllocError>
    ensures { IfOk result (λ line. string_bytes line ≡ spec.rows_line count) }
{
    format!(in alloc; "rows {count}\n")
}

/// The line of a status.
pub(crate) fn status_line(alloc: Global, status: &ToolStatus) -> Result<String, AllocError>
    ensures { IfOk result (λ line. string_bytes line ≡ spec.status_line status.now) }
{
    format!(in alloc; "logstash: {status}\n")
}

/// Writes a line, and flushes it.
pub(crate) fn print<O: Sink>(line: &str, out: &mut O) -> Result<(), Failed>
    ensures ok { OnOk result (Grows (O.taken out.old) (O.taken out.new) line.now) }
    ensures flushed { OnOk result (IsFlushed (O.taken out.new) (O.flushed out.new)) }
    ensures part { GrowsInPart (O.taken out.old) (O.taken out.new) line.now }
    ensures cause { HasCause (O.faults out.old) (O.faults out.new) (IsErr result) }
{
    write_all(out, line.as_bytes())?;
    out.flush()
}
