// Writing the parts of a text to a sink without memory.
ghost use Rattle.std.specs.Prelude.{IsErr, OnOk};
ghost use Rattle.io_traits.specs.Counts.{HasCause};
ghost use Rattle.logstash_top.specs.Parts.{parts_text};
ghost use Rattle.logstash_top.specs.Sinks.{Took, TookInPart};

use io_traits::{Failed, Sink, write_all};

/// Writes the parts of a text, one after another, and takes no memory for that.
pub(crate) fn write_parts<O: Sink>(sink: &mut O, parts: &[&str]) -> Result<(), Failed>
    ensures ok { OnOk result (Took O.Sink sink.old sink.new (parts_text parts.now)) }
    ensures part { TookInPart O.Sink sink.old sink.new (parts_text parts.now) }
    ensures cause { HasCause (O.faults sink.old) (O.faults sink.new) (IsErr result) }
{
    for part in parts {
        match write_all(sink, part.as_bytes()) {
            Ok(()) => {}
            Err(failed) => return Err(failed),
        }
    }
    Ok(())
}
