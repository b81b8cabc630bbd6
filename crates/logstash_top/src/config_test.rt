// `-t`: tests a configuration and runs nothing.
ghost use Rattle.std.specs.Prelude.{◌≡◌, ◌⊎◌, IsErr, OnOk, map, string_bytes};
ghost use Rattle.io_traits.specs.Counts.{HasCause};
ghost use Rattle.foreign_parts.specs.Boxes.{Keeps};
ghost use Rattle.graph_checks.specs.Whole.{given_by};
ghost use Rattle.logstash_top.specs.Answers.{AnswersBy};
ghost use Rattle.logstash_top.specs.Outcomes.{Confirmed, MayTest, TestFaultHasCause, confirmation};
ghost use Rattle.logstash_top.specs.Sinks.{Took, TookInPart, AllFlushed, Faulted};
ghost use Rattle.logstash_top.specs.Status.{IsRefused, test_output_fault, line_of};

use crate::line::tell;
use crate::start::start;
use crate::status::Status;
use crate::text_parts::write_parts;
use graph_checks::Boxes;
use io_traits::{Failed, Files, Sink};
use plain_data::Text;
use std::alloc::Global;

/// Tests the configuration that the words of the command line name, with the boxes that the rack holds, and runs nothing.
/// Where the program runs it, stdout gets the line `Configuration OK`, which is flushed. No box is drawn.
///
/// The line of the status goes to stderr and is flushed there, unless a fault of stderr was counted; such a fault changes
/// nothing else.
///
/// - `Status::BadWords`, `Status::WordsNotBuilt`, `Status::BadConfig`, `Status::Refused` and `Status::NotBuilt` come as
///   `logstash` says, and nothing was written to stdout. No box is drawn from the rack.
/// - `Status::OutputFault` of `stdout` comes only where the count of stdout's faults rose in this call, or stands at the last
///   value of u64. At another status none was counted, unless memory for that status ran out. A first part of the line may
///   stand there.
/// - `Status::NoMemory` may come anywhere.
pub fn test_config<P: Files, O: Sink, B: Boxes>(
    alloc: Global,
    words: &[String],
    files: &mut P,
    stdout: &mut O,
    stderr: &mut O,
    boxes: &mut B,
) -> Status
    ensures answers { AnswersBy (given_by B.stand B.links boxes.old) P.Files
        (map string_bytes words.now) files.old files.new MayTest result }
    ensures keeps { Keeps B.stand B.links boxes.old boxes.new }

    // What stdout holds.
    ensures refused { IsRefused result → stdout.new ≡ stdout.old }
    ensures done { result ≡ Status.Done → Confirmed O.Sink stdout.old stdout.new }
    ensures part { TookInPart O.Sink stdout.old stdout.new confirmation }

    // When a fault comes.
    ensures output_fault { TestFaultHasCause O.Sink stdout.old stdout.new result }

    // What stderr holds.
    ensures line { TookInPart O.Sink stderr.old stderr.new (line_of result) }
    ensures told { Faulted O.Sink stderr.old stderr.new
        ⊎ Took O.Sink stderr.old stderr.new (line_of result) }
    ensures told_flushed { Faulted O.Sink stderr.old stderr.new
        ⊎ AllFlushed O.Sink stderr.new }
{
    let status = tested(alloc, words, files, stdout, boxes);
    let _ = tell(&status, stderr);
    status
}

/// The status, before its line is told.
fn tested<P: Files, O: Sink, B: Boxes>(
    alloc: Global,
    words: &[String],
    files: &mut P,
    stdout: &mut O,
    boxes: &mut B,
) -> Status
    ensures answers { AnswersBy (given_by B.stand B.links boxes.old) P.Files
        (map string_bytes words.now) files.old files.new MayTest result }
    ensures keeps { Keeps B.stand B.links boxes.old boxes.new }
    ensures refused { IsRefused result → stdout.new ≡ stdout.old }
    ensures done { result ≡ Status.Done → Confirmed O.Sink stdout.old stdout.new }
    ensures part { TookInPart O.Sink stdout.old stdout.new confirmation }
    ensures output_fault { TestFaultHasCause O.Sink stdout.old stdout.new result }
{
    match start(alloc, words, files, boxes) {
        Ok(_) => confirmed(alloc, stdout),
        Err(status) => status,
    }
}

/// The status of a configuration that passed, once its line was written.
fn confirmed<O: Sink>(alloc: Global, stdout: &mut O) -> Status
    ensures may { (result ≡ Status.Done)
        ⊎ ((result ≡ test_output_fault) ⊎ (result ≡ Status.NoMemory)) }
    ensures done { result ≡ Status.Done → Confirmed O.Sink stdout.old stdout.new }
    ensures part { TookInPart O.Sink stdout.old stdout.new confirmation }
    ensures output_fault { TestFaultHasCause O.Sink stdout.old stdout.new result }
{
    match confirm(stdout) {
        Ok(()) => Status::Done,
        Err(_) => unconfirmed(alloc),
    }
}

/// Writes the line of a configuration that passed, and flushes it.
fn confirm<O: Sink>(stdout: &mut O) -> Result<(), Failed>
    ensures ok { OnOk result (Confirmed O.Sink stdout.old stdout.new) }
    ensures part { TookInPart O.Sink stdout.old stdout.new confirmation }
    ensures cause { HasCause (O.faults stdout.old) (O.faults stdout.new) (IsErr result) }
{
    write_parts(stdout, &["Configuration OK\n"])?;
    stdout.flush()
}

/// The status of a line that stdout didn't take.
fn unconfirmed(alloc: Global) -> Status
    ensures { (result ≡ test_output_fault) ⊎ (result ≡ Status.NoMemory) }
{
    match Text::of(alloc, "stdout") {
        Ok(output) => Status::OutputFault(output),
        Err(_) => Status::NoMemory,
    }
}
