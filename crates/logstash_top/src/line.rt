//! The line that a status has on stderr. It is written in parts, so that it takes no memory.

ghost use Rattle.std.specs.Prelude.{IsErr, OnOk};
ghost use Rattle.io_traits.specs.Counts.{HasCause};
ghost use Rattle.logstash_top.specs.Sinks.{Took, TookInPart, AllFlushed};
ghost use Rattle.logstash_top.specs.Status.{config_line, damaged_line, files_line, letters_line, named_line, placed_line, refused_line, setting_line, spare_line, whole_line, words_line, line_of};

use crate::status::Status;
use crate::text_parts::write_parts;
use config_parse::ConfigFault;
use config_tree::SettingFault;
use graph_checks::GraphFault;
use io_traits::{Damage, Failed, Sink};
use itoa::Buffer;
use logstash_settings::WordsFault;
use plain_data::Text;

/// Writes the line of a status, if it has one, and flushes it.
pub(crate) fn tell<O: Sink>(status: &Status, stderr: &mut O) -> Result<(), Failed>
    ensures ok { OnOk result (Took O.Sink stderr.old stderr.new (line_of status.now)) }
    ensures part { TookInPart O.Sink stderr.old stderr.new (line_of status.now) }
    ensures flushed { OnOk result (AllFlushed O.Sink stderr.new) }
    ensures cause { HasCause (O.faults stderr.old) (O.faults stderr.new) (IsErr result) }
{
    write_line(status, stderr)?;
    stderr.flush()
}

fn write_line<O: Sink>(status: &Status, stderr: &mut O) -> Result<(), Failed>
    ensures ok { OnOk result (Took O.Sink stderr.old stderr.new (line_of status.now)) }
    ensures part { TookInPart O.Sink stderr.old stderr.new (line_of status.now) }
    ensures cause { HasCause (O.faults stderr.old) (O.faults stderr.new) (IsErr result) }
{
    match status {
        Status::Done => Ok(()),
        Status::BadWords(fault) => write_words_line(*fault, stderr),
        Status::WordsNotBuilt => write_parts(stderr, &["logstash: words: not built\n"]),
        Status::BadConfig(pipeline, fault) => write_config_line(pipeline.as_str(), fault, stderr),
        Status::Refused(pipeline, fault) => write_refused_line(pipeline.as_str(), fault, stderr),
        Status::NotBuilt(pipeline) => write_whole(pipeline.as_str(), ": not built\n", stderr),
        Status::StoreFault(pipeline) => write_whole(pipeline.as_str(), ": store fault\n", stderr),
        Status::InputFault(pipeline, input) => {
            write_placed(pipeline.as_str(), ": input fault ", input.as_str(), stderr)
        }
        Status::OutputFault(output) => write_parts(
            stderr,
            &["logstash: output fault ", output.as_str(), "\n"],
        ),
        Status::Damaged(pipeline, damage) => write_damaged_line(pipeline.as_str(), damage, stderr),
        Status::NoMemory => write_parts(stderr, &["logstash: no memory\n"]),
        Status::FilesFault(path) => write_files_line(path, stderr),
        Status::NumbersSpent(pipeline) => {
            write_whole(pipeline.as_str(), ": numbers spent\n", stderr)
        }
        Status::DeadLettersFull(pipeline, size, added, limit) => {
            write_letters_line(pipeline.as_str(), *size, *added, *limit, stderr)
        }
    }
}

/// Writes the line of a damaged file.
fn write_damaged_line<O: Sink>(pipeline: &str, damage: &Damage, sink: &mut O) -> Result<(), Failed>
    ensures ok { OnOk result (Took O.Sink sink.old sink.new (damaged_line pipeline.now damage.now)) }
    ensures part { TookInPart O.Sink sink.old sink.new (damaged_line pipeline.now damage.now) }
    ensures cause { HasCause (O.faults sink.old) (O.faults sink.new) (IsErr result) }
{
    let mut place = Buffer::new();
    let mut found = Buffer::new();
    let mut expected = Buffer::new();
    write_parts(
        sink,
        &[
            "logstash: pipeline ",
            pipeline,
            ": damaged ",
            damage.file.as_str(),
            " at ",
            place.format(damage.place),
            ": found ",
            found.format(damage.found),
            ", expected ",
            expected.format(damage.expected),
            "\n",
        ],
    )
}

/// Writes the line of a configuration whose text isn't there.
fn write_files_line<O: Sink>(path: &Option<Text>, sink: &mut O) -> Result<(), Failed>
    ensures ok { OnOk result (Took O.Sink sink.old sink.new (files_line path.now)) }
    ensures part { TookInPart O.Sink sink.old sink.new (files_line path.now) }
    ensures cause { HasCause (O.faults sink.old) (O.faults sink.new) (IsErr result) }
{
    match path {
        Some(path) => write_parts(sink, &["logstash: no file ", path.as_str(), "\n"]),
        None => write_parts(sink, &["logstash: files fault\n"]),
    }
}

/// Writes the line of dead letters that have no room.
fn write_letters_line<O: Sink>(
    pipeline: &str,
    size: u128,
    added: u128,
    limit: u64,
    sink: &mut O,
) -> Result<(), Failed>
    ensures ok { OnOk result (Took O.Sink sink.old sink.new
        (letters_line pipeline.now size added limit)) }
    ensures part { TookInPart O.Sink sink.old sink.new
        (letters_line pipeline.now size added limit) }
    ensures cause { HasCause (O.faults sink.old) (O.faults sink.new) (IsErr result) }
{
    let mut had = Buffer::new();
    let mut more = Buffer::new();
    let mut most = Buffer::new();
    write_parts(
        sink,
        &[
            "logstash: pipeline ",
            pipeline,
            ": dead letters full: ",
            had.format(size),
            " and ",
            more.format(added),
            " over ",
            most.format(limit),
            "\n",
        ],
    )
}

/// Writes the line of refused words.
fn write_words_line<O: Sink>(fault: WordsFault, sink: &mut O) -> Result<(), Failed>
    ensures ok { OnOk result (Took O.Sink sink.old sink.new (words_line fault)) }
    ensures part { TookInPart O.Sink sink.old sink.new (words_line fault) }
    ensures cause { HasCause (O.faults sink.old) (O.faults sink.new) (IsErr result) }
{
    match fault {
        WordsFault::Unread => write_parts(sink, &["logstash: words: unread\n"]),
        WordsFault::Both => write_parts(sink, &["logstash: words: both\n"]),
        WordsFault::Range(option) => write_parts(
            sink,
            &["logstash: words: range ", option.as_str(), "\n"],
        ),
        WordsFault::Apart => write_parts(sink, &["logstash: words: apart\n"]),
        WordsFault::Memory => write_parts(sink, &["logstash: words: out of memory\n"]),
    }
}

/// Writes the line of a text that is no configuration.
fn write_config_line<O: Sink>(
    pipeline: &str,
    fault: &ConfigFault,
    sink: &mut O,
) -> Result<(), Failed>
    ensures ok { OnOk result (Took O.Sink sink.old sink.new (config_line pipeline.now fault.now)) }
    ensures part { TookInPart O.Sink sink.old sink.new (config_line pipeline.now fault.now) }
    ensures cause { HasCause (O.faults sink.old) (O.faults sink.new) (IsErr result) }
{
    let mut buffer = Buffer::new();
    match fault {
        ConfigFault::Long => write_parts(sink, &["logstash: pipeline ", pipeline, ": long\n"]),
        ConfigFault::Syntax(at) => {
            write_placed(pipeline, ": syntax at ", buffer.format(*at), sink)
        }
        ConfigFault::Deep(at) => write_placed(pipeline, ": deep at ", buffer.format(*at), sink),
        ConfigFault::Memory => write_parts(sink, &["logstash: no memory\n"]),
    }
}

/// Writes the line of a configuration that fails a check.
fn write_refused_line<O: Sink>(
    pipeline: &str,
    fault: &GraphFault,
    sink: &mut O,
) -> Result<(), Failed>
    ensures ok { OnOk result (Took O.Sink sink.old sink.new (refused_line pipeline.now fault.now)) }
    ensures part { TookInPart O.Sink sink.old sink.new (refused_line pipeline.now fault.now) }
    ensures cause { HasCause (O.faults sink.old) (O.faults sink.new) (IsErr result) }
{
    match fault {
        GraphFault::UnknownPlugin(name) => {
            write_placed(pipeline, ": unknown plugin ", name.as_str(), sink)
        }
        GraphFault::Setting(id, fault) => write_setting_line(pipeline, id.as_str(), fault, sink),
        GraphFault::TwiceId(id) => write_placed(pipeline, ": twice id ", id.as_str(), sink),
        GraphFault::TwicePath(path) => write_placed(pipeline, ": twice path ", path.as_str(), sink),
        GraphFault::TwiceAddress(address) => {
            write_placed(pipeline, ": twice address ", address.as_str(), sink)
        }
        GraphFault::TwiceStdin => write_whole(pipeline, ": twice stdin\n", sink),
        GraphFault::PathLong(path) => write_placed(pipeline, ": path long ", path.as_str(), sink),
        GraphFault::NoInput => write_whole(pipeline, ": no input\n", sink),
        GraphFault::NoOutput => write_whole(pipeline, ": no output\n", sink),
        GraphFault::NoSpare(name, wanted, left) => {
            write_spare_line(pipeline, name.as_str(), *wanted, *left, sink)
        }
        GraphFault::Memory => write_parts(sink, &["logstash: no memory\n"]),
    }
}

/// Writes the line of a setting that is refused.
fn write_setting_line<O: Sink>(
    pipeline: &str,
    id: &str,
    fault: &SettingFault,
    sink: &mut O,
) -> Result<(), Failed>
    ensures ok { OnOk result (Took O.Sink sink.old sink.new
        (setting_line pipeline.now id.now fault.now)) }
    ensures part { TookInPart O.Sink sink.old sink.new
        (setting_line pipeline.now id.now fault.now) }
    ensures cause { HasCause (O.faults sink.old) (O.faults sink.new) (IsErr result) }
{
    match fault {
        SettingFault::Missing(name) => write_named(pipeline, id, ": missing ", name.as_str(), sink),
        SettingFault::Unknown(name) => write_named(pipeline, id, ": unknown ", name.as_str(), sink),
        SettingFault::WrongKind(name) => {
            write_named(pipeline, id, ": wrong kind ", name.as_str(), sink)
        }
        SettingFault::BadPattern(name) => {
            write_named(pipeline, id, ": bad pattern ", name.as_str(), sink)
        }
    }
}

/// Writes the line of a text that is refused at a place.
fn write_placed<'a, O: Sink>(
    pipeline: &'a str,
    reason: &'a str,
    place: &'a str,
    sink: &mut O,
) -> Result<(), Failed>
    ensures ok { let line = placed_line pipeline.now reason.now place.now in
        OnOk result (Took O.Sink sink.old sink.new line) }
    ensures part { let line = placed_line pipeline.now reason.now place.now in
        TookInPart O.Sink sink.old sink.new line }
    ensures cause { HasCause (O.faults sink.old) (O.faults sink.new) (IsErr result) }
{
    write_parts(
        sink,
        &["logstash: pipeline ", pipeline, reason, place, "\n"],
    )
}

/// Writes the line of a setting that is refused for a reason.
fn write_named<'a, O: Sink>(
    pipeline: &'a str,
    id: &'a str,
    reason: &'a str,
    name: &'a str,
    sink: &mut O,
) -> Result<(), Failed>
    ensures ok { let line = named_line pipeline.now id.now reason.now name.now in
        OnOk result (Took O.Sink sink.old sink.new line) }
    ensures part { let line = named_line pipeline.now id.now reason.now name.now in
        TookInPart O.Sink sink.old sink.new line }
    ensures cause { HasCause (O.faults sink.old) (O.faults sink.new) (IsErr result) }
{
    write_parts(
        sink,
        &[
            "logstash: pipeline ",
            pipeline,
            ": ",
            id,
            reason,
            name,
            "\n",
        ],
    )
}

/// Writes the line of a configuration that is refused as a whole.
fn write_whole<'a, O: Sink>(pipeline: &'a str, reason: &'a str, sink: &mut O) -> Result<(), Failed>
    ensures ok { OnOk result (Took O.Sink sink.old sink.new (whole_line pipeline.now reason.now)) }
    ensures part { TookInPart O.Sink sink.old sink.new (whole_line pipeline.now reason.now) }
    ensures cause { HasCause (O.faults sink.old) (O.faults sink.new) (IsErr result) }
{
    write_parts(sink, &["logstash: pipeline ", pipeline, reason])
}

/// Writes the line of a name of which fewer boxes are left than are wanted.
fn write_spare_line<O: Sink>(
    pipeline: &str,
    name: &str,
    wanted: u64,
    left: u64,
    sink: &mut O,
) -> Result<(), Failed>
    ensures ok { OnOk result (Took O.Sink sink.old sink.new
        (spare_line pipeline.now name.now wanted left)) }
    ensures part { TookInPart O.Sink sink.old sink.new
        (spare_line pipeline.now name.now wanted left) }
    ensures cause { HasCause (O.faults sink.old) (O.faults sink.new) (IsErr result) }
{
    let mut more = Buffer::new();
    let mut fewer = Buffer::new();
    write_parts(
        sink,
        &[
            "logstash: pipeline ",
            pipeline,
            ": no spare ",
            name,
            ": ",
            more.format(wanted),
            " wanted, ",
            fewer.format(left),
            " left\n",
        ],
    )
}
