//! The text of a configuration, by its source.

ghost use Rattle.std.specs.Prelude.{◌≡◌, ◌⊎◌, Err, IsTrue, IfOk, IfErr, OnOk, take};
ghost use Rattle.io_traits.specs.Counts.{HasCause, one_more};
ghost use Rattle.io_traits.specs.Reads.{bytes_of};
ghost use Rattle.logstash_top.specs.Texts as spec;
ghost use Rattle.logstash_top.specs.Texts.{IsMissing, IsUnread, IsPathText, IsSourceText, file_shown, files_behind};

use crate::named_files::named_paths;
use byte_lines::text_of_bytes;
use io_traits::{Failed, Files, ListFault};
use plain_data::Text;
use settings_lines::ConfigSource;
use std::alloc::{AllocError, Global};

/// How many bytes of the files of a configuration are read at most: one more than a configuration may have.
const READ_LIMIT: usize = 1_048_577;

/// Why there is no text.
#[derive(Drop)]
pub(crate) enum TextFault {
    /// There is no file of this path, or none that this pattern names.
    NoFile(Text),
    /// A call of the files failed.
    Failed,
    /// Memory ran out.
    Memory,
}

impl From<AllocError> for TextFault {
    ghost use Rattle.logstash_top.specs.declared.config_files.TextFault.TheVariants.{Memory};

    ghost from_gives = { λ _ fault. fault ≡ Memory };

    fn from(_error: AllocError) -> TextFault {
        TextFault::Memory
    }
}

impl From<Failed> for TextFault {
    ghost use Rattle.logstash_top.specs.declared.config_files.TextFault.TheVariants.{Failed};

    ghost from_gives = { λ _ fault. fault ≡ Failed };

    fn from(_failed: Failed) -> TextFault {
        TextFault::Failed
    }
}

/// The text of a source: that of the words, or of the files that a path names.
pub(crate) fn text_of_source<P: Files>(
    alloc: Global,
    source: &ConfigSource,
    files: &mut P,
) -> Result<Text, TextFault>
    ensures { (result ≡ Err TextFault.Memory)
        ⊎ IsSourceText P.Files source.now files.old files.new result }
{
    match source {
        ConfigSource::Text(text) => Ok(text.copy()?),
        ConfigSource::Path(path) => text_of_path(alloc, files, path.as_str()),
        ConfigSource::Sample(_) | ConfigSource::Pipelines => Err(TextFault::Memory),
    }
}

/// The text of the files that a path names, one behind another with a line feed between them. In its last part `*` stands
/// for any bytes. Of more bytes than a configuration may have so many are read, and one more.
fn text_of_path<P: Files>(alloc: Global, files: &mut P, path: &str) -> Result<Text, TextFault>
    ensures { IsPathText P.Files path.now files.old files.new result }
{
    let paths = match named_paths(alloc, files, path) {
        Ok(paths) => paths,
        Err(ListFault::Failed) => return Err(TextFault::Failed),
        Err(ListFault::Memory) => return Err(TextFault::Memory),
    };
    let bytes = match paths.as_slice() {
        [first, others @ ..] => match bytes_of_files(alloc, files, first.as_str(), others) {
            Ok(bytes) => bytes,
            Err(fault) => return Err(fault),
        },
        [] => return Err(no_file(alloc, path)),
    };
    Ok(Text::from_string(text_of_bytes(alloc, &bytes)?))
}

/// The bytes of files, one behind another with a line feed between them.
fn bytes_of_files<P: Files>(
    alloc: Global,
    files: &mut P,
    first: &str,
    others: &[Text],
) -> Result<Vec<u8>, TextFault>
    ensures read { IfOk result (λ bytes. IsTrue P.tells
        → spec.bytes_shown (P.shows files.old) (P.calls files.old) first.now others.now
        ≡ Ok bytes.items) }
    ensures missing { IfErr result (λ fault. IsTrue P.tells
        → IsMissing (spec.bytes_shown (P.shows files.old) (P.calls files.old) first.now others.now)
        fault) }
    ensures cause { HasCause (P.faults files.old) (P.faults files.new)
        (result ≡ Err TextFault.Failed) }
{
    let mut bytes = read_file(alloc, files, first)?;
    add_files(alloc, files, others, &mut bytes)?;
    Ok(bytes)
}

// Adds the bytes of files, each behind a line feed.
fn add_files<P: Files>(
    alloc: Global,
    files: &mut P,
    paths: &[Text],
    bytes: &mut Vec<u8>,
) -> Result<(), TextFault>
    ensures read { OnOk result (IsTrue P.tells
        → files_behind (P.shows files.old) bytes.old.items (P.calls files.old) paths.now
        ≡ Ok bytes.new.items) }
    ensures missing { IfErr result (λ fault. IsTrue P.tells
        → IsMissing (files_behind (P.shows files.old) bytes.old.items (P.calls files.old) paths.now)
        fault) }
    ensures cause { HasCause (P.faults files.old) (P.faults files.new)
        (result ≡ Err TextFault.Failed) }
{
    for path in paths {
        match add_file(alloc, files, path.as_str(), bytes) {
            Ok(()) => {}
            Err(fault) => return Err(fault),
        }
    }
    Ok(())
}

fn add_file<P: Files>(
    alloc: Global,
    files: &mut P,
    path: &str,
    bytes: &mut Vec<u8>,
) -> Result<(), TextFault>
    ensures read { OnOk result (IsTrue P.tells
        → spec.with_file bytes.old.items (file_shown (P.shows files.old) (P.calls files.old) path.now)
        ≡ Ok bytes.new.items) }
    ensures missing { IfErr result (λ fault. IsTrue P.tells
        → IsMissing (file_shown (P.shows files.old) (P.calls files.old) path.now) fault) }
    ensures calls { OnOk result (P.calls files.new ≡ one_more (one_more (P.calls files.old))) }
    ensures same { IsTrue P.tells → P.shows files.new ≡ P.shows files.old }
    ensures cause { HasCause (P.faults files.old) (P.faults files.new)
        (result ≡ Err TextFault.Failed) }
{
    let more = read_file(alloc, files, path)?;
    add_bytes(bytes, b"\n")?;
    add_bytes(bytes, &more)?;
    Ok(())
}

// Adds bytes, up to the limit.
fn add_bytes(bytes: &mut Vec<u8>, more: &[u8]) -> Result<(), AllocError>
    ensures { OnOk result (bytes.new.items ≡ spec.joined bytes.old.items more.now) }
{
    bytes.extend_from_slice(more)?;
    bytes.truncate(READ_LIMIT);
    Ok(())
}

// The bytes of a file, up to the limit.
fn read_file<P: Files>(alloc: Global, files: &mut P, path: &str) -> Result<Vec<u8>, TextFault>
    ensures read { IfOk result (λ bytes. IsTrue P.tells
        → file_shown (P.shows files.old) (P.calls files.old) path.now ≡ Ok bytes.items) }
    ensures missing { IfErr result (λ fault. IsTrue P.tells
        → IsMissing (file_shown (P.shows files.old) (P.calls files.old) path.now) fault) }
    ensures calls { IfOk result
        (λ _. P.calls files.new ≡ one_more (one_more (P.calls files.old))) }
    ensures same { IsTrue P.tells → P.shows files.new ≡ P.shows files.old }
    ensures cause { HasCause (P.faults files.old) (P.faults files.new)
        (result ≡ Err TextFault.Failed) }
{
    match files.length(path) {
        Ok(Some(_)) => read_front(alloc, files, path, READ_LIMIT),
        Ok(None) => Err(no_file(alloc, path)),
        Err(_) => Err(TextFault::Failed),
    }
}

// The first bytes of a file that is there.
fn read_front<P: Files>(
    alloc: Global,
    files: &mut P,
    path: &str,
    size: usize,
) -> Result<Vec<u8>, TextFault>
    ensures read { IfOk result (λ bytes. IsTrue P.tells
        → bytes.items ≡ take size (bytes_of (P.shows files.old (P.calls files.old) path.now))) }
    ensures there { IfErr result (λ fault. IsUnread fault) }
    ensures calls { IfOk result (λ _. P.calls files.new ≡ one_more (P.calls files.old)) }
    ensures same { IsTrue P.tells → P.shows files.new ≡ P.shows files.old }
    ensures cause { HasCause (P.faults files.old) (P.faults files.new)
        (result ≡ Err TextFault.Failed) }
{
    let mut bytes = vec![in alloc; 0; size]?;
    let count = files.read(path, 0, &mut bytes)?;
    bytes.truncate(count);
    Ok(bytes)
}

fn no_file(alloc: Global, path: &str) -> TextFault
    ensures { (result ≡ TextFault.NoFile path.now) ⊎ (result ≡ TextFault.Memory) }
{
    match Text::of(alloc, path) {
        Ok(path) => TextFault::NoFile(path),
        Err(_) => TextFault::Memory,
    }
}
