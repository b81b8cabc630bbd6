// The fields of a text that is one row of CSV (RFC 4180), read by the crate `csv`.
ghost use Rattle.std.specs.Prelude.{◌≡◌, ℕ, List, [], Some, IfOk};
ghost use Rattle.csv.specs.Machine.{next_record};
ghost use Rattle.csv.specs.Reading.{reader_config, reader_state, strip_bom};
ghost use Rattle.csv.specs.declared.parser.State.TheVariants as st;
ghost use Rattle.csv.specs.Records.{fields_of};
ghost use Rattle.filters_text.specs.Readers as readers;
ghost use Rattle.filters_text.specs.Rows as spec;

use csv::{ErrorKind, Reader, ReaderBuilder, StringRecord};
use plain_data::{Names, Text};
use std::alloc::{AllocError, Global};

/// The fields of a text that is exactly one row. None where it is no row or more than one; also where
/// a separator or a quote that is no ASCII cut a character.
///
/// It makes a reader, whose tables take some 2,048 steps, and goes through the text once.
pub fn one_row(
    alloc: Global,
    text: &str,
    separator: u8,
    quote: u8,
) -> Result<Option<Names>, AllocError>
    ensures { IfOk result (λ row. row ≡ spec.one_row separator quote text.now) }
{
    let mut reader = reader_of(alloc, text, separator, quote);
    only_row(alloc, &mut reader)
}

/// The fields of the row that a reader gives, where it gives that row alone.
fn only_row(alloc: Global, reader: &mut Reader<&[u8]>) -> Result<Option<Names>, AllocError>
    ensures { (separator quote : ℕ) (text : List ℕ)
        → readers.Stands (λ source. Some source.now) (strip_bom text) reader.old
        → reader_config reader.old ≡ spec.form separator quote
        → reader_state reader.old ≡ st.StartRecord
        → IfOk result (λ row. row ≡ spec.one_row separator quote text) }
{
    let mut row = StringRecord::new(alloc);
    match read_next(reader, &mut row)? {
        NextRow::Row => {}
        NextRow::NoText | NextRow::End => return Ok(None),
    }
    let mut other = StringRecord::new(alloc);
    match read_next(reader, &mut other)? {
        NextRow::End => Ok(Some(fields(alloc, &row)?)),
        NextRow::Row | NextRow::NoText => Ok(None),
    }
}

/// A reader of a text whose first row is no header.
fn reader_of(alloc: Global, text: &str, separator: u8, quote: u8) -> Reader<&[u8]>
    ensures stands { readers.Stands (λ source. Some source.now) (strip_bom text.now) result }
    ensures config { reader_config result ≡ spec.form separator quote }
    ensures state { reader_state result ≡ st.StartRecord }
{
    ReaderBuilder::new()
        .delimiter(separator)
        .quote(quote)
        .has_headers(false)
        .flexible(true)
        .from_reader(alloc, text.as_bytes())
}

/// What a reader finds next.
#[derive(Clone, Copy)]
enum NextRow {
    /// A row of text.
    Row,
    /// A row with a field that is no text.
    NoText,
    /// The end.
    End,
}

/// Reads the next row. A slice can't fail, so that no error but that of memory is met beside `Utf8`.
fn read_next(reader: &mut Reader<&[u8]>, row: &mut StringRecord) -> Result<NextRow, AllocError>
    ensures { (left : List ℕ) → readers.Stands (λ source. Some source.now) left reader.old
        → IfOk result (λ next. readers.Says (λ source. Some source.now) next
        (next_record (reader_config reader.old) (reader_state reader.old) [] [] left)
        (fields_of row.new) reader.old reader.new) }
{
    match reader.read_record(row) {
        Ok(true) => Ok(NextRow::Row),
        Ok(false) => Ok(NextRow::End),
        Err(error) => match error.kind() {
            ErrorKind::Utf8 { .. } => Ok(NextRow::NoText),
            _ => Err(AllocError),
        },
    }
}

#[tactic(auto, using(crate::proofs::Taking::taking))]
fn fields(alloc: Global, row: &StringRecord) -> Result<Names, AllocError>
    ensures { IfOk result (λ fields. fields ≡ fields_of row.now) }
{
    let mut fields = Names::with_capacity(alloc, row.len())?;
    for field in row.iter() {
        fields.push(Text::of(alloc, field)?)?;
    }
    Ok(fields)
}
