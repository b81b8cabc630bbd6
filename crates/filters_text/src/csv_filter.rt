// The filter `csv`: its settings, and its application to an event.
ghost use Rattle.std.specs.Prelude.{◌≡◌, ◌≤◌, ◌+◌, ◌-◌, ◌^◌, IfOk, OnOk, map};
ghost use Rattle.filter_settings.specs.Settings.{Gives, Leaves, wanted};
ghost use Rattle.filter_settings.specs.Trying.{tried};
ghost use Rattle.filters_text.specs.Csv as spec;

use crate::one_row;
use event_times::{field_path, text_in};
use event_tree::{Event, Items, Names, Path, Text, Value};
use filter_settings::{
    Applied, Change, Conversion, FromFault, Options, SetByName, SettingValue, Settings, assign,
    assign_some, convert, field_named, finish, is_same, one_applied, path_under, put_at,
    read_field_conversions, read_flag, read_path, read_paths, read_settings, read_text, set_option,
    wanted,
};
use std::alloc::{AllocError, Global};

/// The filter `csv`: the fields of a row that a text is become fields of the event.
pub struct Csv {
    /// The field that holds the text.
    pub source: Path,
    /// Where the columns are put; at the root where there is none.
    pub target: Option<Path>,
    /// The character of ASCII between two fields of the row.
    pub separator: u8,
    /// The character of ASCII around a field in which any character may stand.
    pub quote_char: u8,
    /// The names of the first columns.
    pub columns: Items<Path>,
    /// Whether the columns behind those are put too, each as `column` with its number from 1 on.
    pub autogenerate_column_names: bool,
    /// Whether an empty field of the row is left out.
    pub skip_empty_columns: bool,
    /// The kinds to which columns are converted.
    pub convert: Items<(Path, Conversion)>,
    /// The columns with a name, by `columns`, `target` and `convert`.
    pub places: Items<Column>,
    /// The tag of an event whose field holds no such text.
    pub failure_tag: Text,
    pub options: Options,
}

// Written out, so that it is one call wherever an error is handed on while a filter is held.
impl Drop for Csv {
    fn drop(self) {
        let Csv {
            source: _source,
            target: _target,
            separator: _,
            quote_char: _,
            columns: _columns,
            autogenerate_column_names: _,
            skip_empty_columns: _,
            convert: _convert,
            places: _places,
            failure_tag: _tag,
            options: _options,
        } = self;
    }
}

/// A column of a row.
pub struct Column {
    /// Where its field is put.
    pub path: Path,
    /// What its field is converted to, if it is.
    pub kind: Option<Conversion>,
}

// Written out, so that it is one call wherever an error is handed on while a column is held.
impl Drop for Column {
    fn drop(self) {
        let Column {
            path: _path,
            kind: _,
        } = self;
    }
}

impl SetByName for Csv {
    ghost use Rattle.filters_text.specs.Csv.{csv_set};

    ghost setting = { csv_set };

    fn set(&mut self, alloc: Global, name: &str, value: &SettingValue) -> Result<(), FromFault> {
        match name {
            "source" => assign(&mut self.source, read_path(alloc, name, value)),
            "target" => assign_some(&mut self.target, read_path(alloc, name, value)),
            "separator" => assign(&mut self.separator, read_ascii(alloc, name, value)),
            "quote_char" => assign(&mut self.quote_char, read_ascii(alloc, name, value)),
            _ => self.set_columns(alloc, name, value),
        }
    }
}

impl Csv {
    /// Reads the settings. The fault is that of the first setting, in the order of the text, that is
    /// unknown or of another kind.
    pub fn from_settings(settings: &Settings) -> Result<Csv, FromFault>
        ensures { Gives result (spec.csv_of settings.now.list) }
    {
        let start = Csv::new(settings.list.allocator())?;
        let mut filter = read_settings(settings, start)?;
        filter.set_places()?;
        Ok(filter)
    }

    fn new(alloc: Global) -> Result<Csv, AllocError>
        ensures { IfOk result (λ filter. filter ≡ spec.csv_start) }
    {
        let source = field_named(alloc, "message")?;
        let failure_tag = Text::of(alloc, "_csvparsefailure")?;
        Ok(Csv {
            source,
            target: None,
            separator: b',',
            quote_char: b'"',
            columns: Items::new(alloc),
            autogenerate_column_names: true,
            skip_empty_columns: false,
            convert: Items::new(alloc),
            places: Items::new(alloc),
            failure_tag,
            options: Options::none(alloc),
        })
    }

    /// The settings of columns, and those that every filter has.
    fn set_columns(
        &mut self,
        alloc: Global,
        name: &str,
        value: &SettingValue,
    ) -> Result<(), FromFault>
        ensures { Leaves result (spec.columns_set name.now value.now self.old) self.new }
    {
        match name {
            "columns" => assign(&mut self.columns, read_paths(alloc, name, value)),
            "autogenerate_column_names" => assign(
                &mut self.autogenerate_column_names,
                read_flag(alloc, name, value),
            ),
            "skip_empty_columns" => assign(
                &mut self.skip_empty_columns,
                read_flag(alloc, name, value),
            ),
            "convert" => assign(
                &mut self.convert,
                read_field_conversions(alloc, name, value),
            ),
            _ => set_option(&mut self.options, alloc, name, value),
        }
    }

    fn set_places(&mut self) -> Result<(), AllocError>
        ensures { OnOk result (self.new ≡ spec.with_places self.old) }
    {
        self.places = self.places_of(self.columns.as_slice())?;
        Ok(())
    }

    fn places_of(&self, columns: &[Path]) -> Result<Items<Column>, AllocError>
        ensures { IfOk result (λ places. places ≡ map (spec.column_of self.now) columns.now) }
    {
        let mut places = Items::with_capacity(self.failure_tag.allocator(), columns.len())?;
        for name in columns {
            places.push(self.column(name)?)?;
        }
        Ok(places)
    }

    /// The column of this name.
    fn column(&self, name: &Path) -> Result<Column, AllocError>
        ensures { IfOk result (λ column. column ≡ spec.column_of self.now name.now) }
    {
        let path = match &self.target {
            Some(target) => path_under(self.failure_tag.allocator(), target, name)?,
            None => name.copy()?,
        };
        Ok(Column {
            path,
            kind: kind_of(name, self.convert.as_slice()),
        })
    }

    /// The event with the fields of the row that its text is, and with the options. A field of the event
    /// that is no text of exactly one row, or a column that can't be put, adds the tag of a failure and is
    /// not matched; a missing field leaves the event as it is, and is not matched. What was put before a
    /// refusal stays.
    ///
    /// It takes time in proportion to the text, one look-up in the event for each field of the row, and
    /// the tables of a reader.
    pub fn apply(&self, event: Event) -> Result<Applied, AllocError>
        ensures { IfOk result (λ applied. applied ≡ spec.separated self.now event) }
    {
        match event.get(&self.source) {
            None => one_applied(self.failure_tag.allocator(), event, false),
            Some(value) => {
                let row = self.row_in(value)?;
                self.put(event, row)
            }
        }
    }

    fn row_in(&self, value: &Value) -> Result<Option<Names>, AllocError>
        ensures { IfOk result (λ row. row ≡ spec.row_in self.now value.now) }
    {
        match text_in(value) {
            Some(text) => one_row(
                self.failure_tag.allocator(),
                text,
                self.separator,
                self.quote_char,
            ),
            None => Ok(None),
        }
    }

    fn put(&self, event: Event, row: Option<Names>) -> Result<Applied, AllocError>
        ensures { IfOk result (λ applied. applied ≡ spec.with_row self.now event row) }
    {
        let mut event = event;
        let fine = match row {
            Some(row) => self.put_fields(&mut event, row)?,
            None => false,
        };
        finish(event, fine, &self.options, &self.failure_tag)
    }

    fn put_fields(&self, event: &mut Event, row: Names) -> Result<bool, AllocError>
        ensures { IfOk result (λ fine. tried fine event.new ≡ spec.put_fields self.now 0 row
            event.old) }
    {
        // Read for the proof alone: a length fits in a usize, so each place below it does.
        let _count = row.len();
        let mut index = 0;
        for text in row.into_vec() {
            if !self.put_column(event, index, text)? {
                return Ok(false);
            }
            index += 1;
        }
        Ok(true)
    }

    /// The field of the column at this place of the row.
    fn put_column(&self, event: &mut Event, index: usize, text: Text) -> Result<bool, AllocError>
        requires { index + 1 ≤ 2 ^ 64 - 1 }
        ensures { IfOk result (λ fine. tried fine event.new ≡ spec.put_column self.now index text
            event.old) }
    {
        match self.places.get(index) {
            Some(column) => self.put_field(event, column, text),
            None => self.put_unnamed(event, index + 1, text),
        }
    }

    /// The field of a column that has no name.
    fn put_unnamed(&self, event: &mut Event, number: usize, text: Text) -> Result<bool, AllocError>
        ensures { IfOk result (λ fine. tried fine event.new ≡ spec.put_unnamed self.now number text
            event.old) }
    {
        if !self.autogenerate_column_names {
            return Ok(true);
        }
        let column = self.column(&number_name(self.failure_tag.allocator(), number)?)?;
        self.put_field(event, &column, text)
    }

    fn put_field(&self, event: &mut Event, column: &Column, text: Text) -> Result<bool, AllocError>
        ensures { IfOk result (λ fine. tried fine event.new ≡ spec.put_field self.now column.now
            text event.old) }
    {
        if self.skip_empty_columns && text.is_empty() {
            return Ok(true);
        }
        let value = value_of(column.kind, text)?;
        put_at(event, &column.path, value)
    }
}

/// The kind that is wanted of the column of this name: the first that stands for it.
fn kind_of(name: &Path, kinds: &[(Path, Conversion)]) -> Option<Conversion>
    ensures { result ≡ spec.kind_of name.now kinds.now }
{
    for kind in kinds {
        if is_same(name, &kind.0) {
            return Some(kind.1);
        }
    }
    None
}

/// The text, or what it is converted to where that doesn't fail.
fn value_of(kind: Option<Conversion>, text: Text) -> Result<Value, AllocError>
    ensures { IfOk result (λ value. value ≡ spec.value_of kind text) }
{
    let alloc = text.allocator();
    let text = Value::Text(text);
    match kind {
        Some(kind) => match convert(alloc, kind, &text)? {
            Change::Set(value) => Ok(value),
            Change::Keep | Change::Fail => Ok(text),
        },
        None => Ok(text),
    }
}

/// The name of the column with this number, where it has no other.
fn number_name(alloc: Global, number: usize) -> Result<Path, AllocError>
    ensures { IfOk result (λ path. path ≡ spec.number_name number) }
{
    field_path(Text::from_string(format!(in alloc; "column{number}")?))
}

/// A setting that is one character of ASCII.
fn read_ascii(alloc: Global, name: &str, value: &SettingValue) -> Result<u8, FromFault>
    ensures { Gives result (wanted name.now (spec.ascii_of value.now)) }
{
    let text = read_text(alloc, name, value)?;
    wanted(alloc, name, ascii_in(text.as_str()))
}

fn ascii_in(text: &str) -> Option<u8>
    ensures { result ≡ spec.ascii_in text.now }
{
    match text.as_bytes() {
        [byte] if byte.is_ascii() => Some(*byte),
        _ => None,
    }
}
