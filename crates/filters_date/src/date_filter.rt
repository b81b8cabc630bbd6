// The filter `date`: its settings, and its application to an event.
ghost use Rattle.std.specs.Prelude.{◌≡◌, ◌∷◌, [], IfOk, option_map, option_and_then};
ghost use Rattle.filter_settings.specs.Readers as readers;
ghost use Rattle.filter_settings.specs.Settings.{Gives, Leaves, wanted};
ghost use Rattle.event_text.specs.Options.{each_in};
ghost use Rattle.filters_date.specs.Dates as spec;
ghost use Rattle.filters_date.specs.Formats.{format_of};

use crate::format::{DateFormat, read_format};
use crate::unix::units;
use event_text::{event_time, number_of, path_in};
use event_times::{TimeItem, TimeParts, iso8601_parts, read_offset, read_time, year_of};
use event_tree::{Event, Items, Names, Number, Path, Text, Value};
use filter_settings::{
    Applied, FromFault, Options, SetByName, SettingValue, Settings, assign, bad_pattern,
    field_named, finish, one_applied, put_at, read_path, read_settings, read_text, read_texts,
    require, set_option, wanted,
};
use plain_data::Instant;
use std::alloc::{AllocError, Global};

/// The filter `date`: the moment that a field writes becomes the event's time.
pub struct DateFilter {
    /// The field that writes a moment.
    pub source: Path,
    /// How it may be written: the first format that reads all of it counts.
    pub formats: Items<DateFormat>,
    /// Where the moment is put.
    pub target: Path,
    /// The offset of times that write none, in seconds, positive east of Greenwich.
    pub timezone: i32,
    /// The tag of an event whose field writes no moment.
    pub tag_on_failure: Text,
    pub options: Options,
}

// Written out, so that it is one call wherever an error is handed on while a filter is held.
impl Drop for DateFilter {
    fn drop(self) {
        let DateFilter {
            source: _source,
            formats: _formats,
            target: _target,
            timezone: _,
            tag_on_failure: _tag,
            options: _options,
        } = self;
    }
}

impl SetByName for DateFilter {
    ghost use Rattle.filters_date.specs.Dates.{date_set};

    ghost setting = { date_set };

    fn set(&mut self, alloc: Global, name: &str, value: &SettingValue) -> Result<(), FromFault> {
        match name {
            "match" => self.set_match(alloc, name, value),
            "target" => assign(&mut self.target, read_path(alloc, name, value)),
            "timezone" => assign(&mut self.timezone, read_timezone(alloc, name, value)),
            "tag_on_failure" => assign(&mut self.tag_on_failure, read_text(alloc, name, value)),
            _ => set_option(&mut self.options, alloc, name, value),
        }
    }
}

impl DateFilter {
    /// Reads the settings. The fault is that of the first setting, in the order of the text, that is
    /// unknown, of another kind, or has a format that is none, and then `Missing` of `match`.
    pub fn from_settings(settings: &Settings) -> Result<DateFilter, FromFault>
        ensures { Gives result (spec.date_of settings.now.list) }
    {
        let start = DateFilter::new(settings.list.allocator())?;
        let filter = read_settings(settings, start)?;
        require(settings, "match", filter)
    }

    fn new(alloc: Global) -> Result<DateFilter, AllocError>
        ensures { IfOk result (λ filter. filter ≡ spec.date_start) }
    {
        let source = field_named(alloc, "@timestamp")?;
        let target = field_named(alloc, "@timestamp")?;
        let tag_on_failure = Text::of(alloc, "_dateparsefailure")?;
        Ok(DateFilter {
            source,
            formats: Items::new(alloc),
            target,
            timezone: 0,
            tag_on_failure,
            options: Options::none(alloc),
        })
    }

    fn set_match(
        &mut self,
        alloc: Global,
        name: &str,
        value: &SettingValue,
    ) -> Result<(), FromFault>
        ensures { Leaves result (spec.match_set name.now value.now self.old) self.new }
    {
        let (source, texts) = read_match(alloc, name, value)?;
        self.formats = read_formats(alloc, name, texts.as_slice())?;
        self.source = source;
        Ok(())
    }

    /// The event with the moment that its field writes at the target, and with the options. A field
    /// that writes no moment, or a moment that can't be put there, adds the tag of a failure and is not
    /// matched; a missing field leaves the event as it is, and is not matched.
    pub fn apply(&self, event: Event) -> Result<Applied, AllocError>
        ensures { IfOk result (λ applied. applied ≡ spec.dated self.now event) }
    {
        match event.get(&self.source) {
            None => one_applied(self.tag_on_failure.allocator(), event, false),
            Some(value) => {
                let moment = self.moment(&event, value);
                self.put(event, moment)
            }
        }
    }

    fn put(&self, event: Event, moment: Option<Instant>) -> Result<Applied, AllocError>
        ensures { IfOk result (λ applied. applied ≡ spec.with_moment self.now event moment) }
    {
        let mut event = event;
        let fine = match moment {
            Some(moment) => put_at(&mut event, &self.target, Value::Time(moment))?,
            None => false,
        };
        finish(event, fine, &self.options, &self.tag_on_failure)
    }

    /// By the first of the formats that reads the value.
    fn moment(&self, event: &Event, value: &Value) -> Option<Instant>
        ensures { result ≡ spec.read_first self.now event.now value.now self.now.formats }
    {
        for format in self.formats.as_slice() {
            if let Some(moment) = self.read_by(event, value, format) {
                return moment;
            }
        }
        None
    }

    /// What a format makes of the value: none where it doesn't read it whole.
    fn read_by(&self, event: &Event, value: &Value, format: &DateFormat) -> Option<Option<Instant>>
        ensures { result ≡ spec.read_by self.now event.now value.now format.now }
    {
        match format {
            DateFormat::Iso8601 => self.read_iso8601(value),
            DateFormat::Unix => units(number_in(value)?, 9),
            DateFormat::UnixMillis => units(number_in(value)?, 6),
            DateFormat::Letters(items) => self.read_letters(event, value, items.as_slice()),
        }
    }

    fn read_iso8601(&self, value: &Value) -> Option<Option<Instant>>
        ensures { result ≡ spec.read_iso8601 self.now value.now }
    {
        let parts = iso8601_parts(text_in(value)?)?;
        Some(parts.moment(self.timezone))
    }

    fn read_letters(
        &self,
        event: &Event,
        value: &Value,
        items: &[TimeItem],
    ) -> Option<Option<Instant>>
        ensures { result ≡ spec.read_letters self.now event.now value.now items.now }
    {
        let parts = read_time(items, text_in(value)?)?;
        Some(in_own_year(event, parts).moment(self.timezone))
    }
}

/// The text of a value that is one.
fn text_in(value: &Value) -> Option<&str>
    ensures { option_map (λ text. text.now) result ≡ spec.text_of_value value.now }
{
    match value {
        Value::Text(text) => Some(text.as_str()),
        _ => None,
    }
}

/// The number that a value is, or that its text writes.
fn number_in(value: &Value) -> Option<Number>
    ensures { result ≡ spec.number_of_value value.now }
{
    match value {
        Value::Num(number) => Some(*number),
        Value::Text(text) => number_of(text.as_str()),
        _ => None,
    }
}

/// The field and the texts of the formats of the setting `match`.
fn read_match(alloc: Global, name: &str, value: &SettingValue) -> Result<(Path, Names), FromFault>
    ensures { Gives result (wanted name.now (option_and_then spec.field_and_formats
        (readers.texts_of value.now))) }
{
    let texts = read_texts(alloc, name, value)?;
    wanted(alloc, name, field_and_formats(alloc, texts)?)
}

fn field_and_formats(alloc: Global, texts: Names) -> Result<Option<(Path, Names)>, AllocError>
    ensures { IfOk result (λ found. found ≡ spec.field_and_formats texts) }
{
    if texts.len() < 2 {
        return Ok(None);
    }
    let mut texts = texts;
    let field = texts.remove(0);
    match path_in(alloc, field.as_str())? {
        Some(path) => Ok(Some((path, texts))),
        None => Ok(None),
    }
}

fn read_formats(alloc: Global, name: &str, texts: &[Text]) -> Result<Items<DateFormat>, FromFault>
    ensures { Gives result (spec.readable name.now (each_in format_of texts.now)) }
{
    match formats(alloc, texts)? {
        Some(formats) => Ok(formats),
        None => Err(bad_pattern(alloc, name)),
    }
}

#[tactic(auto, using(filter_settings::proofs::Steps::each))]
fn formats(alloc: Global, texts: &[Text]) -> Result<Option<Items<DateFormat>>, AllocError>
    ensures { IfOk result (λ formats. formats ≡ each_in format_of texts.now) }
{
    let mut formats = Items::with_capacity(alloc, texts.len())?;
    for text in texts {
        match read_format(alloc, text.as_str())? {
            Some(format) => formats.push(format)?,
            None => return Ok(None),
        }
    }
    Ok(Some(formats))
}

/// `UTC`, or an offset as `+02:00`.
fn read_timezone(alloc: Global, name: &str, value: &SettingValue) -> Result<i32, FromFault>
    ensures { Gives result (wanted name.now (option_and_then spec.timezone_of
        (readers.text_of value.now))) }
{
    let text = read_text(alloc, name, value)?;
    wanted(alloc, name, timezone_of(text.as_str()))
}

fn timezone_of(text: &str) -> Option<i32>
    ensures { result ≡ spec.timezone_of text.now }
{
    if text == "UTC" {
        Some(0)
    } else {
        read_offset(text)
    }
}

/// The parts, with the year of the event's own time where they have none.
fn in_own_year(event: &Event, parts: TimeParts) -> TimeParts
    ensures { result ≡ spec.in_own_year event.now parts }
{
    let mut parts = parts;
    if parts.year.is_none() {
        parts.year = match event_time(event) {
            Some(moment) => Some(year_of(moment)),
            None => None,
        };
    }
    parts
}
