// The filter `json`: its settings, and its application to an event.
ghost use Rattle.std.specs.Prelude.{◌≡◌, IfOk, OnOk};
ghost use Rattle.event_text.specs.Options.{each_done, tagged};
ghost use Rattle.filter_settings.specs.Settings.{Gives};
ghost use Rattle.filter_settings.specs.Trying.{tried};
ghost use Rattle.filters_text.specs.Json as spec;

use event_times::{failure_tags, json_value, place, text_in};
use event_tree::{Event, Fields, Path, Text, Value};
use filter_settings::{
    Applied, FromFault, Options, SetByName, SettingValue, Settings, add_tag, assign, assign_some,
    field_named, finish, one_applied, put_at, read_path, read_settings, read_text, require,
    set_option,
};
use std::alloc::{AllocError, Global};

/// The filter `json`: the value of the JSON text that a field holds.
pub struct Json {
    /// The field that holds the text.
    pub source: Path,
    /// Where the value is put; the members of an object are put at the root where there is none.
    pub target: Option<Path>,
    /// The tag of an event whose field holds no such text.
    pub tag_on_failure: Text,
    pub options: Options,
}

// Written out, so that it is one call wherever an error is handed on while a filter is held.
impl Drop for Json {
    fn drop(self) {
        let Json {
            source: _source,
            target: _target,
            tag_on_failure: _tag,
            options: _options,
        } = self;
    }
}

impl SetByName for Json {
    ghost use Rattle.filters_text.specs.Json.{json_set};

    ghost setting = { json_set };

    fn set(&mut self, alloc: Global, name: &str, value: &SettingValue) -> Result<(), FromFault> {
        match name {
            "source" => assign(&mut self.source, read_path(alloc, name, value)),
            "target" => assign_some(&mut self.target, read_path(alloc, name, value)),
            "tag_on_failure" => assign(&mut self.tag_on_failure, read_text(alloc, name, value)),
            _ => set_option(&mut self.options, alloc, name, value),
        }
    }
}

impl Json {
    /// Reads the settings. The fault is that of the first setting, in the order of the text, that is
    /// unknown or of another kind, and then `Missing` of `source`.
    pub fn from_settings(settings: &Settings) -> Result<Json, FromFault>
        ensures { Gives result (spec.json_of settings.now.list) }
    {
        let start = Json::new(settings.list.allocator())?;
        let filter = read_settings(settings, start)?;
        require(settings, "source", filter)
    }

    fn new(alloc: Global) -> Result<Json, AllocError>
        ensures { IfOk result (λ filter. filter ≡ spec.json_start) }
    {
        let source = field_named(alloc, "message")?;
        let tag_on_failure = Text::of(alloc, "_jsonparsefailure")?;
        Ok(Json {
            source,
            target: None,
            tag_on_failure,
            options: Options::none(alloc),
        })
    }

    /// The event with the value of its field's text at the target, or with the members of an object at
    /// the root, where [`place`] puts them, and with the options. A field that holds no text which
    /// [`json_value`] reads, one that is no object where there is no target, or a value that can't be
    /// put there, adds the tag of a failure and is not matched; a missing field leaves the event as it
    /// is, and is not matched. What was put before a refusal stays.
    ///
    /// It takes time in proportion to the text, and one look-up in the event for each member.
    pub fn apply(&self, event: Event) -> Result<Applied, AllocError>
        ensures { IfOk result (λ applied. applied ≡ spec.decoded self.now event) }
    {
        let alloc = self.tag_on_failure.allocator();
        match event.get(&self.source) {
            None => one_applied(alloc, event, false),
            Some(value) => {
                let found = value_in(alloc, value)?;
                self.put(event, found)
            }
        }
    }

    fn put(&self, event: Event, found: Option<Value>) -> Result<Applied, AllocError>
        ensures { IfOk result (λ applied. applied ≡ spec.with_value self.now event found) }
    {
        let mut event = event;
        let fine = match found {
            Some(value) => self.put_value(&mut event, value)?,
            None => false,
        };
        finish(event, fine, &self.options, &self.tag_on_failure)
    }

    fn put_value(&self, event: &mut Event, value: Value) -> Result<bool, AllocError>
        ensures { IfOk result (λ fine. tried fine event.new ≡ spec.put_value self.now value
            event.old) }
    {
        match &self.target {
            Some(target) => put_at(event, target, value),
            None => put_object(event, value),
        }
    }
}

/// The value of the text that a value is.
fn value_in(alloc: Global, value: &Value) -> Result<Option<Value>, AllocError>
    ensures { IfOk result (λ found. found ≡ spec.value_in value.now) }
{
    match text_in(value) {
        Some(text) => json_value(alloc, text),
        None => Ok(None),
    }
}

fn put_object(event: &mut Event, value: Value) -> Result<bool, AllocError>
    ensures { IfOk result (λ fine. tried fine event.new ≡ spec.put_object value event.old) }
{
    match value {
        Value::Object(members) => put_members(event, members),
        _ => Ok(false),
    }
}

fn put_members(event: &mut Event, members: Fields<Value>) -> Result<bool, AllocError>
    ensures { IfOk result (λ fine. tried fine event.new ≡ spec.put_members members event.old) }
{
    let tags = failure_tags(members.allocator(), &members)?;
    if !place_all(event, members)? {
        return Ok(false);
    }
    add_tags(event, tags.as_slice())?;
    Ok(true)
}

fn place_all(event: &mut Event, members: Fields<Value>) -> Result<bool, AllocError>
    ensures { IfOk result (λ fine. tried fine event.new ≡ spec.place_all members event.old) }
{
    for (key, value) in members.into_vec() {
        if !place_one(event, key, value)? {
            return Ok(false);
        }
    }
    Ok(true)
}

fn place_one(event: &mut Event, key: Text, value: Value) -> Result<bool, AllocError>
    ensures { IfOk result (λ fine. tried fine event.new ≡ spec.place_one (key, value) event.old) }
{
    match place(key, value)? {
        Some((path, value)) => put_at(event, &path, value),
        None => Ok(true),
    }
}

#[tactic(auto, using(event_text::proofs::Going::going))]
fn add_tags(event: &mut Event, tags: &[Text]) -> Result<(), AllocError>
    ensures { OnOk result (event.new ≡ each_done tagged tags.now event.old) }
{
    for tag in tags {
        add_tag(event, tag.copy()?)?;
    }
    Ok(())
}
