// The filter `kv`: its settings, and its application to an event.
ghost use Rattle.std.specs.Prelude.{◌≡◌, ◌∷◌, [], ◌++◌, IfOk, OnOk, map, option_map, option_and_then};
ghost use Rattle.std.specs.Option.{option_copied};
ghost use Rattle.std.specs.Str.{chars};
ghost use Rattle.plain_data.specs.Members.{insert_member};
ghost use Rattle.event_tree.specs.declared.value.Value.TheVariants as v;
ghost use Rattle.event_text.specs.Options.{each_done};
ghost use Rattle.event_times.specs.Decoded.{text_of};
ghost use Rattle.filter_settings.specs.Settings.{Gives, Leaves, wanted};
ghost use Rattle.filters_text.specs.Kv as spec;
ghost use Rattle.filters_text.specs.Views.{both_chars};

use crate::target::field_under;
use crate::{Splits, trimmed};
use event_times::text_in;
use event_tree::{Event, Fields, Items, Names, Path, Text, Value};
use filter_settings::{
    Applied, FromFault, Options, SetByName, SettingValue, Settings, assign, assign_some,
    field_named, one_applied, read_flag, read_path, read_settings, read_text, read_texts,
    set_option, try_put,
};
use std::alloc::{AllocError, Global};

/// The filter `kv`: the pairs of keys and values that a text writes become fields.
pub struct Kv {
    /// The field that holds the text.
    pub source: Path,
    /// Where the fields are put; at the root where there is none.
    pub target: Option<Path>,
    /// The characters at which the text is split.
    pub splits: Splits,
    /// What stands in front of each key in the name of its field.
    pub prefix: Text,
    /// The keys that are wanted: all of them where none stands here.
    pub include_keys: Names,
    /// The keys that are not wanted.
    pub exclude_keys: Names,
    /// The characters that are removed at both ends of a key.
    pub trim_key: Items<char>,
    /// The characters that are removed at both ends of a value.
    pub trim_value: Items<char>,
    /// Whether a value that stands already is added to the list of a repeated key.
    pub allow_duplicate_values: bool,
    pub options: Options,
}

// Written out, so that it is one call wherever an error is handed on while a filter is held.
impl Drop for Kv {
    fn drop(self) {
        let Kv {
            source: _source,
            target: _target,
            splits: _splits,
            prefix: _prefix,
            include_keys: _include_keys,
            exclude_keys: _exclude_keys,
            trim_key: _trim_key,
            trim_value: _trim_value,
            allow_duplicate_values: _,
            options: _options,
        } = self;
    }
}

impl SetByName for Kv {
    ghost use Rattle.filters_text.specs.Kv.{kv_set};

    ghost setting = { kv_set };

    fn set(&mut self, alloc: Global, name: &str, value: &SettingValue) -> Result<(), FromFault> {
        match name {
            "source" => assign(&mut self.source, read_path(alloc, name, value)),
            "target" => assign_some(&mut self.target, read_path(alloc, name, value)),
            "prefix" => assign(&mut self.prefix, read_text(alloc, name, value)),
            "include_keys" => assign(&mut self.include_keys, read_texts(alloc, name, value)),
            "exclude_keys" => assign(&mut self.exclude_keys, read_texts(alloc, name, value)),
            "allow_duplicate_values" => assign(
                &mut self.allow_duplicate_values,
                read_flag(alloc, name, value),
            ),
            _ => self.set_text(alloc, name, value),
        }
    }
}

impl Kv {
    /// Reads the settings. The fault is that of the first setting, in the order of the text, that is
    /// unknown or of another kind.
    pub fn from_settings(settings: &Settings) -> Result<Kv, FromFault>
        ensures { Gives result (spec.kv_of settings.now.list) }
    {
        let start = Kv::new(settings.list.allocator())?;
        let mut filter = read_settings(settings, start)?;
        filter.set_ends()?;
        Ok(filter)
    }

    fn new(alloc: Global) -> Result<Kv, AllocError>
        ensures { IfOk result (λ filter. filter ≡ spec.kv_start) }
    {
        let source = field_named(alloc, "message")?;
        let splits = default_splits(alloc)?;
        let prefix = Text::of(alloc, "")?;
        Ok(Kv {
            source,
            target: None,
            splits,
            prefix,
            include_keys: Names::new(alloc),
            exclude_keys: Names::new(alloc),
            trim_key: Items::new(alloc),
            trim_value: Items::new(alloc),
            allow_duplicate_values: true,
            options: Options::none(alloc),
        })
    }

    /// The settings of how a text is read, and those that every filter has.
    fn set_text(&mut self, alloc: Global, name: &str, value: &SettingValue) -> Result<(), FromFault>
        ensures { Leaves result (spec.text_set name.now value.now self.old) self.new }
    {
        match name {
            "field_split" => assign(&mut self.splits.fields, read_characters(alloc, name, value)),
            "value_split" => assign(&mut self.splits.values, read_characters(alloc, name, value)),
            "trim_key" => assign(&mut self.trim_key, read_characters(alloc, name, value)),
            "trim_value" => assign(&mut self.trim_value, read_characters(alloc, name, value)),
            _ => set_option(&mut self.options, alloc, name, value),
        }
    }

    fn set_ends(&mut self) -> Result<(), AllocError>
        ensures { OnOk result (self.new ≡ spec.with_ends self.old) }
    {
        let fields = self.splits.fields.as_slice();
        let values = self.splits.values.as_slice();
        self.splits.keys = both_sets(self.prefix.allocator(), fields, values)?;
        Ok(())
    }

    /// The event with a field for each key of its text, and with the options. A key that stands more than
    /// once has a list of its values, in the order of the text. A field that the event can't hold isn't set. A
    /// field that is missing or no text leaves the event as it is, and is not matched; a text without a pair
    /// is.
    ///
    /// It takes time in proportion to the text, for one sort of the pairs by their keys, and for one look-up
    /// in the event for each key; and where duplicates are not allowed, for each pair of two values of one key.
    pub fn apply(&self, event: Event) -> Result<Applied, AllocError>
        ensures { IfOk result (λ applied. applied ≡ spec.paired self.now event) }
    {
        match self.groups(event.get(&self.source))? {
            Some(groups) => self.with_groups(event, groups),
            None => one_applied(self.prefix.allocator(), event, false),
        }
    }

    fn groups(&self, value: Option<&Value>) -> Result<Option<Fields<Names>>, AllocError>
        ensures { IfOk result (λ groups. groups
            ≡ option_map (spec.groups_of self.now) (option_and_then text_of (option_copied value.entry))) }
    {
        let Some(value) = value else {
            return Ok(None);
        };
        match text_in(value) {
            Some(text) => Ok(Some(self.groups_in(text)?)),
            None => Ok(None),
        }
    }

    fn groups_in(&self, text: &str) -> Result<Fields<Names>, AllocError>
        ensures { IfOk result (λ groups. groups ≡ spec.groups_of self.now text.now) }
    {
        let pairs = self.splits.pairs(self.prefix.allocator(), text)?;
        let fields = self.fields(&pairs)?;
        grouped(fields, self.allow_duplicate_values)
    }

    fn fields(&self, pairs: &[(&str, &str)]) -> Result<Vec<(Text, Text)>, AllocError>
        ensures { IfOk result (λ fields. fields.items ≡ spec.fields_of self.now
            (map both_chars pairs.now)) }
    {
        let mut fields = Vec::new(self.prefix.allocator());
        for pair in pairs {
            self.add_field(&mut fields, pair.0, pair.1)?;
        }
        Ok(fields)
    }

    fn add_field(
        &self,
        fields: &mut Vec<(Text, Text)>,
        key: &str,
        value: &str,
    ) -> Result<(), AllocError>
        ensures { OnOk result (fields.new.items
            ≡ fields.old.items ++ spec.field_of self.now (chars key.now, chars value.now)) }
    {
        let key = trimmed(key, self.trim_key.as_slice());
        if self.is_wanted(key) {
            let value = trimmed(value, self.trim_value.as_slice());
            fields.push((
                self.name_of(key)?,
                Text::of(self.prefix.allocator(), value)?,
            ))?;
        }
        Ok(())
    }

    fn is_wanted(&self, key: &str) -> bool
        ensures { result ≡ spec.is_wanted self.now key.now }
    {
        (self.include_keys.len() == 0 || is_one_of(self.include_keys.as_slice(), key))
            && !is_one_of(self.exclude_keys.as_slice(), key)
    }

    fn name_of(&self, key: &str) -> Result<Text, AllocError>
        ensures { IfOk result (λ name. name ≡ self.now.prefix ++ key.now) }
    {
        let mut name = String::from_str(self.prefix.allocator(), self.prefix.as_str())?;
        name.push_str(key)?;
        Ok(Text::from_string(name))
    }

    fn with_groups(&self, event: Event, groups: Fields<Names>) -> Result<Applied, AllocError>
        ensures { IfOk result (λ applied. applied ≡ spec.with_groups self.now event groups) }
    {
        let mut event = event;
        self.put_groups(&mut event, groups)?;
        let event = self.options.apply(event)?;
        one_applied(self.prefix.allocator(), event, true)
    }

    fn put_groups(&self, event: &mut Event, groups: Fields<Names>) -> Result<(), AllocError>
        ensures { OnOk result (event.new ≡ each_done (spec.with_group self.now) groups event.old) }
    {
        for (name, texts) in groups.into_vec() {
            self.put_group(event, name, texts)?;
        }
        Ok(())
    }

    fn put_group(&self, event: &mut Event, name: Text, texts: Names) -> Result<(), AllocError>
        ensures { OnOk result (event.new ≡ spec.with_group self.now (name, texts) event.old) }
    {
        let path = field_under(self.target.as_ref(), name)?;
        let value = value_of(texts)?;
        try_put(event, &path, value)
    }
}

#[tactic(auto, using(event_text::proofs::Going::going))]
fn is_one_of(names: &[Text], name: &str) -> bool
    ensures { result ≡ spec.is_one_of names.now name.now }
{
    for one in names {
        if one.as_str() == name {
            return true;
        }
    }
    false
}

/// The texts of each name, in the order of the pairs, which are sorted once.
fn grouped(pairs: Vec<(Text, Text)>, duplicates: bool) -> Result<Fields<Names>, AllocError>
    ensures { IfOk result (λ groups. groups ≡ spec.all_added duplicates [] pairs.items) }
{
    let mut sorted = pairs;
    sorted.sort_by(|one, other| one.0.cmp(&other.0))?;
    let mut groups = Fields::new(*sorted.allocator());
    for (name, text) in sorted {
        add_text(&mut groups, name, text, duplicates)?;
    }
    Ok(groups)
}

fn add_text(
    groups: &mut Fields<Names>,
    name: Text,
    text: Text,
    duplicates: bool,
) -> Result<(), AllocError>
    ensures { OnOk result (groups.new ≡ spec.added duplicates groups.old (name, text)) }
{
    match groups.get_mut(name.as_str()) {
        Some(texts) => add_behind(texts, text, duplicates),
        None => add_group(groups, name, text),
    }
}

fn add_group(groups: &mut Fields<Names>, name: Text, text: Text) -> Result<(), AllocError>
    ensures { OnOk result (groups.new ≡ insert_member name (text ∷ []) groups.old) }
{
    let mut texts = Names::with_capacity(text.allocator(), 1)?;
    texts.push(text)?;
    groups.insert(name, texts)?;
    Ok(())
}

fn add_behind(texts: &mut Names, text: Text, duplicates: bool) -> Result<(), AllocError>
    ensures { OnOk result (texts.new ≡ spec.joined duplicates text texts.old) }
{
    if !duplicates && is_one_of(texts.as_slice(), text.as_str()) {
        return Ok(());
    }
    texts.push(text)
}

/// One text as a text, and several as a list.
fn value_of(texts: Names) -> Result<Value, AllocError>
    ensures { IfOk result (λ value. value ≡ spec.value_of texts) }
{
    let mut texts = texts;
    if texts.len() == 1 {
        return Ok(Value::Text(texts.remove(0)));
    }
    Ok(Value::List(values_of(texts)?))
}

fn values_of(texts: Names) -> Result<Items<Value>, AllocError>
    ensures { IfOk result (λ values. values ≡ map v.Text texts) }
{
    let mut values = Items::with_capacity(texts.allocator(), texts.len())?;
    for text in texts.into_vec() {
        values.push(Value::Text(text))?;
    }
    Ok(values)
}

/// A setting that is a set of characters.
fn read_characters(
    alloc: Global,
    name: &str,
    value: &SettingValue,
) -> Result<Items<char>, FromFault>
    ensures { Gives result (wanted name.now (spec.characters_of value.now)) }
{
    let text = read_text(alloc, name, value)?;
    Ok(characters(alloc, text.as_str())?)
}

fn characters(alloc: Global, text: &str) -> Result<Items<char>, AllocError>
    ensures { IfOk result (λ found. found ≡ chars text.now) }
{
    let mut found = Items::new(alloc);
    for character in text.chars() {
        found.push(character)?;
    }
    Ok(found)
}

/// Blanks between two pairs, and `=` between a key and its value.
fn default_splits(alloc: Global) -> Result<Splits, AllocError>
    ensures { IfOk result (λ splits. splits ≡ spec.default_splits) }
{
    let fields = one_character(alloc, ' ')?;
    let values = one_character(alloc, '=')?;
    Ok(Splits {
        fields,
        values,
        keys: Items::new(alloc),
    })
}

fn one_character(alloc: Global, character: char) -> Result<Items<char>, AllocError>
    ensures { IfOk result (λ found. found ≡ character ∷ []) }
{
    let mut found = Items::new(alloc);
    found.push(character)?;
    Ok(found)
}

fn both_sets(alloc: Global, one: &[char], other: &[char]) -> Result<Items<char>, AllocError>
    ensures { IfOk result (λ both. both ≡ one.now ++ other.now) }
{
    let mut both = Items::new(alloc);
    add_all(&mut both, one)?;
    add_all(&mut both, other)?;
    Ok(both)
}

fn add_all(set: &mut Items<char>, more: &[char]) -> Result<(), AllocError>
    ensures { OnOk result (set.new ≡ set.old ++ more.now) }
{
    for character in more {
        set.push(*character)?;
    }
    Ok(())
}
