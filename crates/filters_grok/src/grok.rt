// The filter `grok`: its settings, and its application to an event.
ghost use Rattle.std.specs.Prelude.{◌≡◌, ◌<◌, List, length, slice_get, Some, None, false, IfOk};
ghost use Rattle.event_tree.specs.Events.{Way};
ghost use Rattle.filter_settings.specs.Settings.{Gives, Leaves};
ghost use Rattle.filter_settings.specs.Trying.{tried};
ghost use Rattle.filters_grok.specs.Grok as spec;
ghost use Rattle.grok_patterns.specs.declared.expansion.Expanded.{Expanded as Said};

use crate::searching::{Finds, SearchOptions, put_all, search_value};
use crate::settings::{FieldPatterns, read_definitions, read_match, rules_of};
use event_tree::{Event, Items, Text};
use filter_settings::{
    Applied, FromFault, Options, SetByName, SettingValue, Settings, assign, finish, not_kept,
    read_flag, read_path, read_paths, read_settings, read_text, require, set_option,
};
use grok_patterns::ExpansionRules;
use std::alloc::{AllocError, Global};

/// The filter `grok`: patterns find fields in texts.
pub struct Grok {
    /// By what patterns are expanded.
    pub rules: ExpansionRules,
    /// The fields with their patterns, in the order of the text.
    pub fields: Items<FieldPatterns>,
    /// Whether the first match ends the filter.
    pub break_on_match: bool,
    /// Whether captures of the empty text are kept.
    pub keep_empty_captures: bool,
    /// The tag of an event in which nothing matches.
    pub tag_on_failure: Text,
    pub options: Options,
}

// Written out, so that it is one call wherever an error is handed on while a filter is held.
impl Drop for Grok {
    fn drop(self) {
        let Grok {
            rules: _rules,
            fields: _fields,
            break_on_match: _,
            keep_empty_captures: _,
            tag_on_failure: _tag,
            options: _options,
        } = self;
    }
}

impl SetByName for Grok {
    ghost use Rattle.filters_grok.specs.Grok.{grok_set};

    ghost setting = { grok_set };

    fn set(&mut self, alloc: Global, name: &str, value: &SettingValue) -> Result<(), FromFault> {
        match name {
            "match" => {
                let fields = read_match(alloc, &self.rules, name, value);
                assign(&mut self.fields, fields)
            }
            "break_on_match" => assign(&mut self.break_on_match, read_flag(alloc, name, value)),
            "keep_empty_captures" => assign(
                &mut self.keep_empty_captures,
                read_flag(alloc, name, value),
            ),
            "tag_on_failure" => assign(&mut self.tag_on_failure, read_text(alloc, name, value)),
            _ => self.set_further(alloc, name, value),
        }
    }
}

impl Grok {
    /// Reads the settings, and compiles the patterns. The fault is that of the first setting, in the order
    /// of the text, that is unknown, of another kind, or has a bad pattern, and then `Missing` of `match`.
    /// Patterns are expanded by the definitions, the target and the other settings that stand anywhere in
    /// the text, where these can be read.
    pub fn from_settings(settings: &Settings) -> Result<Grok, FromFault>
        ensures { Gives result (spec.grok_of settings.now.list) }
    {
        let start = Grok::new(settings.list.allocator(), rules_of(settings)?)?;
        let filter = read_settings(settings, start)?;
        require(settings, "match", filter)
    }

    fn new(alloc: Global, rules: ExpansionRules) -> Result<Grok, AllocError>
        ensures { IfOk result (λ filter. filter ≡ spec.grok_start rules) }
    {
        let tag_on_failure = Text::of(alloc, "_grokparsefailure")?;
        Ok(Grok {
            rules,
            fields: Items::new(alloc),
            break_on_match: true,
            keep_empty_captures: false,
            tag_on_failure,
            options: Options::none(alloc),
        })
    }

    // What the rules were made of already, and what every filter has.
    fn set_further(
        &mut self,
        alloc: Global,
        name: &str,
        value: &SettingValue,
    ) -> Result<(), FromFault>
        ensures { Leaves result (spec.further_set name.now value.now self.old) self.new }
    {
        match name {
            "pattern_definitions" => not_kept(read_definitions(alloc, name, value)),
            "named_captures_only" => not_kept(read_flag(alloc, name, value)),
            "overwrite" => not_kept(read_paths(alloc, name, value)),
            "target" => not_kept(read_path(alloc, name, value)),
            _ => set_option(&mut self.options, alloc, name, value),
        }
    }

    /// The event with what the patterns find in its fields, and with the options. The patterns of a field
    /// are tried in their order, on a list item by item; the first match ends the filter where
    /// `break_on_match` says so. An event in which nothing matches, or which can't hold what was found,
    /// gets the tag of a failure and is not matched.
    pub fn apply(&mut self, event: Event) -> Result<Applied, AllocError>
        ensures applied { IfOk result (λ applied. applied ≡ spec.grokked self.old event) }
        ensures same { self.new ≡ self.old }
    {
        let mut event = event;
        let how = self.how();
        let fine = search_fields(&mut self.fields, how, &mut event)?;
        finish(event, fine, &self.options, &self.tag_on_failure)
    }

    fn how(&self) -> SearchOptions
        ensures { result ≡ spec.how self.now }
    {
        SearchOptions {
            ends: self.break_on_match,
            keep_empty: self.keep_empty_captures,
        }
    }
}

/// What became of the search of a field.
#[derive(Clone, Copy)]
pub enum Searched {
    /// Nothing matched.
    Missed,
    /// Something matched, and the event could not hold what was found.
    Failed,
    /// Something matched, and what was found was put into the event.
    Matched,
}

impl Searched {
    // Whether the search ends with it.
    fn ends(self, how: SearchOptions) -> bool
        ensures { result ≡ spec.ends how self }
    {
        match self {
            Searched::Missed => false,
            Searched::Failed => true,
            Searched::Matched => how.ends,
        }
    }

    // Whether something matched, here or before.
    fn matched_by_now(self, before: bool) -> bool
        ensures { result ≡ spec.matched_by_now before self }
    {
        match self {
            Searched::Missed | Searched::Failed => before,
            Searched::Matched => true,
        }
    }
}

// Whether something matched, and the event could hold what was found.
fn search_fields(
    fields: &mut Items<FieldPatterns>,
    how: SearchOptions,
    event: &mut Event,
) -> Result<bool, AllocError>
    ensures done { IfOk result (λ fine. tried fine event.new ≡ spec.searched how fields.old false
        event.old) }
    ensures same { fields.new ≡ fields.old }
{
    let mut matched = false;
    for index in 0..fields.len() {
        let found = search_at(fields, index, how, event)?;
        if found.ends(how) {
            return Ok(found.matched_by_now(false));
        }
        matched = found.matched_by_now(matched);
    }
    Ok(matched)
}

fn search_at(
    fields: &mut Items<FieldPatterns>,
    index: usize,
    how: SearchOptions,
    event: &mut Event,
) -> Result<Searched, AllocError>
    requires { index < length fields.old }
    ensures done { IfOk result (λ found. (f : Way × List Said) → slice_get fields.old index ≡ Some f
        → spec.found_in found event.new ≡ spec.field_searched how f event.old) }
    ensures missed { IfOk result (λ found. found ≡ Searched.Missed → event.new ≡ event.old) }
    ensures same { fields.new ≡ fields.old }
{
    match fields.get_mut(index) {
        Some(field) => search_field(field, how, event),
        None => Ok(Searched::Missed),
    }
}

fn search_field(
    field: &mut FieldPatterns,
    how: SearchOptions,
    event: &mut Event,
) -> Result<Searched, AllocError>
    ensures done { IfOk result (λ found. spec.found_in found event.new ≡ spec.field_searched how
        field.old event.old) }
    ensures missed { IfOk result (λ found. found ≡ Searched.Missed → event.new ≡ event.old) }
    ensures same { field.new ≡ field.old }
{
    let finds = finds_in(field, how, event)?;
    if !finds.matched {
        return Ok(Searched::Missed);
    }
    let alloc = field.1.allocator();
    if put_all(alloc, field.1.as_slice(), finds.puts, event)? {
        Ok(Searched::Matched)
    } else {
        Ok(Searched::Failed)
    }
}

fn finds_in(
    field: &mut FieldPatterns,
    how: SearchOptions,
    event: &Event,
) -> Result<Finds, AllocError>
    ensures found { IfOk result (λ finds. finds ≡ spec.finds_in how field.old event.now) }
    ensures same { field.new ≡ field.old }
{
    let alloc = field.1.allocator();
    match event.get(&field.0) {
        Some(value) => search_value(alloc, &mut field.1, how, value),
        None => Ok(Finds::none(alloc)),
    }
}
