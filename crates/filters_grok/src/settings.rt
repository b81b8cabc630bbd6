// How the settings of the filter are read.
ghost use Rattle.std.specs.Prelude.{◌≡◌, ◌<◌, IfOk};
ghost use Rattle.event_text.specs.Options.{each_in};
ghost use Rattle.filter_settings.specs.Settings.{Gives, wanted};
ghost use Rattle.filters_grok.specs.Settings as spec;
ghost use Rattle.grok_patterns.specs.Expansions.{known_patterns};

use crate::grok_pattern::GrokPattern;
use event_tree::{Items, Names, Pairs, Path, Text};
use filter_settings::{
    FromFault, SettingValue, Settings, bad_pattern, hash_of, read_field_lists, read_flag,
    read_path, read_paths, text_item, unless_refused, wanted,
};
use grok_patterns::{
    Expanded, ExpansionRules, PatternLibrary, expand, known_patterns, read_pieces,
};
use pattern_box::PatternFault;
use std::alloc::{AllocError, Global};

/// A field, and the patterns that are tried on it.
pub type FieldPatterns = (Path, Items<GrokPattern>);

/// What patterns are expanded by: the settings that stand anywhere, where they can be read.
pub(crate) fn rules_of(settings: &Settings) -> Result<ExpansionRules, AllocError>
    ensures { IfOk result (λ rules. rules ≡ spec.rules_of settings.now.list) }
{
    let alloc = settings.list.allocator();
    let all_kept = all_kept(alloc, settings)?;
    let known = known_in(alloc, all_kept, settings)?;
    let target = target_in(alloc, settings)?;
    let overwrite = overwrite_in(alloc, settings)?;
    Ok(ExpansionRules {
        known,
        all_kept,
        target,
        overwrite,
    })
}

fn known_in(
    alloc: Global,
    all_kept: bool,
    settings: &Settings,
) -> Result<PatternLibrary, AllocError>
    ensures { IfOk result (λ known. known
        ≡ known_patterns all_kept (spec.definitions_in settings.now.list)) }
{
    let definitions = definitions_in(alloc, settings)?;
    known_patterns(alloc, all_kept, definitions.as_slice())
}

fn all_kept(alloc: Global, settings: &Settings) -> Result<bool, AllocError>
    ensures { IfOk result (λ kept. kept ≡ spec.all_kept settings.now.list) }
{
    let name = "named_captures_only";
    match settings.get(name) {
        Some(value) => match unless_refused(read_flag(alloc, name, value))? {
            Some(named_only) => Ok(!named_only),
            None => Ok(false),
        },
        None => Ok(false),
    }
}

fn target_in(alloc: Global, settings: &Settings) -> Result<Option<Path>, AllocError>
    ensures { IfOk result (λ target. target ≡ spec.target_in settings.now.list) }
{
    match settings.get("target") {
        Some(value) => unless_refused(read_path(alloc, "target", value)),
        None => Ok(None),
    }
}

fn overwrite_in(alloc: Global, settings: &Settings) -> Result<Items<Path>, AllocError>
    ensures { IfOk result (λ paths. paths ≡ spec.overwrite_in settings.now.list) }
{
    match settings.get("overwrite") {
        Some(value) => match unless_refused(read_paths(alloc, "overwrite", value))? {
            Some(paths) => Ok(paths),
            None => Ok(Items::new(alloc)),
        },
        None => Ok(Items::new(alloc)),
    }
}

fn definitions_in(alloc: Global, settings: &Settings) -> Result<Pairs, AllocError>
    ensures { IfOk result (λ found. found ≡ spec.definitions_in settings.now.list) }
{
    match settings.get("pattern_definitions") {
        Some(value) => match definitions_of(alloc, value)? {
            Some(found) => Ok(found),
            None => Ok(Items::new(alloc)),
        },
        None => Ok(Items::new(alloc)),
    }
}

/// Names with a pattern each.
pub(crate) fn read_definitions(
    alloc: Global,
    name: &str,
    value: &SettingValue,
) -> Result<Pairs, FromFault>
    ensures { Gives result (wanted name.now (spec.definitions_of value.now)) }
{
    wanted(alloc, name, definitions_of(alloc, value)?)
}

fn definitions_of(alloc: Global, value: &SettingValue) -> Result<Option<Pairs>, AllocError>
    ensures { IfOk result (λ found. found ≡ spec.definitions_of value.now) }
{
    match hash_of(value) {
        Some(entries) => definitions(alloc, entries),
        None => Ok(None),
    }
}

#[tactic(auto, using(filter_settings::proofs::Steps::each))]
fn definitions(alloc: Global, entries: &[(Text, SettingValue)]) -> Result<Option<Pairs>, AllocError>
    ensures { IfOk result (λ found. found ≡ each_in spec.definition entries.now) }
{
    let mut found = Pairs::new(alloc);
    for entry in entries {
        let Some(pair) = definition(alloc, &entry.0, &entry.1)? else {
            return Ok(None);
        };
        found.push(pair)?;
    }
    Ok(Some(found))
}

fn definition(
    alloc: Global,
    name: &Text,
    value: &SettingValue,
) -> Result<Option<(Text, Text)>, AllocError>
    ensures { IfOk result (λ pair. pair ≡ spec.definition (name.now, value.now)) }
{
    match text_item(alloc, value)? {
        Some(text) => Ok(Some((name.copy()?, text))),
        None => Ok(None),
    }
}

/// The fields with their patterns.
pub(crate) fn read_match(
    alloc: Global,
    rules: &ExpansionRules,
    name: &str,
    value: &SettingValue,
) -> Result<Items<FieldPatterns>, FromFault>
    ensures { Gives result (spec.match_of rules.now name.now value.now) }
{
    let fields = read_field_lists(alloc, name, value)?;
    match compiled(alloc, rules, fields.as_slice())? {
        Some(fields) => Ok(fields),
        None => Err(bad_pattern(alloc, name)),
    }
}

#[tactic(auto, using(filter_settings::proofs::Steps::each))]
fn compiled(
    alloc: Global,
    rules: &ExpansionRules,
    fields: &[(Path, Names)],
) -> Result<Option<Items<FieldPatterns>>, AllocError>
    ensures { IfOk result (λ found. found ≡ each_in (spec.field_patterns rules.now) fields.now) }
{
    let mut found = Items::new(alloc);
    for field in fields {
        let Some(patterns) = field_patterns(alloc, rules, &field.0, field.1.as_slice())? else {
            return Ok(None);
        };
        found.push(patterns)?;
    }
    Ok(Some(found))
}

fn field_patterns(
    alloc: Global,
    rules: &ExpansionRules,
    field: &Path,
    texts: &[Text],
) -> Result<Option<FieldPatterns>, AllocError>
    ensures { IfOk result (λ found. found ≡ spec.field_patterns rules.now (field.now, texts.now)) }
{
    match patterns(alloc, rules, texts)? {
        Some(patterns) => Ok(Some((field.copy()?, patterns))),
        None => Ok(None),
    }
}

#[tactic(auto, using(filter_settings::proofs::Steps::each))]
fn patterns(
    alloc: Global,
    rules: &ExpansionRules,
    texts: &[Text],
) -> Result<Option<Items<GrokPattern>>, AllocError>
    ensures { IfOk result (λ found. found ≡ each_in (spec.pattern_of rules.now) texts.now) }
{
    let mut found = Items::new(alloc);
    for text in texts {
        let Some(pattern) = pattern_of(alloc, rules, text.as_str())? else {
            return Ok(None);
        };
        found.push(pattern)?;
    }
    Ok(Some(found))
}

/// The pattern that a text is, or `None`: where it can't be expanded, or what it stands for is no regular
/// expression.
pub fn pattern_of(
    alloc: Global,
    rules: &ExpansionRules,
    text: &str,
) -> Result<Option<GrokPattern>, AllocError>
    ensures { IfOk result (λ found. found ≡ spec.pattern_of rules.now text.now) }
{
    let pieces = read_pieces(alloc, rules.all_kept, text)?;
    match expand(alloc, rules, pieces.as_slice())? {
        Some(expanded) => if_pattern(alloc, expanded),
        None => Ok(None),
    }
}

// The pattern of what a text stands for, where that is a regular expression.
fn if_pattern(alloc: Global, says: Expanded) -> Result<Option<GrokPattern>, AllocError>
    ensures { IfOk result (λ found. found ≡ spec.if_pattern says) }
{
    match GrokPattern::new(alloc, says) {
        Ok(pattern) => Ok(Some(pattern)),
        Err(PatternFault::BadPattern) => Ok(None),
        Err(PatternFault::Memory) => Err(AllocError),
    }
}
