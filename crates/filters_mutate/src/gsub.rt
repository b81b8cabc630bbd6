// The operation gsub: matches of a pattern in a text are replaced.
ghost use Rattle.std.specs.Prelude.{◌≡◌, ◌<◌, ◌∷◌, [], length, slice_get, Some, true, IfOk, IfErr};
ghost use Rattle.std.specs.Option.{option_copied};
ghost use Rattle.event_tree.specs.Paths.{over};
ghost use Rattle.pattern_box.specs.Patterns.{IsRefusal, is_pattern};
ghost use Rattle.pattern_box.specs.Replacements.{substituted};
ghost use Rattle.filter_settings.specs.declared.field_changes.Change.TheVariants as c;
ghost use Rattle.filter_settings.specs.Settings.{Gives};
ghost use Rattle.filter_settings.specs.Trying.{tried, all_tried};
ghost use Rattle.filters_mutate.specs.Gsub as spec;
ghost use Rattle.filters_mutate.specs.Operations as operations;
ghost use Rattle.filters_mutate.specs.Settings as settings;
ghost use Rattle.filters_mutate.specs.declared.gsub.Substitution.{Substitution as Said};

use crate::replacement::read_replacement;
use event_text::path_in;
use event_tree::{Event, Items, Path, Text, Value};
use filter_settings::{
    Change, FromFault, SettingValue, bad_pattern, change_at, read_texts, wanted,
};
use pattern_box::{Pattern, PatternFault, Replacement};
use std::alloc::{AllocError, Global};
use std::marker::Model;

/// What one part of `gsub` says.
#[derive(Drop)]
pub struct Substitution {
    /// The field whose text is searched.
    pub field: Path,
    /// The text of the pattern.
    pub pattern: Text,
    /// What stands in the place of each match.
    pub replacement: Replacement,
}

/// A substitution with its pattern, compiled once. Contracts see what it says.
pub struct Gsub {
    says: Substitution,
    pattern: Pattern,
}

// Written out, so that it is one call wherever an error is handed on while it is held.
impl Drop for Gsub {
    fn drop(self) {
        let Gsub {
            says: _says,
            pattern: _pattern,
        } = self;
    }
}

impl Model for Gsub {
    ghost use Rattle.pattern_box.specs.Patterns.{IsReadFrom};
    ghost use Rattle.filters_mutate.specs.declared.gsub.Substitution.{Substitution};

    ghost Value = { Substitution };

    ghost view = { λ gsub. gsub.says };

    ghost invariant = { λ gsub. IsReadFrom gsub.says.pattern gsub.pattern };
}

impl Gsub {
    /// The substitution with its pattern. A refusal is that of `Pattern::new`.
    pub fn new(alloc: Global, says: Substitution) -> Result<Gsub, PatternFault>
        ensures made { IfOk result (λ gsub. gsub ≡ says) }
        ensures pattern { IfOk result (λ gsub. is_pattern says.pattern ≡ true) }
        ensures refused { IfErr result (IsRefusal says.pattern) }
    {
        let pattern = Pattern::new(alloc, says.pattern.as_str())?;
        Ok(Gsub { says, pattern })
    }

    fn act(&mut self, event: &mut Event) -> Result<bool, AllocError>
        ensures done { IfOk result (λ fine. tried fine event.new ≡ operations.substituted_at
            self.old event.old) }
        ensures same { self.new ≡ self.old }
    {
        let change = match event.get(&self.says.field) {
            Some(Value::Text(text)) => Change::Set(Value::Text(self.replaced(text.as_str())?)),
            _ => Change::Keep,
        };
        change_at(event, &self.says.field, change)
    }

    fn replaced(&mut self, text: &str) -> Result<Text, AllocError>
        ensures value { IfOk result (λ replaced. replaced ≡ substituted self.old.pattern
            self.old.replacement text.now) }
        ensures same { self.new ≡ self.old }
    {
        self.pattern
            .substitute(text, self.says.replacement.as_slice())
    }
}

/// The substitutions in their order, up to the first that fails.
pub(crate) fn substitute_all(gsubs: &mut Items<Gsub>, event: &mut Event) -> Result<bool, AllocError>
    ensures done { IfOk result (λ fine. tried fine event.new ≡ all_tried operations.substituted_at
        gsubs.old event.old) }
    ensures same { gsubs.new ≡ gsubs.old }
{
    for index in 0..gsubs.len() {
        if !substitute_at(gsubs, index, event)? {
            return Ok(false);
        }
    }
    Ok(true)
}

fn substitute_at(
    gsubs: &mut Items<Gsub>,
    index: usize,
    event: &mut Event,
) -> Result<bool, AllocError>
    requires { index < length gsubs.old }
    ensures done { IfOk result (λ fine. (g : Said) → slice_get gsubs.old index ≡ Some g
        → tried fine event.new ≡ operations.substituted_at g event.old) }
    ensures same { gsubs.new ≡ gsubs.old }
{
    match gsubs.get_mut(index) {
        Some(gsub) => gsub.act(event),
        None => Ok(true),
    }
}

/// The substitutions that a setting says: three texts each, a field, a pattern and a replacement. The
/// fault is `WrongKind` where the value is no such list, and else `BadPattern` where a pattern is
/// refused.
pub(crate) fn read_gsub(
    alloc: Global,
    name: &str,
    value: &SettingValue,
) -> Result<Items<Gsub>, FromFault>
    ensures { Gives result (settings.gsub_of name.now value.now) }
{
    let texts = read_texts(alloc, name, value)?;
    let says = wanted(alloc, name, read_substitutions(alloc, texts.as_slice())?)?;
    compiled(alloc, name, says)
}

fn read_substitutions(
    alloc: Global,
    texts: &[Text],
) -> Result<Option<Items<Substitution>>, AllocError>
    ensures { IfOk result (λ found. found ≡ spec.substitutions texts.now) }
{
    let mut found = Items::new(alloc);
    let mut at = 0;
    while texts.len() - at >= 3 {
        let says = read_substitution(alloc, &texts[at], &texts[at + 1], &texts[at + 2])?;
        let Some(says) = says else {
            return Ok(None);
        };
        found.push(says)?;
        at += 3;
    }
    if at == texts.len() {
        Ok(Some(found))
    } else {
        Ok(None)
    }
}

fn read_substitution(
    alloc: Global,
    field: &Text,
    pattern: &Text,
    replacement: &Text,
) -> Result<Option<Substitution>, AllocError>
    ensures { IfOk result (λ found. found ≡ spec.substitution field.now pattern.now
        replacement.now) }
{
    let Some(field) = path_in(alloc, field.as_str())? else {
        return Ok(None);
    };
    let pattern = pattern.copy()?;
    let replacement = read_replacement(alloc, replacement.as_str())?;
    Ok(Some(Substitution {
        field,
        pattern,
        replacement,
    }))
}

// Each with its pattern, where none is refused.
fn compiled(alloc: Global, name: &str, says: Items<Substitution>) -> Result<Items<Gsub>, FromFault>
    ensures { Gives result (settings.with_patterns name.now says) }
{
    let mut gsubs = Items::with_capacity(alloc, says.len())?;
    for one in says.into_vec() {
        match Gsub::new(alloc, one) {
            Ok(gsub) => gsubs.push(gsub)?,
            Err(PatternFault::BadPattern) => return Err(bad_pattern(alloc, name)),
            Err(PatternFault::Memory) => return Err(FromFault::Memory),
        }
    }
    Ok(gsubs)
}
