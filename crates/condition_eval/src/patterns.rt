// Compiling the patterns of a condition, in the order of the text.
ghost use Rattle.std.specs.Prelude.{◌≡◌, [], ◌∷◌, IfOk, IfErr, OnOk};
ghost use Rattle.pattern_box.specs.Patterns.{IsRefusal};
ghost use Rattle.condition_eval.specs.Made.{AreMadeOf, Added, FirstIsRefused, texts, texts_behind, pattern_text};

use config_tree::{Condition, Conjunction, Disjunction, MatchPattern};
use pattern_box::{Pattern, PatternFault, Patterns};
use plain_data::Text;
use std::alloc::Global;

/// One pattern for each `=~` and `!~` of a condition, in the order of the text.
///
/// A fault is that of the first text that is refused: the texts before it were made. The patterns are
/// what `eval` wants for this condition.
pub fn patterns_of(alloc: Global, condition: &Condition) -> Result<Patterns, PatternFault>
    ensures made { IfOk result (AreMadeOf condition.now) }
    ensures refused { IfErr result (λ fault. FirstIsRefused fault (texts condition.now)) }
{
    let mut patterns = Patterns::new(alloc);
    add(alloc, condition, &mut patterns)?;
    Ok(patterns)
}

// Adds the patterns of the condition.
#[tactic(auto, unfolding(crate::specs::Made::texts), using(config_tree::proofs::Folds::condition_folds))]
#[cycle(add)]
fn add(alloc: Global, condition: &Condition, patterns: &mut Patterns) -> Result<(), PatternFault>
    ensures made { OnOk result (Added (texts condition.now) patterns.old patterns.new) }
    ensures refused { IfErr result (λ fault. FirstIsRefused fault (texts condition.now)) }
{
    match condition {
        Condition::Not(part) => add(alloc, part.get(), patterns),
        Condition::Conjoined(first, rest) => {
            add(alloc, first.get(), patterns)?;
            add_conjoined(alloc, rest.as_slice(), patterns)
        }
        Condition::Disjoined(first, rest) => {
            add(alloc, first.get(), patterns)?;
            add_disjoined(alloc, rest.as_slice(), patterns)
        }
        Condition::Matched(_, _, written) => add_one(alloc, written, patterns),
        Condition::Operand(_)
        | Condition::Compared(_, _, _)
        | Condition::In(_, _)
        | Condition::NotIn(_, _) => Ok(()),
    }
}

// Adds those of what follows the first condition of a row of `and` and `nand`.
#[cycle(add)]
fn add_conjoined(
    alloc: Global,
    rest: &[(Conjunction, Condition)],
    patterns: &mut Patterns,
) -> Result<(), PatternFault>
    ensures made { OnOk result (Added (texts_behind rest.now) patterns.old patterns.new) }
    ensures refused { IfErr result (λ fault. FirstIsRefused fault (texts_behind rest.now)) }
{
    for part in rest {
        add(alloc, &part.1, patterns)?;
    }
    Ok(())
}

// Adds those of what follows the first condition of a row of `or` and `xor`.
#[cycle(add)]
fn add_disjoined(
    alloc: Global,
    rest: &[(Disjunction, Condition)],
    patterns: &mut Patterns,
) -> Result<(), PatternFault>
    ensures made { OnOk result (Added (texts_behind rest.now) patterns.old patterns.new) }
    ensures refused { IfErr result (λ fault. FirstIsRefused fault (texts_behind rest.now)) }
{
    for part in rest {
        add(alloc, &part.1, patterns)?;
    }
    Ok(())
}

fn add_one(
    alloc: Global,
    written: &MatchPattern,
    patterns: &mut Patterns,
) -> Result<(), PatternFault>
    ensures made { OnOk result (Added (pattern_text written.now ∷ []) patterns.old patterns.new) }
    ensures refused { IfErr result (IsRefusal (pattern_text written.now)) }
{
    match Pattern::new(alloc, text_of(written).as_str()) {
        Ok(pattern) => match patterns.push(pattern) {
            Ok(()) => Ok(()),
            Err(_) => Err(PatternFault::Memory),
        },
        Err(fault) => Err(fault),
    }
}

/// A string is a pattern as a regexp is.
fn text_of(written: &MatchPattern) -> &Text
    ensures { result.now ≡ pattern_text written.now }
{
    match written {
        MatchPattern::Regexp(text) | MatchPattern::Text(text) => text,
    }
}
