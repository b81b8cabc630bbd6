// Regular expressions that clauses see, and the spans of a match.
ghost use Rattle.std.specs.Prelude.{◌≡◌, ◌+◌, ◌*◌, ◌^◌, ◌≤◌, option_map, IfOk, IfErr, IsOk, IfSome, None};
ghost use Rattle.regex_hir.specs.Find.{find_str, find_all_str};
ghost use Rattle.regex.specs.Replace.{replaced_by};
ghost use Rattle.pattern_box.specs.Replacements.{substituted_by};
ghost use Rattle.pattern_box.specs.Spans.{spans_of, AreSpansIn};
ghost use Rattle.pattern_box.specs.Patterns.{pattern_re, compiled_bytes, IsReadFrom, IsRefusal, IsSamePattern, pattern_groups};

use crate::fault::PatternFault;
use crate::matcher::Matcher;
use crate::replacement::ReplacementPart;
use plain_data::{Items, Text};
use std::alloc::{AllocError, Global};
use std::marker::Model;

/// The span of the whole match, and then that of each group, by its first byte and the byte behind
/// it. It is `None` where the group took no part.
pub type Spans = Items<Option<(usize, usize)>>;

/// A list of patterns.
pub type Patterns = Items<Pattern>;

/// A regular expression of the crate `regex`, over text, with all that its searches need.
pub struct Pattern {
    matcher: Matcher,
}

impl Model for Pattern {
    ghost use Rattle.std.specs.Coded.{codes};
    ghost use Rattle.regex_hir.specs.contracts.hir.Hir as tree;
    ghost use Rattle.pattern_box.specs.Patterns.{Expression};
    ghost use Rattle.pattern_box.specs.Matchers.{shown};

    ghost Value = { Expression };

    ghost coded = { Prim.hlevel (codes, tree.the_row.coded) };

    ghost view = { λ pattern. shown pattern.matcher };
}

impl Pattern {
    /// Reads `text` by the grammar of `regex`, with its default flags, and compiles it.
    /// `BadPattern` comes for a text of more than 65,536 bytes. For another text it comes only where
    /// the grammar reads no pattern, or one that nests more than 250 deep. `Memory` may come for any
    /// text of at most 65,536 bytes, and does where the compiled form would exceed 10 MiB, not counting
    /// the two states with which each one begins.
    pub fn new(alloc: Global, text: &str) -> Result<Pattern, PatternFault>
        ensures read { IfOk result (IsReadFrom text.now) }
        ensures refused { IfErr result (IsRefusal text.now) }
        ensures limit { IfOk result (λ pattern. compiled_bytes pattern ≤ 10 * 2 ^ 20 + 24) }
    {
        match Matcher::new(alloc, text) {
            Ok(matcher) => Ok(Pattern { matcher }),
            Err(fault) => Err(fault),
        }
    }

    /// The spans of the leftmost match in `text`, with its groups, or `None` where nothing matches.
    /// The match is that of `find_str` of `regex`, and its groups are those of `group_of`. Each span
    /// lies in `text` and can cut it. The list is all the memory that the call takes, so where nothing
    /// matches it takes none.
    pub fn spans(&mut self, text: &str) -> Result<Option<Spans>, AllocError>
        ensures found { IfOk result (λ found. found
            ≡ option_map (spans_of (pattern_groups self.old)) (find_str (pattern_re self.old) text.now 0)) }
        ensures inside { IfOk result (λ found. IfSome found (AreSpansIn text.now)) }
        ensures without_match { find_str (pattern_re self.old) text.now 0 ≡ None → IsOk result }
        ensures same { IsSamePattern self.old self.new }
    {
        self.matcher.spans(text)
    }

    /// `text` with each match replaced by `with`, taken literally. The matches are those of
    /// `find_all_str` of `regex`: from the left, with no overlap, and no empty one where the last
    /// ended.
    pub fn replace_all(&mut self, text: &str, with: &str) -> Result<Text, AllocError>
        ensures value { IfOk result (λ replaced. replaced
            ≡ replaced_by (λ _. with.now) text.now 0 (find_all_str (pattern_re self.old) text.now)) }
        ensures same { IsSamePattern self.old self.new }
    {
        self.matcher.replace_all(text, with)
    }

    /// `text` with the parts in the place of each match, where a group stands for what it matched
    /// there. The matches are those of `replace_all`. For a text of which the pattern was made, the
    /// matches are those that the grammar of `regex` gives to it.
    pub fn substitute(&mut self, text: &str, parts: &[ReplacementPart]) -> Result<Text, AllocError>
        ensures value { IfOk result (λ replaced. replaced
            ≡ substituted_by (pattern_re self.old) parts.now text.now) }
        ensures same { IsSamePattern self.old self.new }
    {
        self.matcher.substitute(text, parts)
    }
}

// Written out, so that a caller's proof sees one call.
impl Drop for Pattern {
    fn drop(self) {
        let Pattern { matcher: _matcher } = self;
    }
}
