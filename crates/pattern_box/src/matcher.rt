// A compiled pattern with the buffers that its searches write to.
ghost use Rattle.std.specs.Prelude.{◌≡◌, ◌∷◌, ◌+◌, ◌-◌, ◌*◌, ◌^◌, ◌≤◌, ◌++◌, true, map, length, vec_len, string_bytes, option_map, IfOk, IfErr, OnOk, IsOk, IfSome, IsUtf8, Some, None};
ghost use Rattle.std.specs.List.{range_with_len};
ghost use Rattle.regex_hir.specs.Find.{find, find_str, find_all_str};
ghost use Rattle.regex_hir.specs.Meaning.{meaning};
ghost use Rattle.regex_hir.specs.Text.{is_boundary};
ghost use Rattle.regex_vm.specs.Found.{span, group_cells};
ghost use Rattle.regex.specs.Search.{next_match, group_span, LiesWithin};
ghost use Rattle.regex.specs.Replace.{replaced_by, bytes_of};
ghost use Rattle.regex.specs.Utf8.{MatchesText, CutsCleanly, IsMatchSpan};

use crate::fault::PatternFault;
use crate::pattern::Spans;
use crate::replacement::ReplacementPart;
use crate::searcher::Searcher;
use plain_data::{Items, Text};
use regex_syntax::{Config, Parsed};
use std::alloc::{AllocError, Global};

/// The most bytes that the text of a pattern may have.
const MAX_BYTES: usize = 65_536;

/// What a pattern is made of: its searcher, and what the searches write to.
pub struct Matcher {
    pub(crate) searcher: Searcher,
    /// From group 1 on, a start and an end for each group: a position plus one, or 0 for none.
    cells: Vec<usize>,
    /// How many groups there are, the whole match included.
    pub(crate) groups: usize,
    ghost whole_characters: { MatchesText (meaning searcher.hir) },
    ghost slots: { searcher.dfa.nfa.slot_count ≡ 2 * groups },
    ghost width: { vec_len cells + 2 ≡ 2 * groups },
}

impl Matcher {
    ghost use Rattle.pattern_box.specs.Matchers.{shown};
    ghost use Rattle.pattern_box.specs.Patterns.{pattern_re, compiled_bytes, IsReadFrom, IsRefusal, IsSamePattern, pattern_groups};
    ghost use Rattle.pattern_box.specs.Replacements.{substituted_by, cells_parts};
    ghost use Rattle.pattern_box.specs.Spans.{spans_of, spans_from_cells, AreSpansIn};

    // As `Pattern::new`.
    pub(crate) fn new(alloc: Global, text: &str) -> Result<Matcher, PatternFault>
        ensures read { IfOk result (λ matcher. IsReadFrom text.now (shown matcher)) }
        ensures refused { IfErr result (IsRefusal text.now) }
        ensures limit { IfOk result
            (λ matcher. compiled_bytes (shown matcher) ≤ 10 * 2 ^ 20 + 24) }
    {
        if text.len() > MAX_BYTES {
            return Err(PatternFault::BadPattern);
        }
        let Parsed { hir, names } = match regex_syntax::parse(alloc, text, &Config::default()) {
            Ok(parsed) => parsed,
            Err(error) => return Err(PatternFault::of_parser(error.kind)),
        };
        let groups = names.len();
        let Ok(count) = u32::try_from(groups) else {
            return Err(PatternFault::Memory);
        };
        let searcher = Searcher::new(alloc, hir, count)?;
        let cells = vec![in alloc; 0usize; 2 * groups - 2]?;
        Ok(Matcher {
            searcher,
            cells,
            groups,
        })
    }

    // As `Pattern::spans`.
    pub(crate) fn spans(&mut self, text: &str) -> Result<Option<Spans>, AllocError>
        ensures found { IfOk result (λ found. found
            ≡ option_map (spans_of (pattern_groups (shown self.old))) (find_str (pattern_re (shown self.old)) text.now 0)) }
        ensures inside { IfOk result (λ found. IfSome found (AreSpansIn text.now)) }
        ensures without_match { find_str (pattern_re (shown self.old)) text.now 0 ≡ None → IsOk
            result }
        ensures same { IsSamePattern (shown self.old) (shown self.new) }
    {
        match self.find(text, 0) {
            Some(whole) => Ok(Some(self.spans_of_match(text, whole)?)),
            None => Ok(None),
        }
    }

    // As `Pattern::replace_all`.
    pub(crate) fn replace_all(&mut self, text: &str, with: &str) -> Result<Text, AllocError>
        ensures value { IfOk result (λ replaced. replaced
            ≡ replaced_by (λ _. with.now) text.now 0 (find_all_str (pattern_re (shown self.old)) text.now)) }
        ensures same { IsSamePattern (shown self.old) (shown self.new) }
    {
        let alloc = *self.cells.allocator();
        let mut parts = Items::new(alloc);
        parts.push(ReplacementPart::Text(Text::of(alloc, with)?))?;
        self.substitute(text, parts.as_slice())
    }

    // As `Pattern::substitute`.
    pub(crate) fn substitute(
        &mut self,
        text: &str,
        parts: &[ReplacementPart],
    ) -> Result<Text, AllocError>
        ensures value { IfOk result (λ replaced. replaced
            ≡ substituted_by (pattern_re (shown self.old)) parts.now text.now) }
        ensures same { IsSamePattern (shown self.old) (shown self.new) }
    {
        let mut replaced = String::with_capacity(*self.cells.allocator(), text.len())?;
        let mut last = 0;
        let mut after = 0;
        'matches: while let Some((start, end)) = self.next(text, after) {
            replaced.push_str(&text[last..start])?;
            self.add_parts(&mut replaced, text, (start, end), parts)?;
            last = end;
            after = last + 1;
        }
        replaced.push_str(&text[last..])?;
        Ok(Text::from_string(replaced))
    }

    // Adds what the parts stand for at the match that spans `whole` and whose groups `cells` has.
    fn add_parts(
        &self,
        to: &mut String,
        text: &str,
        whole: (usize, usize),
        parts: &[ReplacementPart],
    ) -> Result<(), AllocError>
        requires { IsMatchSpan true text.now whole }
        ensures { OnOk result (string_bytes to.new
            ≡ string_bytes to.old ++ cells_parts text.now whole self.now.cells.items parts.now) }
    {
        for part in parts {
            match part {
                ReplacementPart::Text(written) => to.push_str(written.as_str())?,
                ReplacementPart::Group(index) => {
                    to.push_str(self.group_text(text, whole, *index))?;
                }
            }
        }
        Ok(())
    }

    // What the group with this number matched; nothing where it took no part, or isn't there.
    fn group_text<'t>(&self, text: &'t str, whole: (usize, usize), index: usize) -> &'t str
        requires { IsMatchSpan true text.now whole }
        ensures { result.now ≡ bytes_of text.now
            (group_span true text.now whole self.now.cells.items index) }
    {
        if index >= self.groups {
            return "";
        }
        match group(text.as_bytes(), whole, self.cells.as_slice(), index) {
            Some((start, end)) => &text[start..end],
            None => "",
        }
    }

    // The span of the match after the one that ended at `after - 1`, or of the first match.
    fn next(&mut self, text: &str, after: usize) -> Option<(usize, usize)>
        ensures found { result
            ≡ option_map span (next_match true (pattern_re (shown self.old)) text.now after) }
        ensures cells { IfSome (next_match true (pattern_re (shown self.old)) text.now after)
            (λ m. self.new.cells.items ≡ group_cells m (vec_len self.old.cells)) }
        ensures within { IfSome result
            (λ s. LiesWithin (after - 1) (length text.now) s × (after ≤ s.1)) }
        ensures cuts { IfSome result (CutsCleanly text.now) }
        ensures same { IsSamePattern (shown self.old) (shown self.new) }
    {
        let found = self.find(text, after.saturating_sub(1))?;
        if found.1 < after {
            return self.find(text, after);
        }
        Some(found)
    }

    // The span of the leftmost match from `start` on, whose groups `cells` then has.
    fn find(&mut self, text: &str, start: usize) -> Option<(usize, usize)>
        ensures found { result ≡ option_map span
            (find_str (pattern_re (shown self.old)) text.now start) }
        ensures cells { IfSome (find_str (pattern_re (shown self.old)) text.now start)
            (λ m. self.new.cells.items ≡ group_cells m (vec_len self.old.cells)) }
        ensures within { IfSome result (LiesWithin start (length text.now)) }
        ensures cuts { IfSome result (CutsCleanly text.now) }
        ensures same { IsSamePattern (shown self.old) (shown self.new) }
    {
        self.find_in(text.as_bytes(), start)
    }

    // The same in the bytes of a text: a match that starts inside a character is passed over.
    fn find_in(&mut self, hay: &[u8], start: usize) -> Option<(usize, usize)>
        requires { IsUtf8 hay.now }
        ensures found { result ≡ option_map span
            (find_str (pattern_re (shown self.old)) hay.now start) }
        ensures cells { IfSome (find_str (pattern_re (shown self.old)) hay.now start)
            (λ m. self.new.cells.items ≡ group_cells m (vec_len self.old.cells)) }
        ensures within { IfSome result (LiesWithin start (length hay.now)) }
        ensures cuts { IfSome result (CutsCleanly hay.now) }
        ensures same { IsSamePattern (shown self.old) (shown self.new) }
    {
        if start > hay.len() {
            return None;
        }
        let mut at = start;
        loop {
            let (from, end) = self.find_in_bytes(hay, at)?;
            if begins_character(hay, from) {
                return Some((from, end));
            }
            at = from + 1;
        }
    }

    // The same, where a match may start at any byte.
    fn find_in_bytes(&mut self, hay: &[u8], start: usize) -> Option<(usize, usize)>
        requires { start ≤ length hay.now }
        ensures found { result ≡ option_map span
            (find (pattern_re (shown self.old)) hay.now start) }
        ensures cells { IfSome (find (pattern_re (shown self.old)) hay.now start)
            (λ m. self.new.cells.items ≡ group_cells m (vec_len self.old.cells)) }
        ensures same { IsSamePattern (shown self.old) (shown self.new) }
    {
        self.searcher.find(hay, start, self.cells.as_mut_slice())
    }

    // The spans of the match that spans `whole` and whose groups `cells` has.
    fn spans_of_match(&self, text: &str, whole: (usize, usize)) -> Result<Spans, AllocError>
        requires { IsMatchSpan true text.now whole }
        ensures value { IfOk result (λ spans. spans
            ≡ spans_from_cells (pattern_groups (shown self.now)) text.now whole self.now.cells.items) }
        ensures inside { IfOk result (AreSpansIn text.now) }
    {
        let mut spans = Items::with_capacity(*self.cells.allocator(), self.groups)?;
        for index in 0..self.groups {
            spans.push(group(text.as_bytes(), whole, self.cells.as_slice(), index))?;
        }
        Ok(spans)
    }
}

// Written out, so that a caller's proof sees one call and not the drop of each field.
impl Drop for Matcher {
    fn drop(self) {
        let Matcher {
            searcher: _searcher,
            cells: _cells,
            groups: _groups,
        } = self;
    }
}

// Whether the position is the end of the text, or a character begins there.
fn begins_character(hay: &[u8], at: usize) -> bool
    ensures { result ≡ is_boundary hay.now at }
{
    if at >= hay.len() {
        return true;
    }
    hay[at] < 0x80 || hay[at] > 0xBF
}

// The span of the group with this number, where 0 is the whole match.
fn group(hay: &[u8], whole: (usize, usize), cells: &[usize], index: usize) -> Option<(usize, usize)>
    requires whole { IsMatchSpan true hay.now whole }
    requires within { 2 * index ≤ length cells.now }
    ensures value { result ≡ group_span true hay.now whole cells.now index }
    ensures inside { IfSome result (λ s. LiesWithin 0 (length hay.now) s × CutsCleanly hay.now s) }
{
    if index == 0 {
        return Some(whole);
    }
    let first = cells[2 * index - 2];
    let last = cells[2 * index - 1];
    if first == 0 || last < first || last - 1 > hay.len() {
        return None;
    }
    if !begins_character(hay, first - 1) || !begins_character(hay, last - 1) {
        return None;
    }
    Some((first - 1, last - 1))
}
