// What grok patterns stand for.
ghost use Rattle.std.specs.Prelude.{◌≡◌, ◌<◌, ◌++◌, ◌∷◌, [], length, option_map, map, string_bytes, IfOk, OnOk};
ghost use Rattle.grok_patterns.specs.Expansions as spec;
ghost use Rattle.grok_patterns.specs.Expansions.{went};
ghost use Rattle.grok_patterns.specs.Pieces.{pair_of};
ghost use Rattle.grok_patterns.specs.declared.piece.PatternPiece.TheVariants as piece;

use crate::library::LIBRARY;
use crate::piece::{Coercion, Field, PatternPiece, PatternPieces, read_pieces};
use crate::scan::Scan;
use event_text::path_in;
use event_tree::{Items, Path, Text};
use filter_settings::{is_same, path_under};
use std::alloc::{AllocError, Global};
use std::marker::Model;

/// The most bytes that a pattern may have once it is expanded.
const MAX_BYTES: usize = 65_536;

/// How deep names may stand in each other. A group that stands deeper is no pattern.
const MAX_DEPTH: usize = 250;

/// Patterns by name. Of two with one name the first counts.
pub type PatternLibrary = Items<(Text, PatternPieces)>;

/// What a pattern is expanded by.
#[derive(Drop)]
pub struct ExpansionRules {
    pub known: PatternLibrary,
    /// Whether a reference without a field is kept under its name.
    pub all_kept: bool,
    /// The field under which captures are kept.
    pub target: Option<Path>,
    /// The fields, with the target, that captures replace.
    pub overwrite: Items<Path>,
}

/// A group that is kept.
pub struct Capture {
    /// Its number, counted from 1.
    pub group: usize,
    /// Where it is kept, with the target.
    pub path: Path,
    pub coercion: Coercion,
    /// Whether it replaces what stands there.
    pub overwrites: bool,
}

// Written out, so that it is one call wherever an error is handed on while one is held.
impl Drop for Capture {
    fn drop(self) {
        let Capture {
            group: _,
            path: _path,
            coercion: _,
            overwrites: _,
        } = self;
    }
}

/// A regular expression, and which of its groups are kept.
pub struct Expanded {
    pub text: Text,
    pub captures: Items<Capture>,
}

// Written out, so that it is one call wherever an error is handed on while one is held.
impl Drop for Expanded {
    fn drop(self) {
        let Expanded {
            text: _text,
            captures: _captures,
        } = self;
    }
}

/// The regular expression that the pieces of a grok pattern stand for. A reference becomes a group
/// around what its name stands for: one with a number where it is kept, and one without otherwise.
///
/// The answer is `None` where a name isn't known or needs itself, a reference can't be read, a capture
/// stands where no group can begin, the name of a group is no path, or the expression has more than
/// 65,536 bytes.
#[tactic(auto, unfolding(crate::specs::Expansions::expanded))]
pub fn expand(
    alloc: Global,
    rules: &ExpansionRules,
    pieces: &[PatternPiece],
) -> Result<Option<Expanded>, AllocError>
    ensures { IfOk result (λ found. found ≡ spec.expanded rules.now pieces.now) }
{
    let mut draft = Draft::new(alloc);
    if add_pieces(rules, MAX_DEPTH, pieces, &mut draft)? {
        Ok(Some(draft.finished()))
    } else {
        Ok(None)
    }
}

// Pieces in which names stand at most so deep.
#[tactic(auto, using(crate::proofs::Adding::adding))]
#[cycle(add)]
fn add_pieces(
    rules: &ExpansionRules,
    depth: usize,
    pieces: &[PatternPiece],
    to: &mut Draft,
) -> Result<bool, AllocError>
    ensures { IfOk result (λ fine. went fine to.new
        ≡ spec.all_added (spec.added rules.now depth) pieces.now to.old) }
{
    for piece in pieces {
        if !add_piece(rules, depth, piece, to)? {
            return Ok(false);
        }
    }
    Ok(true)
}

#[cycle(add)]
fn add_piece(
    rules: &ExpansionRules,
    depth: usize,
    piece: &PatternPiece,
    to: &mut Draft,
) -> Result<bool, AllocError>
    ensures { IfOk result (λ fine. went fine to.new ≡ spec.added rules.now depth piece.now to.old) }
{
    match piece {
        PatternPiece::Written(text) => to.write(text.as_str()),
        PatternPiece::Group(name) => to.open_named(rules, name.as_str()),
        PatternPiece::Reference(name, field) => add_reference(rules, depth, name, field, to),
        PatternPiece::Unreadable => Ok(false),
    }
}

#[tactic(auto, using(crate::proofs::Adding::adding))]
#[cycle(add)]
fn add_reference(
    rules: &ExpansionRules,
    depth: usize,
    name: &Text,
    field: &Option<Field>,
    to: &mut Draft,
) -> Result<bool, AllocError>
    ensures { IfOk result (λ fine. went fine to.new
        ≡ spec.added rules.now depth (piece.Reference name.now field.now) to.old) }
{
    if depth == 0 {
        return Ok(false);
    }
    let Some(inner) = begin(rules, name, field, to)? else {
        return Ok(false);
    };
    if add_pieces(rules, depth - 1, inner, to)? {
        to.write(")")
    } else {
        Ok(false)
    }
}

// The pieces of a reference, once its group has begun.
fn begin<'r>(
    rules: &'r ExpansionRules,
    name: &Text,
    field: &Option<Field>,
    to: &mut Draft,
) -> Result<Option<&'r [PatternPiece]>, AllocError>
    ensures { IfOk result (λ found. option_map (λ ps. (ps.now, to.new)) found ≡ spec.begun rules.now
        name.now field.now to.old) }
{
    let Some(inner) = pieces_named(rules.known.as_slice(), name.as_str()) else {
        return Ok(None);
    };
    if to.open(rules, field)? {
        Ok(Some(inner))
    } else {
        Ok(None)
    }
}

fn pieces_named<'k>(known: &'k [(Text, PatternPieces)], name: &str) -> Option<&'k [PatternPiece]>
    ensures { option_map (λ ps. ps.now) result ≡ spec.pieces_named name.now known.now }
{
    for one in known {
        if one.0.as_str() == name {
            return Some(one.1.as_slice());
        }
    }
    None
}

// What was expanded so far.
pub struct Draft {
    text: String,
    scan: Scan,
    captures: Items<Capture>,
}

// Written out, so that it is one call wherever an error is handed on while one is held.
impl Drop for Draft {
    fn drop(self) {
        let Draft {
            text: _text,
            scan: _,
            captures: _captures,
        } = self;
    }
}

impl Model for Draft {
    ghost use Rattle.std.specs.Prelude.{string_bytes};
    ghost use Rattle.grok_patterns.specs.Drafts.{Written};

    ghost Value = { Written };

    ghost view = { λ draft. record { text = string_bytes draft.text; scan = draft.scan; captures = draft.captures } };
}

impl Draft {
    fn new(alloc: Global) -> Draft
        ensures { result ≡ spec.nothing }
    {
        Draft {
            text: String::new(alloc),
            scan: Scan::start(),
            captures: Items::new(alloc),
        }
    }

    fn finished(self) -> Expanded
        ensures { result ≡ spec.finished self }
    {
        let Draft {
            text,
            scan: _,
            captures,
        } = self;
        Expanded {
            text: Text::from_string(text),
            captures,
        }
    }

    // Adds text of a regular expression. `false` where it is too long then.
    fn write(&mut self, text: &str) -> Result<bool, AllocError>
        ensures { IfOk result (λ fine. went fine self.new ≡ spec.write text.now self.old) }
    {
        self.scan = self.scan.over(text.as_bytes())?;
        self.text.push_str(text)?;
        Ok(self.text.len() <= MAX_BYTES)
    }

    // Begins the group of a reference.
    fn open(&mut self, rules: &ExpansionRules, field: &Option<Field>) -> Result<bool, AllocError>
        ensures { IfOk result (λ fine. went fine self.new ≡ spec.begin_group rules.now field.now
            self.old) }
    {
        match field {
            None => self.write("(?:"),
            Some(field) => {
                if self.scan.may_open() {
                    self.keep(rules, &field.path, field.coercion)
                } else {
                    Ok(false)
                }
            }
        }
    }

    // Begins a group that was written with a name. Where no group can begin it stays as written.
    fn open_named(&mut self, rules: &ExpansionRules, name: &str) -> Result<bool, AllocError>
        ensures { IfOk result (λ fine. went fine self.new ≡ spec.open_named rules.now name.now
            self.old) }
    {
        if !self.scan.may_open() {
            return self.write_name(name);
        }
        match path_in(self.captures.allocator(), name)? {
            Some(path) => self.keep(rules, &path, Coercion::Text),
            None => Ok(false),
        }
    }

    fn write_name(&mut self, name: &str) -> Result<bool, AllocError>
        ensures { IfOk result (λ fine. went fine self.new ≡ spec.write (spec.written_name name.now)
            self.old) }
    {
        let mut written = String::from_str(self.captures.allocator(), "(?<")?;
        written.push_str(name)?;
        written.push_str(">")?;
        self.write(written.as_str())
    }

    // Begins a group that is kept.
    fn keep(
        &mut self,
        rules: &ExpansionRules,
        path: &Path,
        coercion: Coercion,
    ) -> Result<bool, AllocError>
        ensures { IfOk result (λ fine. went fine self.new ≡ spec.keep rules.now path.now coercion
            self.old) }
    {
        self.scan = self.scan.opened()?;
        let capture = capture_of(rules, path, coercion, self.scan.groups)?;
        self.captures.push(capture)?;
        self.text.push_str("(")?;
        Ok(self.text.len() <= MAX_BYTES)
    }
}

fn capture_of(
    rules: &ExpansionRules,
    path: &Path,
    coercion: Coercion,
    group: usize,
) -> Result<Capture, AllocError>
    ensures { IfOk result (λ capture. capture ≡ spec.capture_of rules.now path.now coercion group) }
{
    let alloc = rules.overwrite.allocator();
    let path = match &rules.target {
        Some(target) => path_under(alloc, target, path)?,
        None => path.copy()?,
    };
    let overwrites = is_among(&path, rules.overwrite.as_slice());
    Ok(Capture {
        group,
        path,
        coercion,
        overwrites,
    })
}

#[tactic(auto, using(event_text::proofs::Going::going))]
fn is_among(path: &Path, paths: &[Path]) -> bool
    ensures { result ≡ spec.is_among path.now paths.now }
{
    for other in paths {
        if is_same(path, other) {
            return true;
        }
    }
    false
}

/// The patterns that are known: those that are defined, and then those of the library.
#[tactic(auto, unfolding(crate::specs::Expansions::known_patterns))]
pub fn known_patterns(
    alloc: Global,
    all_kept: bool,
    definitions: &[(Text, Text)],
) -> Result<PatternLibrary, AllocError>
    ensures { IfOk result (λ known. known ≡ spec.known_patterns all_kept definitions.now) }
{
    let mut known = PatternLibrary::new(alloc);
    add_defined(&mut known, all_kept, definitions)?;
    add_library(&mut known, all_kept, &LIBRARY)?;
    Ok(known)
}

fn add_defined(
    known: &mut PatternLibrary,
    all_kept: bool,
    definitions: &[(Text, Text)],
) -> Result<(), AllocError>
    ensures { OnOk result (known.new ≡ known.old ++ map (spec.read all_kept) definitions.now) }
{
    for one in definitions {
        add_known(known, all_kept, one.0.as_str(), one.1.as_str())?;
    }
    Ok(())
}

fn add_library(
    known: &mut PatternLibrary,
    all_kept: bool,
    library: &[(&str, &str)],
) -> Result<(), AllocError>
    ensures { OnOk result (known.new ≡ known.old ++ map (spec.read all_kept)
        (map pair_of library.now)) }
{
    for one in library {
        add_known(known, all_kept, one.0, one.1)?;
    }
    Ok(())
}

// A name, and the pieces of the pattern that it stands for.
fn add_known(
    known: &mut PatternLibrary,
    all_kept: bool,
    name: &str,
    pattern: &str,
) -> Result<(), AllocError>
    ensures { OnOk result (known.new ≡ known.old ++ spec.read all_kept (name.now, pattern.now) ∷
        []) }
{
    let alloc = known.allocator();
    let pieces = read_pieces(alloc, all_kept, pattern)?;
    let name = Text::of(alloc, name)?;
    known.push((name, pieces))
}
