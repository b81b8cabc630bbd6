// The filter `mutate`: its settings, and its operations in their fixed order.
ghost use Rattle.std.specs.Prelude.{◌≡◌, IfOk};
ghost use Rattle.filter_settings.specs.Settings.{Gives, Leaves};
ghost use Rattle.filter_settings.specs.Trying.{tried, all_tried};
ghost use Rattle.filters_mutate.specs.Operations as spec;
ghost use Rattle.filters_mutate.specs.Settings.{mutate_of, mutate_start, further_set};

use crate::cases::{Case, change_cases, strip_all};
use crate::conversions::convert_all;
use crate::fills::{Fill, fill_all};
use crate::gsub::{Gsub, read_gsub, substitute_all};
use crate::lists::{ListConversion, list_all};
use crate::moves::{Move, move_all};
use crate::operation::{ORDER, Operation};
use event_text::Template;
use event_tree::{Event, Items, Path, Text};
use filter_settings::{
    Applied, Conversion, FromFault, Options, SetByName, SettingValue, Settings, assign, finish,
    read_field_conversions, read_field_paths, read_field_templates, read_field_texts, read_paths,
    read_settings, read_text, set_option,
};
use std::alloc::{AllocError, Global};

/// The filter `mutate`: operations on fields, which are done in the order of the fields of this struct,
/// whatever the order in the configuration, and each list in its own order.
pub struct Mutate {
    /// A null becomes the text.
    pub coerce: Items<(Path, Template)>,
    /// The value of the first field moves to the second.
    pub rename: Items<(Path, Path)>,
    /// The text is set where the field is there.
    pub update: Items<(Path, Template)>,
    /// The text is set.
    pub replace: Items<(Path, Template)>,
    /// The value, or each item of a list, becomes one of another kind.
    pub convert: Items<(Path, Conversion)>,
    /// Each match in a text is replaced.
    pub gsub: Items<Gsub>,
    /// The ASCII letters of a text, or of each text of a list, are raised.
    pub uppercase: Items<Path>,
    /// The first character is raised, and the rest lowered.
    pub capitalize: Items<Path>,
    /// They are lowered.
    pub lowercase: Items<Path>,
    /// Blanks, form feeds and vertical tabs at both ends of a text are removed.
    pub strip: Items<Path>,
    /// A text becomes the list of its pieces around the separator.
    pub split: Items<(Path, Text)>,
    /// A list becomes the text of its items, with the separator between them.
    pub join: Items<(Path, Text)>,
    /// The value of the second field is added to that of the first.
    pub merge: Items<(Path, Path)>,
    /// A copy of the first field's value is set at the second.
    pub copy: Items<(Path, Path)>,
    /// The tag of an event in which an operation failed.
    pub tag_on_failure: Text,
    /// They act where no operation failed.
    pub options: Options,
}

// Written out, so that it is one call wherever an error is handed on while a filter is held.
impl Drop for Mutate {
    fn drop(self) {
        let Mutate {
            coerce: _coerce,
            rename: _rename,
            update: _update,
            replace: _replace,
            convert: _convert,
            gsub: _gsub,
            uppercase: _uppercase,
            capitalize: _capitalize,
            lowercase: _lowercase,
            strip: _strip,
            split: _split,
            join: _join,
            merge: _merge,
            copy: _copy,
            tag_on_failure: _tag_on_failure,
            options: _options,
        } = self;
    }
}

impl SetByName for Mutate {
    ghost use Rattle.filters_mutate.specs.Settings.{mutate_set};

    ghost setting = { mutate_set };

    fn set(&mut self, alloc: Global, name: &str, value: &SettingValue) -> Result<(), FromFault> {
        match name {
            "coerce" => assign(&mut self.coerce, read_field_templates(alloc, name, value)),
            "rename" => assign(&mut self.rename, read_field_paths(alloc, name, value)),
            "update" => assign(&mut self.update, read_field_templates(alloc, name, value)),
            "replace" => assign(&mut self.replace, read_field_templates(alloc, name, value)),
            "convert" => assign(
                &mut self.convert,
                read_field_conversions(alloc, name, value),
            ),
            "gsub" => assign(&mut self.gsub, read_gsub(alloc, name, value)),
            "merge" => assign(&mut self.merge, read_field_paths(alloc, name, value)),
            "copy" => assign(&mut self.copy, read_field_paths(alloc, name, value)),
            _ => self.set_further(alloc, name, value),
        }
    }
}

impl Mutate {
    /// Reads the settings, and compiles the patterns of `gsub`. The fault is that of the first setting,
    /// in the order of the text, that is unknown, of another kind, or has a bad pattern.
    pub fn from_settings(settings: &Settings) -> Result<Mutate, FromFault>
        ensures { Gives result (mutate_of settings.now.list) }
    {
        let start = Mutate::new(settings.list.allocator())?;
        read_settings(settings, start)
    }

    fn new(alloc: Global) -> Result<Mutate, AllocError>
        ensures { IfOk result (λ filter. filter ≡ mutate_start) }
    {
        let tag_on_failure = Text::of(alloc, "_mutate_error")?;
        Ok(Mutate {
            coerce: Items::new(alloc),
            rename: Items::new(alloc),
            update: Items::new(alloc),
            replace: Items::new(alloc),
            convert: Items::new(alloc),
            gsub: Items::new(alloc),
            uppercase: Items::new(alloc),
            capitalize: Items::new(alloc),
            lowercase: Items::new(alloc),
            strip: Items::new(alloc),
            split: Items::new(alloc),
            join: Items::new(alloc),
            merge: Items::new(alloc),
            copy: Items::new(alloc),
            tag_on_failure,
            options: Options::none(alloc),
        })
    }

    // What the settings say of texts and lists, of the tag, and what every filter has.
    fn set_further(
        &mut self,
        alloc: Global,
        name: &str,
        value: &SettingValue,
    ) -> Result<(), FromFault>
        ensures { Leaves result (further_set name.now value.now self.old) self.new }
    {
        match name {
            "uppercase" => assign(&mut self.uppercase, read_paths(alloc, name, value)),
            "capitalize" => assign(&mut self.capitalize, read_paths(alloc, name, value)),
            "lowercase" => assign(&mut self.lowercase, read_paths(alloc, name, value)),
            "strip" => assign(&mut self.strip, read_paths(alloc, name, value)),
            "split" => assign(&mut self.split, read_field_texts(alloc, name, value)),
            "join" => assign(&mut self.join, read_field_texts(alloc, name, value)),
            "tag_on_failure" => assign(&mut self.tag_on_failure, read_text(alloc, name, value)),
            _ => set_option(&mut self.options, alloc, name, value),
        }
    }

    /// The event with the operations done in their order, and then with the options. An operation that
    /// fails, or whose value the event can't hold, stops the rest: what was done before it stays, the
    /// event gets the tag and is not matched. A field that is missing is passed over.
    ///
    /// It takes time for one look-up for each field that is named, and for the values that change. It
    /// copies a value where an operation makes one of it.
    pub fn apply(&mut self, event: Event) -> Result<Applied, AllocError>
        ensures applied { IfOk result (λ applied. applied ≡ spec.mutated self.old event) }
        ensures same { self.new ≡ self.old }
    {
        let mut event = event;
        let fine = self.operate(&ORDER, &mut event)?;
        finish(event, fine, &self.options, &self.tag_on_failure)
    }

    // These operations in their order, up to the first that fails.
    #[tactic(auto, using(filter_settings::proofs::Steps::trying))]
    fn operate(&mut self, order: &[Operation], event: &mut Event) -> Result<bool, AllocError>
        ensures done { IfOk result (λ fine. tried fine event.new ≡ all_tried
            (spec.operated self.old) order.now event.old) }
        ensures same { self.new ≡ self.old }
    {
        for operation in order {
            if !self.act(*operation, event)? {
                return Ok(false);
            }
        }
        Ok(true)
    }

    fn act(&mut self, operation: Operation, event: &mut Event) -> Result<bool, AllocError>
        ensures done { IfOk result (λ fine. tried fine event.new ≡ spec.operated self.old operation
            event.old) }
        ensures same { self.new ≡ self.old }
    {
        let alloc = self.gsub.allocator();
        match operation {
            Operation::Coerce => fill_all(Fill::Coerce, self.coerce.as_slice(), event),
            Operation::Rename => move_all(alloc, Move::Rename, self.rename.as_slice(), event),
            Operation::Update => fill_all(Fill::Update, self.update.as_slice(), event),
            Operation::Replace => fill_all(Fill::Replace, self.replace.as_slice(), event),
            Operation::Convert => convert_all(alloc, self.convert.as_slice(), event),
            Operation::Gsub => substitute_all(&mut self.gsub, event),
            Operation::Uppercase => {
                change_cases(alloc, Case::Upper, self.uppercase.as_slice(), event)
            }
            Operation::Capitalize => {
                change_cases(alloc, Case::Capital, self.capitalize.as_slice(), event)
            }
            Operation::Lowercase => {
                change_cases(alloc, Case::Lower, self.lowercase.as_slice(), event)
            }
            Operation::Strip => strip_all(alloc, self.strip.as_slice(), event),
            Operation::Split => list_all(
                alloc,
                ListConversion::Split,
                self.split.as_slice(),
                event,
            ),
            Operation::Join => list_all(alloc, ListConversion::Join, self.join.as_slice(), event),
            Operation::Merge => move_all(alloc, Move::Merge, self.merge.as_slice(), event),
            Operation::Copy => move_all(alloc, Move::Copy, self.copy.as_slice(), event),
        }
    }
}
