// The filter `split`: an event for each item of a list or piece of a text.
ghost use Rattle.std.specs.Prelude.{◌≡◌, ◌++◌, ◌∷◌, [], map, IfOk, OnOk};
ghost use Rattle.std.specs.List.{filter};
ghost use Rattle.std.specs.Option.{option_and_then, option_copied};
ghost use Rattle.event_tree.specs.declared.value.Value.TheVariants as v;
ghost use Rattle.filter_settings.specs.Settings.{Gives};
ghost use Rattle.filters_shape.specs.Split as spec;

use event_tree::{Event, Events, Items, Names, Path, Text, Value};
use filter_settings::{
    Applied, FromFault, Options, SetByName, SettingValue, Settings, add_copies, add_tag, assign,
    assign_some, field_named, one_applied, read_path, read_settings, read_text, set_option,
    split_text, try_put,
};
use std::alloc::{AllocError, Global};

/// The filter `split`: an event for each item of a list, or for each piece of a text.
pub struct SplitFilter {
    /// The field whose value is split.
    pub field: Path,
    /// What ends a piece of a text; an empty one gives the characters.
    pub terminator: Text,
    /// Where a piece is put, in the place of the field if nowhere else.
    pub target: Option<Path>,
    /// They act on each new event.
    pub options: Options,
}

// Written out, so that it is one call wherever an error is handed on while a filter is held.
impl Drop for SplitFilter {
    fn drop(self) {
        let SplitFilter {
            field: _field,
            terminator: _terminator,
            target: _target,
            options: _options,
        } = self;
    }
}

impl SetByName for SplitFilter {
    ghost use Rattle.filters_shape.specs.Split.{split_set};

    ghost setting = { split_set };

    fn set(&mut self, alloc: Global, name: &str, value: &SettingValue) -> Result<(), FromFault> {
        match name {
            "field" => assign(&mut self.field, read_path(alloc, name, value)),
            "terminator" => assign(&mut self.terminator, read_text(alloc, name, value)),
            "target" => assign_some(&mut self.target, read_path(alloc, name, value)),
            _ => set_option(&mut self.options, alloc, name, value),
        }
    }
}

impl SplitFilter {
    /// Reads the settings. The fault is that of the first setting, in the order of the text, that is
    /// unknown or of another kind.
    pub fn from_settings(settings: &Settings) -> Result<SplitFilter, FromFault>
        ensures { Gives result (spec.split_of settings.now.list) }
    {
        let start = SplitFilter::new(settings.list.allocator())?;
        read_settings(settings, start)
    }

    fn new(alloc: Global) -> Result<SplitFilter, AllocError>
        ensures { IfOk result (λ filter. filter ≡ spec.split_start) }
    {
        let field = field_named(alloc, "message")?;
        let terminator = Text::of(alloc, "\n")?;
        Ok(SplitFilter {
            field,
            terminator,
            target: None,
            options: Options::none(alloc),
        })
    }

    /// An event for each item of the list, or for each piece of the text that is not empty, with the
    /// piece at the target and with the options. Fewer than two leave the event as it is, and it counts
    /// as matched. A field that is missing or holds a value of another kind adds the tag
    /// `_split_type_failure`, and is not matched.
    pub fn apply(&self, event: Event) -> Result<Applied, AllocError>
        ensures { IfOk result (λ applied. applied ≡ spec.split self.now event) }
    {
        match self.pieces(event.get(&self.field))? {
            Some(pieces) => self.split_into(event, pieces),
            None => self.not_split(event),
        }
    }

    fn pieces(&self, value: Option<&Value>) -> Result<Option<Items<Value>>, AllocError>
        ensures { IfOk result (λ pieces. pieces
            ≡ option_and_then (spec.pieces_of self.now.terminator) (option_copied value.entry)) }
    {
        match value {
            Some(Value::List(items)) => Ok(Some(copies(items)?)),
            Some(Value::Text(text)) => Ok(Some(self.text_pieces(text.as_str())?)),
            _ => Ok(None),
        }
    }

    // The pieces of a text that are not empty.
    fn text_pieces(&self, text: &str) -> Result<Items<Value>, AllocError>
        ensures { IfOk result (λ pieces. pieces ≡ spec.text_pieces self.now.terminator text.now) }
    {
        let texts = split_text(self.terminator.allocator(), text, self.terminator.as_str())?;
        some_texts(texts)
    }

    fn split_into(&self, event: Event, pieces: Items<Value>) -> Result<Applied, AllocError>
        ensures { IfOk result (λ applied. applied ≡ spec.split_into self.now event pieces) }
    {
        if pieces.len() < 2 {
            return one_applied(self.terminator.allocator(), event, true);
        }
        let events = self.events(event, pieces)?;
        Ok(Applied {
            events,
            matched: true,
        })
    }

    // An event for each piece.
    fn events(&self, event: Event, pieces: Items<Value>) -> Result<Events, AllocError>
        ensures { IfOk result (λ events. events ≡ map (spec.split_event self.now event) pieces) }
    {
        let mut pieces = pieces;
        match pieces.pop() {
            Some(last) => self.events_up_to(event, pieces, last),
            None => Ok(Events::new(self.terminator.allocator())),
        }
    }

    // An event for each piece. The last is the event itself, and the others are copies of what is left of it.
    fn events_up_to(
        &self,
        event: Event,
        front: Items<Value>,
        last: Value,
    ) -> Result<Events, AllocError>
        ensures { IfOk result (λ events. events
            ≡ map (spec.split_event self.now event) (front ++ last ∷ [])) }
    {
        let rest = self.emptied(event)?;
        let mut events = self.copies(&rest, front)?;
        self.add_event(&mut events, rest, last)?;
        Ok(events)
    }

    fn emptied(&self, event: Event) -> Result<Event, AllocError>
        ensures { IfOk result (λ rest. rest ≡ spec.emptied self.now event) }
    {
        let mut event = event;
        if self.target.is_none() {
            try_put(&mut event, &self.field, Value::Null)?;
        }
        Ok(event)
    }

    fn copies(&self, rest: &Event, pieces: Items<Value>) -> Result<Events, AllocError>
        ensures { IfOk result (λ events. events ≡ map (spec.event_of self.now rest.now) pieces) }
    {
        let mut events = Events::with_capacity(pieces.allocator(), pieces.len())?;
        for piece in pieces.into_vec() {
            self.add_copy(&mut events, rest, piece)?;
        }
        Ok(events)
    }

    fn add_copy(&self, to: &mut Events, rest: &Event, piece: Value) -> Result<(), AllocError>
        ensures { OnOk result (to.new ≡ to.old ++ spec.event_of self.now rest.now piece ∷ []) }
    {
        let copy = rest.copy()?;
        self.add_event(to, copy, piece)
    }

    fn add_event(&self, to: &mut Events, rest: Event, piece: Value) -> Result<(), AllocError>
        ensures { OnOk result (to.new ≡ to.old ++ spec.event_of self.now rest piece ∷ []) }
    {
        let event = self.with_piece(rest, piece)?;
        to.push(event)
    }

    fn with_piece(&self, rest: Event, piece: Value) -> Result<Event, AllocError>
        ensures { IfOk result (λ event. event ≡ spec.event_of self.now rest piece) }
    {
        let mut event = rest;
        try_put(&mut event, self.target(), piece)?;
        self.options.apply(event)
    }

    fn target(&self) -> &Path
        ensures { result.now ≡ spec.target_of self.now }
    {
        match &self.target {
            Some(target) => target,
            None => &self.field,
        }
    }

    fn not_split(&self, event: Event) -> Result<Applied, AllocError>
        ensures { IfOk result (λ applied. applied ≡ spec.not_split event) }
    {
        let alloc = self.terminator.allocator();
        let mut event = event;
        add_tag(&mut event, Text::of(alloc, "_split_type_failure")?)?;
        one_applied(alloc, event, false)
    }
}

// The texts that are not empty, as values.
fn some_texts(texts: Names) -> Result<Items<Value>, AllocError>
    ensures { IfOk result (λ values. values ≡ map v.Text (filter spec.is_some_text texts)) }
{
    let mut values = Items::with_capacity(texts.allocator(), texts.len())?;
    for text in texts.into_vec() {
        if !text.is_empty() {
            values.push(Value::Text(text))?;
        }
    }
    Ok(values)
}

fn copies(values: &Items<Value>) -> Result<Items<Value>, AllocError>
    ensures { IfOk result (λ copies. copies ≡ values.now) }
{
    let mut copies = Items::with_capacity(values.allocator(), values.len())?;
    add_copies(&mut copies, values.as_slice())?;
    Ok(copies)
}
