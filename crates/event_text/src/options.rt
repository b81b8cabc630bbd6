// The options that every filter has: fields and tags that are added and removed.
ghost use Rattle.std.specs.Prelude.{◌≡◌, [], map, IfOk, OnOk, IsSome, Some};
ghost use Rattle.event_text.specs.Options as spec;
ghost use Rattle.event_text.specs.PathReading.{way_in};
ghost use Rattle.event_text.specs.Template.{template_parts};

use crate::event_changes::{add_tag, remove_tag, text_and, try_put};
use crate::path_text::path_in;
use crate::template::Template;
use event_tree::{Event, Names, Pairs, Path};
use plain_data::{Items, Text};
use std::alloc::{AllocError, Global};

/// The options that every filter has, read once. They act in the order of the fields, and each list in
/// its own order:
///
/// - `add_field` sets each field to its text, filled from the event as it is then. A field that is there
///   becomes a list of the old values and the new one.
/// - `remove_field` takes each field away.
/// - `add_tag` adds each text, filled, to `tags`. A tag that stands already is not added again, and
///   `tags` that is no list becomes a list of the old value and the tag.
/// - `remove_tag` removes each text, filled, from `tags`, where that is a list. The last tag that goes
///   leaves an empty list.
///
/// What the event can't hold, or a path doesn't lead to, isn't set.
pub struct Options {
    pub add_field: Items<(Path, Template)>,
    pub remove_field: Items<Path>,
    pub add_tag: Items<Template>,
    pub remove_tag: Items<Template>,
}

// Written out, so that it is one call wherever an error is handed on while options are held.
impl Drop for Options {
    fn drop(self) {
        let Options {
            add_field: _add_field,
            remove_field: _remove_field,
            add_tag: _add_tag,
            remove_tag: _remove_tag,
        } = self;
    }
}

impl Options {
    /// No option. It takes no memory.
    pub fn none(alloc: Global) -> Options
        ensures { result ≡ spec.no_options }
    {
        Options {
            add_field: Items::new(alloc),
            remove_field: Items::new(alloc),
            add_tag: Items::new(alloc),
            remove_tag: Items::new(alloc),
        }
    }

    /// The options of these texts: a path and a template, paths, templates and templates. Each text
    /// that names a field reads as a path.
    pub fn new(
        alloc: Global,
        add_field: Pairs,
        remove_field: Names,
        add_tag: Names,
        remove_tag: Names,
    ) -> Result<Options, AllocError>
        requires add_field { IsSome (spec.each_in spec.field_in add_field) }
        requires remove_field { IsSome (spec.each_in way_in remove_field) }
        ensures add_field { IfOk result (λ options. spec.each_in spec.field_in add_field ≡ Some
            options.add_field) }
        ensures remove_field { IfOk result (λ options. spec.each_in way_in remove_field ≡ Some
            options.remove_field) }
        ensures add_tag { IfOk result (λ options. options.add_tag ≡ map template_parts add_tag) }
        ensures remove_tag { IfOk result (λ options. options.remove_tag ≡ map template_parts
            remove_tag) }
    {
        let mut options = Options::none(alloc);
        options.add_field = read_fields(alloc, add_field.as_slice())?;
        options.remove_field = read_paths(alloc, remove_field.as_slice())?;
        options.add_tag = read_templates(alloc, add_tag.as_slice())?;
        options.remove_tag = read_templates(alloc, remove_tag.as_slice())?;
        Ok(options)
    }

    /// The event with the options done. It takes time for one look-up for each field and tag, for the
    /// texts that it fills, and for what is replaced.
    #[tactic(auto, unfolding(crate::specs::Options::with_options))]
    pub fn apply(&self, event: Event) -> Result<Event, AllocError>
        ensures { IfOk result (λ changed. changed ≡ spec.with_options self.now event) }
    {
        let mut event = event;
        add_fields(self.add_field.as_slice(), &mut event)?;
        remove_fields(self.remove_field.as_slice(), &mut event);
        add_tags(self.add_tag.as_slice(), &mut event)?;
        remove_tags(self.remove_tag.as_slice(), &mut event)?;
        Ok(event)
    }
}

#[tactic(auto, using(crate::proofs::Going::going))]
fn add_fields(fields: &[(Path, Template)], event: &mut Event) -> Result<(), AllocError>
    ensures { OnOk result (event.new ≡ spec.each_done spec.with_field fields.now event.old) }
{
    for field in fields {
        add_field(&field.0, &field.1, event)?;
    }
    Ok(())
}

fn add_field(path: &Path, template: &Template, event: &mut Event) -> Result<(), AllocError>
    ensures { OnOk result (event.new ≡ spec.with_field (path.now, template.now) event.old) }
{
    let text = template.fill(event)?;
    let value = text_and(text, event.get(path))?;
    try_put(event, path, value)
}

#[tactic(auto, using(crate::proofs::Going::going))]
fn remove_fields(paths: &[Path], event: &mut Event)
    ensures { event.new ≡ spec.each_done spec.without_field paths.now event.old }
{
    for path in paths {
        remove_field(path, event);
    }
}

fn remove_field(path: &Path, event: &mut Event)
    ensures { event.new ≡ spec.without_field path.now event.old }
{
    let _ = event.take(path);
}

#[tactic(auto, using(crate::proofs::Going::going))]
fn add_tags(templates: &[Template], event: &mut Event) -> Result<(), AllocError>
    ensures { OnOk result (event.new ≡ spec.each_done spec.with_tag templates.now event.old) }
{
    for template in templates {
        let tag = template.fill(event)?;
        add_tag(event, tag)?;
    }
    Ok(())
}

#[tactic(auto, using(crate::proofs::Going::going))]
fn remove_tags(templates: &[Template], event: &mut Event) -> Result<(), AllocError>
    ensures { OnOk result (event.new ≡ spec.each_done spec.without_tag templates.now event.old) }
{
    for template in templates {
        let tag = template.fill(event)?;
        remove_tag(event, &tag)?;
    }
    Ok(())
}

fn read_fields(alloc: Global, pairs: &[(Text, Text)]) -> Result<Items<(Path, Template)>, AllocError>
    requires { IsSome (spec.each_in spec.field_in pairs.now) }
    ensures { IfOk result (λ fields. spec.each_in spec.field_in pairs.now ≡ Some fields) }
{
    match fields_in(alloc, pairs)? {
        Some(fields) => Ok(fields),
        None => unreachable!(),
    }
}

#[tactic(auto, using(crate::proofs::Going::going))]
fn fields_in(
    alloc: Global,
    pairs: &[(Text, Text)],
) -> Result<Option<Items<(Path, Template)>>, AllocError>
    ensures { IfOk result (λ found. found ≡ spec.each_in spec.field_in pairs.now) }
{
    let mut found = Items::new(alloc);
    for pair in pairs {
        let Some(field) = field_in(alloc, pair.0.as_str(), pair.1.as_str())? else {
            return Ok(None);
        };
        found.push(field)?;
    }
    Ok(Some(found))
}

fn field_in(
    alloc: Global,
    path: &str,
    template: &str,
) -> Result<Option<(Path, Template)>, AllocError>
    ensures { IfOk result (λ found. found ≡ spec.field_in (path.now, template.now)) }
{
    match path_in(alloc, path)? {
        Some(path) => Ok(Some((path, Template::read(alloc, template)?))),
        None => Ok(None),
    }
}

fn read_paths(alloc: Global, texts: &[Text]) -> Result<Items<Path>, AllocError>
    requires { IsSome (spec.each_in way_in texts.now) }
    ensures { IfOk result (λ paths. spec.each_in way_in texts.now ≡ Some paths) }
{
    match paths_in(alloc, texts)? {
        Some(paths) => Ok(paths),
        None => unreachable!(),
    }
}

#[tactic(auto, using(crate::proofs::Going::going))]
fn paths_in(alloc: Global, texts: &[Text]) -> Result<Option<Items<Path>>, AllocError>
    ensures { IfOk result (λ found. found ≡ spec.each_in way_in texts.now) }
{
    let mut found = Items::new(alloc);
    for text in texts {
        let Some(path) = path_in(alloc, text.as_str())? else {
            return Ok(None);
        };
        found.push(path)?;
    }
    Ok(Some(found))
}

#[tactic(auto, using(crate::proofs::Going::going))]
fn read_templates(alloc: Global, texts: &[Text]) -> Result<Items<Template>, AllocError>
    ensures { IfOk result (λ found. found ≡ map template_parts texts.now) }
{
    let mut found = Items::new(alloc);
    for text in texts {
        found.push(Template::read(alloc, text.as_str())?)?;
    }
    Ok(found)
}
