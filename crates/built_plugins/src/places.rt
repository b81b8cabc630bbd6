// The places to which an output sends.

ghost use Rattle.std.specs.Prelude.{◌≡◌, ◌∷◌, [], IfOk, bytes_eq, codes, map, option_and_then};
ghost use Rattle.config_tree.specs.Readers.{value_at};
ghost use Rattle.filter_settings.specs.Readers.{text_of, texts_of};
ghost use Rattle.event_flow.specs.Places as spec;
ghost use Rattle.foreign_parts.specs.declared.place.Place.TheVariants as place;
ghost use Rattle.std.specs.List.{list_any};

use config_tree::{Plugin, Settings};
use event_tree::Names;
use filter_settings::{read_text, read_texts, unless_refused};
use foreign_parts::Place;
use plain_data::{Items, Text};
use std::alloc::{AllocError, Global};

/// The places of an output by its name.
pub(crate) fn places_of(
    alloc: Global,
    draws: &[(Text, u64)],
    id: &str,
    plugin: &Plugin,
) -> Result<Items<Place>, AllocError>
    ensures { IfOk result (λ places. places ≡ spec.places_of draws.now id.now plugin.now) }
{
    match plugin.name.as_str() {
        "stdout" => one(alloc, Place::Stdout),
        "file" => match given_path(alloc, &plugin.settings)? {
            Some(path) => one(alloc, Place::File(path)),
            None => Ok(Items::new(alloc)),
        },
        "pipeline" => match given_addresses(alloc, &plugin.settings)? {
            Some(addresses) => addressed(alloc, addresses),
            None => Ok(Items::new(alloc)),
        },
        "sink" => one(alloc, Place::Discard),
        _ => match drawn_for(id, draws) {
            Some(number) => one(alloc, Place::Foreign(number)),
            None => Ok(Items::new(alloc)),
        },
    }
}

fn one(alloc: Global, place: Place) -> Result<Items<Place>, AllocError>
    ensures { IfOk result (λ places. places ≡ place ∷ []) }
{
    let mut places = Items::new(alloc);
    places.push(place)?;
    Ok(places)
}

// The path that settings give.
fn given_path(alloc: Global, settings: &Settings) -> Result<Option<Text>, AllocError>
    ensures { IfOk result (λ path. path
        ≡ option_and_then text_of (value_at (codes "path") settings.now.list)) }
{
    match settings.get("path") {
        Some(value) => unless_refused(read_text(alloc, "path", value)),
        None => Ok(None),
    }
}

// The addresses that settings give.
fn given_addresses(alloc: Global, settings: &Settings) -> Result<Option<Names>, AllocError>
    ensures { IfOk result (λ addresses. addresses
        ≡ option_and_then texts_of (value_at (codes "send_to") settings.now.list)) }
{
    match settings.get("send_to") {
        Some(value) => unless_refused(read_texts(alloc, "send_to", value)),
        None => Ok(None),
    }
}

// Each address once, where it stands first.
fn addressed(alloc: Global, addresses: Names) -> Result<Items<Place>, AllocError>
    ensures { IfOk result (λ places. places ≡ map place.Address (spec.once addresses)) }
{
    let mut places = Items::new(alloc);
    for address in once(alloc, addresses)?.into_vec() {
        places.push(Place::Address(address))?;
    }
    Ok(places)
}

fn once(alloc: Global, texts: Names) -> Result<Names, AllocError>
    ensures { IfOk result (λ found. found ≡ spec.once texts) }
{
    let mut found = Names::new(alloc);
    for text in texts.into_vec() {
        if !stands_in(found.as_slice(), text.as_str()) {
            found.push(text)?;
        }
    }
    Ok(found)
}

#[tactic(auto, using(event_text::proofs::Going::going))]
fn stands_in(texts: &[Text], text: &str) -> bool
    ensures { result ≡ list_any (λ one. bytes_eq one text.now) texts.now }
{
    for one in texts {
        if one.as_str() == text {
            return true;
        }
    }
    false
}

// The number of the box that was drawn for an id.
fn drawn_for(id: &str, draws: &[(Text, u64)]) -> Option<u64>
    ensures { result ≡ spec.drawn_for id.now draws.now }
{
    for draw in draws {
        if draw.0.as_str() == id {
            return Some(draw.1);
        }
    }
    None
}
