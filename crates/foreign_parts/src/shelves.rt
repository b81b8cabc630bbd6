// The boxes of all names, found by name.
ghost use Rattle.std.specs.Prelude.{◌≡◌, ◌<◌, [], length, slice_get, Some, IfSome, IfNone, OnOk, OnErr};
ghost use Rattle.foreign_parts.specs.Stocks as spec;
ghost use Rattle.foreign_parts.specs.Stocks.{AnswersAt, IsLast, place, refusals_of};
ghost use Rattle.foreign_parts.specs.Shelves.{stocks, refusals};

use crate::named_boxes::NamedBoxes;
use crate::plugged::Plugged;
use config_tree::{FromFault, Settings};
use std::alloc::{AllocError, Global};

// The place of the boxes of a name, or the number of names.
fn place_of<T: Plugged>(shelves: &[NamedBoxes<T>], name: &str) -> usize
    ensures { result ≡ place name.now (stocks T.number shelves.now) }
{
    for at in 0..shelves.len() {
        if shelves[at].has_name(name) {
            return at;
        }
    }
    shelves.len()
}

pub(crate) fn is_known<T: Plugged>(shelves: &[NamedBoxes<T>], name: &str) -> bool
    ensures { result ≡ spec.is_known name.now (stocks T.number shelves.now) }
{
    place_of(shelves, name) < shelves.len()
}

/// How many boxes of a name are left.
pub(crate) fn count_left<T: Plugged>(shelves: &[NamedBoxes<T>], name: &str) -> usize
    ensures { result ≡ length (spec.left_of name.now (stocks T.number shelves.now)) }
{
    let at = place_of(shelves, name);
    if at < shelves.len() {
        shelves[at].len()
    } else {
        0
    }
}

/// The number of a box of a name that is left, by its place.
pub(crate) fn number_at<T: Plugged>(shelves: &[NamedBoxes<T>], name: &str, at: usize) -> u64
    requires { at < length (spec.left_of name.now (stocks T.number shelves.now)) }
    ensures { slice_get (spec.left_of name.now (stocks T.number shelves.now)) at ≡ Some result }
{
    let shelf = place_of(shelves, name);
    if shelf < shelves.len() {
        shelves[shelf].number_at(at)
    } else {
        0
    }
}

/// Adds a box under a name.
pub(crate) fn add<T: Plugged>(
    alloc: Global,
    shelves: &mut Vec<NamedBoxes<T>>,
    name: &str,
    item: T,
) -> Result<(), AllocError>
    ensures ok { OnOk result (stocks T.number shelves.new.items
        ≡ spec.with_box name.now (T.number item) (stocks T.number shelves.old.items)) }
    ensures err { OnErr result
        (stocks T.number shelves.new.items ≡ stocks T.number shelves.old.items) }
{
    let at = place_of(shelves.as_slice(), name);
    if at < shelves.len() {
        return shelves[at].add(item);
    }
    let shelf = NamedBoxes::with(alloc, name, item)?;
    shelves.push(shelf)?;
    Ok(())
}

/// Takes the last box of a name.
pub(crate) fn draw<T: Plugged>(shelves: &mut Vec<NamedBoxes<T>>, name: &str) -> Option<T>
    ensures some { IfSome result (λ _. stocks T.number shelves.new.items
        ≡ spec.drawn name.now (stocks T.number shelves.old.items)) }
    ensures last { IfSome result
        (λ item. IsLast (T.number item)
        (spec.left_of name.now (stocks T.number shelves.old.items))) }
    ensures none { IfNone result
        (spec.left_of name.now (stocks T.number shelves.old.items) ≡ []) }
    ensures same { IfNone result
        (stocks T.number shelves.new.items ≡ stocks T.number shelves.old.items) }
{
    let at = place_of(shelves.as_slice(), name);
    if at < shelves.len() {
        shelves[at].draw()
    } else {
        None
    }
}

/// Puts a box back under the name under which it was drawn. It takes no memory.
pub(crate) fn give_back<T: Plugged>(shelves: &mut Vec<NamedBoxes<T>>, name: &str, item: T)
    requires { 0 < spec.out_of name.now (stocks T.number shelves.old.items) }
    ensures { stocks T.number shelves.new.items
        ≡ spec.given_back name.now (T.number item) (stocks T.number shelves.old.items) }
{
    let at = place_of(shelves.as_slice(), name);
    if at < shelves.len() {
        shelves[at].give_back(item);
    }
}

/// Has the box of a name at a place read settings.
pub(crate) fn configure<T: Plugged>(
    shelves: &mut Vec<NamedBoxes<T>>,
    name: &str,
    at: usize,
    settings: &Settings,
) -> Result<(), FromFault>
    requires { at < length (spec.left_of name.now (stocks T.number shelves.old.items)) }
    ensures answers { AnswersAt (refusals_of name.now (refusals T.refusal shelves.old.items))
        at settings.now.list result }
    ensures refusals { refusals T.refusal shelves.new.items ≡ refusals T.refusal shelves.old.items }
    ensures stocks { stocks T.number shelves.new.items ≡ stocks T.number shelves.old.items }
{
    let shelf = place_of(shelves.as_slice(), name);
    if shelf < shelves.len() {
        shelves[shelf].configure(at, settings)
    } else {
        Ok(())
    }
}
