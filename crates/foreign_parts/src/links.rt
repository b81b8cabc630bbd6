// Places for the links on which something outside of the pipelines sends.
ghost use Rattle.std.specs.Prelude.{◌≡◌, None, Some, true, bytes_eq};
ghost use Rattle.std.specs.List.{list_any};
ghost use Rattle.foreign_parts.specs.Links as spec;
ghost use Rattle.foreign_parts.specs.Links.{addresses_of, is_out, link_of};

use pipeline_bus::LinkTaker;
use plain_data::Text;

/// A place for the link of an address, on which something outside of the pipelines sends.
#[derive(Drop)]
pub struct LinkPlace {
    pub(crate) address: Text,
    /// The link, unless it was taken and not put back.
    pub(crate) taker: Option<LinkTaker>,
}

// The number of the place of an address, or of places.
fn place_of(places: &[LinkPlace], address: &str) -> usize
    ensures { result ≡ spec.place address.now places.now }
{
    for at in 0..places.len() {
        if address == places[at].address.as_str() {
            return at;
        }
    }
    places.len()
}

/// Whether there is a place for the link of an address.
pub(crate) fn is_known(places: &[LinkPlace], address: &str) -> bool
    ensures { result ≡ list_any (bytes_eq address.now) (addresses_of places.now) }
{
    place_of(places, address) < places.len()
}

/// Takes the link of an address out of its place, where it lies there.
pub(crate) fn take(places: &mut Vec<LinkPlace>, address: &str) -> Option<LinkTaker>
    ensures taken { result ≡ link_of address.now places.old.items }
    ensures places { places.new.items ≡ spec.put address.now None places.old.items }
{
    let at = place_of(places.as_slice(), address);
    if at < places.len() {
        places[at].taker.take()
    } else {
        None
    }
}

/// Puts the link of an address back into its place. It takes no memory.
pub(crate) fn give_back(places: &mut Vec<LinkPlace>, address: &str, taker: LinkTaker)
    requires { is_out address.now places.old.items ≡ true }
    ensures { places.new.items ≡ spec.put address.now (Some taker) places.old.items }
{
    let at = place_of(places.as_slice(), address);
    if at < places.len() {
        places[at].taker = Some(taker);
    }
}
