// Which page of a queue may go.
ghost use Rattle.std.specs.Prelude.{◌≡◌};
ghost use Rattle.queue_core.specs.Calls.{spent_from};

use crate::pages::OpenPage;

/// The place of the first page that is recorded as wholly acknowledged.
pub(crate) fn first_spent(tails: &[OpenPage]) -> Option<usize>
    ensures { result ≡ spent_from 0 tails.now }
{
    for place in 0..tails.len() {
        if tails[place].is_spent() {
            return Some(place);
        }
    }
    None
}
