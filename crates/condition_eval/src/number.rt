// The order of two decimal numbers.
ghost use Rattle.std.specs.Prelude.{◌≡◌, ◌≤◌, max};
ghost use Rattle.condition_eval.specs.Values as spec;

use event_tree::Number;
use std::cmp::Ordering;

/// The order of two numbers.
pub(crate) fn number_order(left: Number, right: Number) -> Ordering
    ensures { result ≡ spec.number_order left right }
{
    let places = most(left.scale(), right.scale());
    raised(left, places).cmp(&raised(right, places))
}

fn most(left: u8, right: u8) -> u8
    ensures { result ≡ max left right }
{
    if left < right { right } else { left }
}

/// The mantissa of the number with so many places, of which it has no more.
fn raised(number: Number, places: u8) -> i128
    requires enough { number.scale ≤ places }
    requires few { places ≤ 18 }
    ensures { result ≡ spec.raised places number }
{
    let factor = 10u64.pow(u32::from(places - number.scale()));
    i128::from(number.mantissa()) * i128::from(factor)
}
