// Numbers in the names of files.
ghost use Rattle.std.specs.Prelude.{◌≡◌, ◌<◌, ◌^◌, ℕ, Some, IfSome};
ghost use Rattle.std.specs.Fmt.{decimal};

use itoa::Buffer;

/// The number below 2^32 whose digits these are, none of them a zero in front.
pub fn number_of(digits: &str) -> Option<u32>
    ensures some { IfSome result (λ n. digits.now ≡ decimal n) }
    ensures fits { IfSome result (λ n. n < 2 ^ 32) }
    ensures all { (n : ℕ) → n < 2 ^ 32 → digits.now ≡ decimal n → result ≡ Some n }
{
    let Ok(number) = digits.parse::<u32>() else {
        return None;
    };
    if Buffer::new().format(number) == digits {
        Some(number)
    } else {
        None
    }
}
