// Bits in words of 64.
ghost use Rattle.std.specs.Prelude.{◌≡◌, ◌≤◌, ◌<◌, ◌+◌, ◌-◌, ◌*◌, ◌==◌, ◌||◌, ℕ, length, OnOk};
ghost use Rattle.queue_files.specs.Kept.{leading};
ghost use Rattle.queue_core.specs.Bits.{bit_of, is_among, bits_from};

use std::alloc::AllocError;

/// How many bits a word has.
const WORD_BITS: usize = 64;

/// Whether this bit is set.
fn is_set(words: &[u64], bit: usize) -> bool
    requires { bit < 64 * length words.now }
    ensures { result ≡ bit_of words.now bit }
{
    words[bit / WORD_BITS] >> (bit % WORD_BITS) & 1 == 1
}

/// Sets this bit.
fn set_bit(words: &mut Vec<u64>, bit: usize)
    requires { bit < 64 * length words.old.items }
    ensures len { length words.new.items ≡ length words.old.items }
    ensures bits { (k : ℕ)
        → bit_of words.new.items k ≡ (bit_of words.old.items k || (k == bit)) }
{
    words[bit / WORD_BITS] |= 1 << (bit % WORD_BITS);
}

/// Sets the bits from one on, up to another.
pub(crate) fn set_bits(words: &mut Vec<u64>, from: usize, to: usize)
    requires order { from ≤ to }
    requires within { to ≤ 64 * length words.old.items }
    ensures len { length words.new.items ≡ length words.old.items }
    ensures bits { (k : ℕ)
        → bit_of words.new.items k ≡ (bit_of words.old.items k || is_among from to k) }
{
    let mut bit = from;
    while bit < to {
        set_bit(words, bit);
        bit += 1;
    }
}

/// The first bit that isn't set, from one on up to an end.
pub(crate) fn first_unset(words: &[u64], from: usize, end: usize) -> usize
    requires order { from ≤ end }
    requires within { end ≤ 64 * length words.now }
    ensures { result ≡ from + leading (bits_from words.now from (end - from)) }
{
    let mut bit = from;
    while bit < end {
        if !is_set(words, bit) {
            return bit;
        }
        bit += 1;
    }
    bit
}

/// Room for a bit more behind so many, which isn't set.
pub(crate) fn make_room(words: &mut Vec<u64>, count: usize) -> Result<(), AllocError>
    requires { count ≤ 64 * length words.old.items }
    ensures room { OnOk result (count < 64 * length words.new.items) }
    ensures more { length words.old.items ≤ length words.new.items }
    ensures bits { (k : ℕ) → bit_of words.new.items k ≡ bit_of words.old.items k }
{
    if count / WORD_BITS == words.len() {
        words.push(0)?;
    }
    Ok(())
}
