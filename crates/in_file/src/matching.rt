// Whether a name matches a pattern with `*`.
ghost use Rattle.std.specs.Prelude.{◌≡◌, ◌+◌, ◌==◌, ◌&&◌, List, Bool, ℕ, IfOk, length};
ghost use Rattle.std.specs.List.{list_any};
ghost use Rattle.in_file.specs.Matching as spec;
ghost use Rattle.in_file.specs.Matching.{any_from, behind, ends_of, is_none, stands_for, starts};

use std::alloc::{AllocError, Global};

/// Whether a name is one that a pattern stands for: each `*` stands for any bytes, also for none, and every other byte
/// for itself. The only error is want of memory.
///
/// It takes time in proportion to the length of the pattern and the square of that of the name, at most, however many `*`
/// there are.
pub fn is_match(alloc: Global, pattern: &str, name: &str) -> Result<bool, AllocError>
    ensures { IfOk result (λ found. found ≡ stands_for pattern.now name.now) }
{
    bytes_match(alloc, pattern.as_bytes(), name.as_bytes())
}

fn bytes_match(alloc: Global, pattern: &[u8], name: &[u8]) -> Result<bool, AllocError>
    ensures { IfOk result (λ found. found ≡ stands_for pattern.now name.now) }
{
    let mut ends = nothing(alloc, name)?;
    let mut left = pattern.len();
    while left > 0 {
        left -= 1;
        ends = ends_behind(alloc, pattern[left], name, &ends)?;
    }
    Ok(first_of(&ends))
}

fn first_of(ends: &[bool]) -> bool
    ensures { result ≡ spec.first_of ends.now }
{
    match ends {
        [first, ..] => *first,
        [] => false,
    }
}

/// For each end of a name, from the whole on, whether it is empty.
fn nothing(alloc: Global, name: &[u8]) -> Result<Vec<bool>, AllocError>
    ensures { IfOk result (λ ends. ends.items ≡ ends_of is_none name.now) }
{
    let mut ends = vec![in alloc; false; name.len()]?;
    ends.push(true)?;
    Ok(ends)
}

/// For each end of a name, whether a byte of a pattern stands for its front, and what is behind passes.
fn ends_behind(alloc: Global, byte: u8, name: &[u8], ends: &[bool]) -> Result<Vec<bool>, AllocError>
    requires { length ends.now ≡ length name.now + 1 }
    ensures { IfOk result (λ more. (test : List ℕ → Bool)
        → ends.now ≡ ends_of test name.now → more.items ≡ ends_of (behind byte test) name.now) }
{
    if byte == b'*' {
        ends_behind_star(alloc, ends)
    } else {
        ends_behind_byte(alloc, byte, name, ends)
    }
}

fn ends_behind_byte(
    alloc: Global,
    byte: u8,
    name: &[u8],
    ends: &[bool],
) -> Result<Vec<bool>, AllocError>
    requires { length ends.now ≡ length name.now + 1 }
    ensures { IfOk result (λ more. (test : List ℕ → Bool)
        → ends.now ≡ ends_of test name.now → more.items ≡ ends_of (starts byte test) name.now) }
{
    let mut more = Vec::new(alloc);
    for (at, &here) in name.iter().enumerate() {
        more.push(begins(byte, here, ends[at + 1]))?;
    }
    more.push(false)?;
    Ok(more)
}

fn begins(byte: u8, here: u8, passes: bool) -> bool
    ensures { result ≡ (here == byte && passes) }
{
    here == byte && passes
}

fn ends_behind_star(alloc: Global, ends: &[bool]) -> Result<Vec<bool>, AllocError>
    ensures { IfOk result (λ more. more.items ≡ any_from ends.now) }
{
    let mut more = Vec::new(alloc);
    for at in 0..ends.len() {
        more.push(any_true(&ends[at..]))?;
    }
    Ok(more)
}

fn any_true(ends: &[bool]) -> bool
    ensures { result ≡ list_any (λ end. end) ends.now }
{
    ends.iter().any(|end| *end)
}
