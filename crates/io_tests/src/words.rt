// The words of a line.
use std::alloc::{AllocError, Global};

/// A number; one that isn't read is 0.
pub fn number(word: &str) -> u64 {
    word.parse().unwrap_or(0)
}

/// A line with these in the place of each `~`, and of each `@`.
pub fn with_marks(
    alloc: Global,
    line: &str,
    [folder, program]: [&str; 2],
) -> Result<String, AllocError> {
    let mut text = String::new(alloc);
    for c in line.chars() {
        match c {
            '~' => text.push_str(folder)?,
            '@' => text.push_str(program)?,
            _ => text.push(c)?,
        }
    }
    Ok(text)
}
