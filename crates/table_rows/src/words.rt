// The parts, words and numbers of a row.

/// What stands before the first bar, and what stands behind it.
pub fn part(row: &str) -> (&str, &str) {
    let (first, rest) = row.split_once('|').unwrap_or((row, ""));
    (first.trim(), rest)
}

/// What stands before the first blank, and what stands behind it.
pub fn first_word(line: &str) -> (&str, &str) {
    line.split_once(' ').unwrap_or((line, ""))
}

/// The first number of a line, 0 where there is none, and what stands behind it.
pub fn first_number(line: &str) -> (u64, &str) {
    let (word, rest) = first_word(line);
    (word.parse().unwrap_or(0), rest)
}
