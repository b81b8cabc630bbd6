// The words, numbers, moments and bytes of a row.
use in_lines::Codec;
use plain_data::{Instant, Items, Text};
use std::alloc::{AllocError, Global};
use store_memory::FileTable;
use table_rows::bytes_of;

/// A number, and the last one for a word that is none.
pub fn number(word: &str) -> u64 {
    word.parse().unwrap_or(u64::MAX)
}

/// A number, and 0 for a word that is none.
pub fn small_number(word: &str) -> u32 {
    word.parse().unwrap_or(0)
}

/// The numbers that stand between blanks.
pub fn numbers_of(alloc: Global, words: &str) -> Result<Vec<u64>, AllocError> {
    let mut numbers = Vec::new(alloc);
    for word in words.split_whitespace() {
        numbers.push(number(word))?;
    }
    Ok(numbers)
}

/// The codec of a name, and `plain` for a word that is none.
pub fn codec_of(word: &str) -> Codec {
    Codec::named(word).unwrap_or(Codec::Plain)
}

/// So many seconds behind the beginning of 1970.
pub fn moment_of(seconds: u64) -> Instant {
    match Instant::from_nanos(i128::from(seconds) * 1_000_000_000) {
        Some(moment) => moment,
        None => Instant::epoch(),
    }
}

/// Files of which one has these bytes, or none where there is no such file.
pub fn files_with(alloc: Global, name: &str, digits: &str) -> Result<FileTable, AllocError> {
    let mut files = FileTable::new(alloc);
    if digits != "-" {
        let file = Items::from_vec(bytes_of(alloc, digits)?);
        let _ = files.insert(Text::of(alloc, name)?, file)?;
    }
    Ok(files)
}
