// Bytes in base 16.
use hex;
use std::alloc::{AllocError, Global};

/// The bytes of a line in base 16. Its words follow one another, and so do what `+` joins; `COUNT*DIGITS` stands for so many times
/// these bytes.
pub fn bytes_of(alloc: Global, line: &str) -> Result<Vec<u8>, AllocError> {
    let mut bytes = Vec::new(alloc);
    for word in line.split_whitespace() {
        add_word(&mut bytes, word)?;
    }
    Ok(bytes)
}

fn add_word(to: &mut Vec<u8>, word: &str) -> Result<(), AllocError> {
    for piece in word.split('+') {
        let (count, digits) = piece.split_once('*').unwrap_or(("1", piece));
        add_times(to, count.parse::<u32>().unwrap_or(0), digits)?;
    }
    Ok(())
}

fn add_times(to: &mut Vec<u8>, count: u32, digits: &str) -> Result<(), AllocError> {
    let Ok(piece) = hex::decode(*to.allocator(), digits) else {
        return Err(AllocError);
    };
    for _ in 0..count {
        to.extend_from_slice(&piece)?;
    }
    Ok(())
}

/// Adds bytes in base 16.
pub fn add_bytes(to: &mut String, bytes: &[u8]) -> Result<(), AllocError> {
    for byte in bytes {
        write!(to, "{byte:02x}")?;
    }
    Ok(())
}
