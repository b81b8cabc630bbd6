// What other programs do with files.
use crate::answers::CallAnswer;
use crate::words::number;
use std::fs::{self, File};
use std::io;
use std::os::unix::fs::symlink;
use table_rows::first_word;

/// Does what a call says, and answers whether that worked.
pub fn machine_answer(rt: &HostRuntime, call: &str) -> io::Result<CallAnswer> {
    let (call, rest) = first_word(call);
    let (name, rest) = first_word(rest);
    match call {
        "folder" => Ok(CallAnswer::made(fs::create_dir_all(rt, name))),
        "file" => Ok(CallAnswer::made(fs::write(rt, name, rest.as_bytes()))),
        "files" => make_files(rt, name, number(rest)),
        "link" => Ok(CallAnswer::made(symlink(rt, rest, name))),
        "move" => Ok(CallAnswer::made(fs::rename(rt, name, rest))),
        "remove" => Ok(CallAnswer::made(remove(rt, name))),
        "handles" => handles(rt, number(name)),
        "there" => Ok(CallAnswer::made(fs::symlink_metadata(rt, name).map(|_| ()))),
        _ => show(rt, name),
    }
}

// Removes a file, or a folder with all that is in it.
fn remove(rt: &HostRuntime, name: &str) -> io::Result<()> {
    if fs::symlink_metadata(rt, name)?.is_dir() {
        fs::remove_dir_all(rt, name)
    } else {
        fs::remove_file(rt, name)
    }
}

// Makes so many files of two bytes in a folder.
fn make_files(rt: &HostRuntime, folder: &str, count: u64) -> io::Result<CallAnswer> {
    for i in 0..count {
        let name = format!(in rt.alloc(); "{folder}/{i}")?;
        fs::write(rt, name.as_str(), b"ab".as_slice())?;
    }
    Ok(CallAnswer::Number(count))
}

// The bytes of a file.
fn show(rt: &HostRuntime, name: &str) -> io::Result<CallAnswer> {
    match fs::read(rt, name) {
        Ok(bytes) => Ok(CallAnswer::Bytes(bytes)),
        Err(_) => Ok(CallAnswer::None),
    }
}

// Whether this process has fewer handles than this.
fn handles(rt: &HostRuntime, most: u64) -> io::Result<CallAnswer> {
    let count = fs::read_dir(rt, "/proc/self/fd")?.count() as u64;
    Ok(if count < most {
        CallAnswer::Text("fewer")
    } else {
        CallAnswer::Number(count)
    })
}

/// The greatest length that a file may have where this one stands.
pub fn greatest_length(rt: &HostRuntime, name: &str) -> io::Result<u64> {
    let file = File::create(rt, name)?;
    let most = longest(&file)?;
    fs::remove_file(rt, name)?;
    Ok(most)
}

fn longest(file: &File) -> io::Result<u64> {
    let mut most = 0;
    for bit in 0..63_u32 {
        let length = most | (1_u64 << (62 - bit));
        if file.set_len(length).is_ok() {
            most = length;
        }
    }
    Ok(most)
}
