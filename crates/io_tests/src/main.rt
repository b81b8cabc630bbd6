//! Makes the calls that stand on stdin, one a line, on stores, files and connections of the real machine, and prints
//! each line with what the call answers.
//!
//! A line has the object, the call and its words. `~` in it stands for a folder of the run's own, which is missing at
//! first, or for the one that the command line names, and `@` for the program itself. `a` and `b` are two stores on
//! the disk, `memory` is one in memory, `files` are files that other programs write, `links` are connections, and
//! `machine` and `peers` do what other programs do. A line that begins with `#` is a heading. The answers in `stdout`
//! were worked out by hand, from what the traits promise.
#![tactic(auto)]

mod answers;
mod links;
mod machine;
mod memory;
mod stores;
mod words;

use answers::CallAnswer;
use io_real::{FileStore, RealFiles, TcpLinks};
use links::{Peers, links_answer, peers_answer};
use machine::machine_answer;
use memory::{empty_store, memory_answer};
use std::io::{self, ErrorKind};
use std::{env, fs, process};
use store_memory::MemoryStore;
use stores::{files_answer, store_answer};
use table_rows::first_word;
use words::with_marks;

/// The objects that are called.
struct Objects<'a> {
    a: FileStore<&'a HostRuntime>,
    b: FileStore<&'a HostRuntime>,
    memory: MemoryStore,
    files: RealFiles<&'a HostRuntime>,
    links: TcpLinks<&'a HostRuntime>,
    peers: Peers,
}

// Written out, so that it is one call wherever an error is handed on.
impl Drop for Objects<'_> {
    fn drop(self) {
        let Objects {
            a: _a,
            b: _b,
            memory: _memory,
            files: _files,
            links: _links,
            peers: _peers,
        } = self;
    }
}

fn main(rt: HostRuntime) -> io::Result<()> {
    match env::args(&rt)?.nth(1) {
        Some(folder) => answer_all(&rt, folder.as_str()),
        None => {
            let folder = own_folder(&rt)?;
            answer_all(&rt, folder.as_str())?;
            remove_folder(&rt, folder.as_str())
        }
    }
}

/// Makes the calls of all lines.
fn answer_all(rt: &HostRuntime, folder: &str) -> io::Result<()> {
    let program = fs::canonicalize(rt, "/proc/self/exe")?.into_string();
    let marks = [folder, program.as_str()];
    let memory = empty_store(rt.alloc())?;
    let mut objects = Objects {
        a: FileStore::new(rt.alloc(), rt),
        b: FileStore::new(rt.alloc(), rt),
        memory,
        files: RealFiles::new(rt.alloc(), rt),
        links: TcpLinks::new(rt.alloc(), rt),
        peers: Peers::new(rt.alloc()),
    };
    for line in rt.stdin().lines(rt.alloc()) {
        answer_line(rt, &mut objects, marks, line?.as_str())?;
    }
    Ok(())
}

/// A folder that no other run has, which is missing.
fn own_folder(rt: &HostRuntime) -> io::Result<String> {
    let temporary = env::temp_dir(rt)?;
    let id = process::id(rt.process());
    let folder = format!(in rt.alloc(); "{}/io_tests_{id}", temporary.display())?;
    remove_folder(rt, folder.as_str())?;
    Ok(folder)
}

fn remove_folder(rt: &HostRuntime, folder: &str) -> io::Result<()> {
    match fs::remove_dir_all(rt, folder) {
        Err(error) if error.kind() == ErrorKind::NotFound => Ok(()),
        outcome => outcome,
    }
}

/// Prints a line with its answer.
fn answer_line<'a>(
    rt: &'a HostRuntime,
    objects: &mut Objects<'a>,
    marks: [&str; 2],
    line: &str,
) -> io::Result<()> {
    if line.is_empty() || line.starts_with('#') {
        return println!(rt; "{line}");
    }
    let call = with_marks(rt.alloc(), line, marks)?;
    let answer = answer(rt, objects, call.as_str())?;
    println!(rt; "{line}: {answer}")
}

/// What a call answers.
fn answer<'a>(
    rt: &'a HostRuntime,
    objects: &mut Objects<'a>,
    line: &str,
) -> io::Result<CallAnswer> {
    let (object, call) = first_word(line);
    match object {
        "a" => store_answer(rt, &mut objects.a, call),
        "b" => store_answer(rt, &mut objects.b, call),
        "memory" => memory_answer(rt.alloc(), &mut objects.memory, call),
        "files" => files_answer(rt.alloc(), &mut objects.files, call),
        "links" => links_answer(rt, &mut objects.links, &objects.peers, call),
        "peers" => peers_answer(rt, &mut objects.peers, call),
        _ => machine_answer(rt, call),
    }
}
