// What the names of a store say: the folder of each, and where a link leads.

use plain_data::Text;
use std::alloc::Global;
use std::fs::{self, File, OpenOptions};
use std::io::{self, ErrorKind};
use std::path::PathBuf;
use std::rt::Files;

// How many links a name may lead over, as on Linux (path_resolution(7)).
const MOST_LINKS: u32 = 40;

/// The folder of a name, as a path that can be opened.
pub fn folder_of(name: &str) -> &str {
    match name.rsplit_once('/') {
        Some(("", _)) => "/",
        Some((folder, _)) => folder,
        None => ".",
    }
}

/// The folder of the names that begin with this folder and a slash, or with it alone where it ends with
/// a slash or is empty.
pub fn listed_folder(folder: &str) -> &str {
    match folder.strip_suffix('/') {
        Some("") => "/",
        Some(front) => front,
        None if folder.is_empty() => ".",
        None => folder,
    }
}

/// Whether a name is one that a queue gives to its files: `page.N`, `checkpoint.N` or `checkpoint.head`.
pub fn is_of_queue(name: &str) -> bool {
    let last = match name.rsplit_once('/') {
        Some((_, last)) => last,
        None => name,
    };
    match last.split_once('.') {
        Some(("page", number)) => is_number(number),
        Some(("checkpoint", number)) => number == "head" || is_number(number),
        _ => false,
    }
}

fn is_number(word: &str) -> bool {
    word.parse::<u64>().is_ok()
}

/// The name of the file itself: where the link of this name leads, and each link behind it.
pub fn place_of_file(
    rt: &(impl Files<File = File> + AllocGlobal),
    alloc: Global,
    name: &str,
) -> io::Result<Text> {
    let mut place = Text::of(alloc, name)?;
    for _ in 0..MOST_LINKS {
        match fs::symlink_metadata(rt, place.as_str()) {
            Ok(metadata) if metadata.is_symlink() => {
                place = target_of(rt, alloc, place.as_str())?;
            }
            Err(error) if error.kind() != ErrorKind::NotFound => return Err(error),
            _ => return Ok(place),
        }
    }
    Err(ErrorKind::FilesystemLoop.into())
}

// Where a link leads. A target that is no whole path begins at the folder of the link.
fn target_of(
    rt: &(impl Files<File = File> + AllocGlobal),
    alloc: Global,
    link: &str,
) -> io::Result<Text> {
    let mut path = PathBuf::from_str(alloc, folder_of(link))?;
    path.push(fs::read_link(rt, link)?)?;
    Ok(Text::of(alloc, path.into_string().as_str())?)
}

/// Takes the lock on a folder: on the file beside it that has its name and `.lock`, which is made if
/// it is missing. The root has none. It fails where another object holds it, be it in another process.
pub fn take_lock(
    rt: &(impl Files<File = File> + AllocGlobal),
    folder: &str,
) -> io::Result<Option<File>> {
    let mut path = fs::canonicalize(rt, folder)?.into_string();
    if path.as_str() == "/" {
        return Ok(None);
    }
    path.push_str(".lock")?;
    let file = OpenOptions::new()
        .read(true)
        .write(true)
        .create(true)
        .open(rt, path.as_str())?;
    file.try_lock()?;
    Ok(Some(file))
}
