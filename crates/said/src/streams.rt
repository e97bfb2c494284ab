//! The outputs of this process, of which one may be a file that the programs keep.
use std::alloc::Global;
use std::fs::Metadata;
use std::io::ErrorKind;
use std::os::unix::fs::MetadataExt;
use std::rt::Files;
use std::{fs, io};

/// The folder in which the system names the streams of this process.
pub(crate) const STREAMS: &str = "/proc/self/fd";

/// The standard output, as the system names it.
pub(crate) const OUTPUT: &str = "/proc/self/fd/1";

/// The standard error, as the system names it.
pub(crate) const ERROR: &str = "/proc/self/fd/2";

/// The files that the programs keep: a store, a log, and each of them in the making.
const KEPT: [&str; 4] = ["taxi.store", "taxi.store.new", "taxi.log", "taxi.log.new"];

/// The name of the file that the programs keep, here or in another folder, to which a stream leads. None if it leads to
/// none. It fails if the system doesn't tell.
pub(crate) fn kept_behind<R: Files>(
    rt: &R,
    alloc: Global,
    stream: &str,
) -> io::Result<Option<String>> {
    fs::metadata(rt, STREAMS)?;
    let found = match fs::metadata(rt, stream) {
        Ok(found) => found,
        Err(error) if error.kind() == ErrorKind::NotFound => return Ok(None),
        Err(error) => return Err(error),
    };
    match kept_here(rt, &found) {
        Some(name) => Ok(Some(String::from_str(alloc, name)?)),
        None => kept_elsewhere(rt, alloc, stream),
    }
}

/// Which of the names leads to this file here, at the end of any links.
fn kept_here<R: Files>(rt: &R, stream: &Metadata) -> Option<&'static str> {
    for name in KEPT {
        if let Ok(kept) = fs::metadata(rt, name)
            && kept.dev() == stream.dev()
            && kept.ino() == stream.ino()
        {
            return Some(name);
        }
    }
    None
}

/// The path of a stream, if it ends in one of the names. One that is too long to be told is another file's.
fn kept_elsewhere<R: Files>(rt: &R, alloc: Global, stream: &str) -> io::Result<Option<String>> {
    let path = match rt.read_link(alloc, stream) {
        Ok(path) => path,
        Err(error) if error.kind() == ErrorKind::InvalidFilename => return Ok(None),
        Err(error) => return Err(error),
    };
    for name in KEPT {
        if path.ends_with(name) {
            return Ok(Some(String::from_str(alloc, path.as_str())?));
        }
    }
    Ok(None)
}
