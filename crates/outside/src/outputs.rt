//! The outputs of this process, none of which may be a file that the programs keep.
use crate::named_file::is_same;
use crate::store_names::KEPT;
use std::alloc::Global;
use std::fs::Metadata;
use std::io::ErrorKind;
use std::rt::Files as HostSystem;
use std::{fs, io};

/// The folder in which the system names the streams of this process.
const STREAMS: &str = "/proc/self/fd";

/// The standard output and the standard error among them.
const OUTPUTS: [&str; 2] = ["/proc/self/fd/1", "/proc/self/fd/2"];

/// Fails if an output is a store or a log, of any folder, or one in the making: prints would get into it, or be lost
/// with the name. If the system doesn't name the streams, nobody can tell, so it fails too.
pub(crate) fn require_apart<R: HostSystem>(rt: &R, alloc: Global) -> io::Result<()> {
    fs::metadata(rt, STREAMS)?;
    for output in OUTPUTS {
        if is_kept(rt, alloc, output)? {
            return Err(io::Error::from(ErrorKind::ResourceBusy));
        }
    }
    Ok(())
}

/// Whether no output is a store or a log, of any folder, or one in the making, as far as the system tells.
pub fn outputs_are_apart<R: HostSystem>(rt: &R, alloc: Global) -> bool {
    require_apart(rt, alloc).is_ok()
}

/// Whether an output is a file that the programs keep. One that is closed is no file.
fn is_kept<R: HostSystem>(rt: &R, alloc: Global, output: &str) -> io::Result<bool> {
    match fs::metadata(rt, output) {
        Ok(stream) => Ok(is_here(rt, &stream) || has_name(rt, alloc, output)?),
        Err(error) if error.kind() == ErrorKind::NotFound => Ok(false),
        Err(error) => Err(error),
    }
}

/// Whether one of the names leads to this file here.
fn is_here<R: HostSystem>(rt: &R, stream: &Metadata) -> bool {
    for names in KEPT {
        if leads_to(rt, names.store, stream) || leads_to(rt, names.unfinished, stream) {
            return true;
        }
    }
    false
}

/// Whether a name leads to this file, at the end of any links. One that can't be looked at doesn't.
fn leads_to<R: HostSystem>(rt: &R, name: &str, stream: &Metadata) -> bool {
    match fs::metadata(rt, name) {
        Ok(found) => is_same(stream, &found),
        Err(_) => false,
    }
}

/// Whether the path of an output ends in one of the names. A path that is no text, or is too long to be told, is taken
/// for another's.
fn has_name<R: HostSystem>(rt: &R, alloc: Global, output: &str) -> io::Result<bool> {
    let path = match rt.read_link(alloc, output) {
        Ok(path) => path,
        Err(error) if error.kind() == ErrorKind::InvalidFilename => return Ok(false),
        Err(error) => return Err(error),
    };
    for names in KEPT {
        if path.ends_with(names.store) || path.ends_with(names.unfinished) {
            return Ok(true);
        }
    }
    Ok(false)
}
