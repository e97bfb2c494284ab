//! Files that are read to say more: plain ones alone.
use std::alloc::{AllocError, Global};
use std::io::Read;
use std::rt::Files;
use std::{fs, io};

/// How many bytes of a file are read at once.
const PIECE: usize = 4096;

/// All bytes of a file, if it can be read and has at most `most`.
pub(crate) fn read_file<R: Files>(
    rt: &R,
    alloc: Global,
    name: &str,
    most: usize,
) -> Option<Vec<u8>> {
    let mut file = fs::open(rt, name).ok()?;
    let mut bytes = Vec::new(alloc);
    let mut piece = [0; PIECE];
    for _ in 0..u64::MAX {
        let count = file.read(&mut piece).ok()?;
        if count == 0 {
            return Some(bytes);
        }
        if bytes.len() > most {
            return None;
        }
        bytes.extend_from_slice(&piece[..count]).ok()?;
    }
    None
}

/// Whether a name leads to something.
pub(crate) fn is_there<R: Files>(rt: &R, name: &str) -> bool {
    fs::metadata(rt, name).is_ok()
}

/// How many bytes the file of a name has; 0 if the system doesn't tell.
pub(crate) fn named_length<R: Files>(rt: &R, name: &str) -> u64 {
    match fs::metadata(rt, name) {
        Ok(found) => found.len(),
        Err(_) => 0,
    }
}

/// Whether a plain file can be opened and read. Nothing is asked of another one, which might never answer.
fn try_file<R: Files>(rt: &R, name: &str) -> io::Result<()> {
    let found = fs::metadata(rt, name)?;
    if found.is_file() || found.is_dir() {
        let mut file = fs::open(rt, name)?;
        file.read(&mut [0])?;
    }
    Ok(())
}

/// Appends why a file can't be read, with the system's own words; nothing if it can be.
pub(crate) fn push_why_unreadable<R: Files>(
    text: &mut String,
    rt: &R,
    name: &str,
) -> Result<(), AllocError> {
    let Err(error) = try_file(rt, name) else {
        return Ok(());
    };
    text.push_str("  --> ")?;
    crate::shown::push_name(text, name)?;
    write!(text, ": {error}")?;
    if name == "-" {
        text.push_str("; the standard input is /dev/stdin")?;
    }
    text.push('\n')
}
