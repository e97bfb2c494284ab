//! Where in a file a fault lies.
use crate::shown::{SHOWN, push_name, push_shown};
use std::alloc::{AllocError, Global};
use std::io::{ErrorKind, Read};
use std::os::unix::fs::MetadataExt;
use std::rt::Files;
use std::{fs, io};

/// How many bytes of a file are read at once.
const PIECE: usize = 4096;

/// A moment, in seconds and nanoseconds of the system's clock.
#[derive(Clone, Copy)]
pub struct Moment {
    pub(crate) seconds: u64,
    pub(crate) nanoseconds: u32,
}

impl Moment {
    /// Whether a time of a file, as the system has it, isn't later.
    fn is_not_before(&self, seconds: i64, nanoseconds: i64) -> bool {
        match (u64::try_from(seconds), u32::try_from(nanoseconds)) {
            (Ok(seconds), Ok(nanoseconds)) => {
                seconds < self.seconds || seconds == self.seconds && nanoseconds <= self.nanoseconds
            }
            _ => seconds < 0,
        }
    }
}

/// Whether a name leads to a plain file that hasn't changed since a moment.
pub fn is_unchanged<R: Files>(rt: &R, name: &str, since: Moment) -> bool {
    match fs::metadata(rt, name) {
        Ok(found) => found.is_file() && since.is_not_before(found.ctime(), found.ctime_nsec()),
        Err(_) => false,
    }
}

/// A line of a file: the bytes of it that are shown and one more, without its LF, and whether it has one.
#[derive(Drop)]
pub(crate) struct FoundLine {
    pub(crate) bytes: Vec<u8>,
    pub(crate) ended: bool,
}

/// What is looked for in a file: a line, of which `before` others have still to end.
#[derive(Drop)]
struct Search {
    before: u64,
    begun: bool,
    found: FoundLine,
}

impl Search {
    /// Takes bytes of the file, up to the end of the line.
    fn take(&mut self, piece: &[u8]) -> Result<(), AllocError> {
        for byte in piece {
            if self.before > 0 {
                if *byte == b'\n' {
                    self.before -= 1;
                }
            } else if *byte == b'\n' {
                self.begun = true;
                self.found.ended = true;
                return Ok(());
            } else {
                self.begun = true;
                if self.found.bytes.len() <= SHOWN {
                    self.found.bytes.push(*byte)?;
                }
            }
        }
        Ok(())
    }
}

/// A line of a file, counted from 1, if the file has it.
pub(crate) fn line_of<R: Files>(
    rt: &R,
    alloc: Global,
    name: &str,
    number: u64,
) -> io::Result<Option<FoundLine>> {
    let mut file = fs::open(rt, name)?;
    let mut search = Search {
        before: number.saturating_sub(1),
        begun: false,
        found: FoundLine {
            bytes: Vec::new(alloc),
            ended: false,
        },
    };
    let mut piece = [0; PIECE];
    for _ in 0..u64::MAX {
        let count = file.read(&mut piece)?;
        if count == 0 || search.found.ended {
            break;
        }
        if search.take(&piece[..count]).is_err() {
            return Err(io::Error::from(ErrorKind::OutOfMemory));
        }
    }
    Ok(if search.begun {
        Some(search.found)
    } else {
        None
    })
}

/// Appends a place and its text.
pub(crate) fn push_place(
    text: &mut String,
    name: &str,
    number: u64,
    line: &[u8],
    ended: bool,
) -> Result<(), AllocError> {
    text.push_str("  --> ")?;
    push_name(text, name)?;
    write!(text, ":{number}")?;
    if !line.is_empty() {
        text.push_str(": ")?;
        push_shown(text, line, SHOWN)?;
    }
    if !ended {
        text.push_str(" (the line has no end)")?;
    }
    text.push('\n')
}
