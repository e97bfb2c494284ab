//! What program this is.
use crate::files::read_file;
use crate::table::Program;
use crate::texts::VERSION;
use crate::tree::tree_of;
use sha2::{Digest, Sha256};
use std::alloc::{AllocError, Global};
use std::env;
use std::rt::Files;

/// The most bytes that a program's file has.
const LONGEST_PROGRAM: usize = 67_108_864;

/// The most bytes that are read of what stands beside a program.
const LONGEST_RECORD: usize = 4096;

/// Appends bytes in hexadecimal digits.
pub(crate) fn push_hexadecimal(text: &mut String, bytes: &[u8]) -> Result<(), AllocError> {
    for byte in bytes {
        write!(text, "{byte:02x}")?;
    }
    Ok(())
}

/// The digest of a program's own file, in hexadecimal digits, if the system lets it be read.
fn digest_of_program<R: Files>(rt: &R, alloc: Global) -> Option<String> {
    let bytes = read_file(rt, alloc, "/proc/self/exe", LONGEST_PROGRAM)?;
    let mut digits = String::new(alloc);
    push_hexadecimal(&mut digits, &Sha256::digest(bytes.as_slice())).ok()?;
    Some(digits)
}

/// What the build or the release has noted beside the program's file.
fn record_beside<R: Files + AllocGlobal>(rt: &R, alloc: Global) -> Option<String> {
    let path = env::current_exe(rt).ok()?;
    let mut name = String::from_str(alloc, path.to_str()?).ok()?;
    name.push_str(".built").ok()?;
    let bytes = read_file(rt, alloc, name.as_str(), LONGEST_RECORD)?;
    String::from_utf8(bytes).ok()
}

/// What a record says behind a word at the beginning of a line.
fn said_in<'a>(record: &'a str, word: &str) -> Option<&'a str> {
    for line in record.lines() {
        if let Some(rest) = line.strip_prefix(word) {
            return rest.strip_prefix(' ');
        }
    }
    None
}

/// Appends what program this is: its version; commit, digest and kit, where the build noted them for this very file;
/// and the layouts of the store that it reads.
pub(crate) fn push_version<R: Files + AllocGlobal>(
    text: &mut String,
    rt: &R,
    alloc: Global,
    program: &Program,
) -> Result<(), AllocError> {
    let digest = digest_of_program(rt, alloc).unwrap_or(String::from_str(alloc, "unknown")?);
    let record = record_beside(rt, alloc).unwrap_or(String::new(alloc));
    let is_noted = said_in(record.as_str(), "program") == Some(digest.as_str());
    let (commit, kit) = if is_noted {
        (
            said_in(record.as_str(), "commit"),
            said_in(record.as_str(), "kit"),
        )
    } else {
        (None, None)
    };
    push_line(text, program.name, VERSION)?;
    push_line(text, "commit:", commit.unwrap_or("unknown"))?;
    push_line(text, "program: SHA-256", digest.as_str())?;
    push_line(text, "kit:", kit.unwrap_or("unknown"))?;
    push_line(text, "store:", program.layouts)?;
    match tree_of(rt, alloc) {
        Some(tree) => write!(text, "pages: {tree}/docs\n"),
        None => Ok(()),
    }
}

/// Appends a line of a word and what it says.
fn push_line(text: &mut String, word: &str, said: &str) -> Result<(), AllocError> {
    text.push_str(word)?;
    text.push(' ')?;
    text.push_str(said)?;
    text.push('\n')
}
