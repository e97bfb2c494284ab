//! What is said where a call of the device failed.
use crate::files::{is_there, named_length};
use crate::shown::push_name;
use crate::statuses::after_failure;
use crate::streams::{ERROR, OUTPUT, STREAMS, kept_behind};
use crate::table::Program;
use outside::{Act, Failure};
use std::alloc::{AllocError, Global};
use std::fs;
use std::io::ErrorKind;
use std::rt::Files;

/// What failed, as far as the system tells by now: what is to be said of it, or nothing beyond the error.
#[derive(Clone, Copy)]
enum Cause {
    Said,
    Unknown,
}

/// Appends what failed, why, and what to do, given the command and whether the store was read before.
pub(crate) fn push_failure<R: Files>(
    text: &mut String,
    rt: &R,
    alloc: Global,
    program: &Program,
    command: &str,
    failure: &Failure,
    has_begun: bool,
) -> Result<(), AllocError> {
    if let Cause::Unknown = push_cause(text, rt, alloc, program)? {
        push_error(text, rt, alloc, program, failure)?;
    }
    text.push_str("; ")?;
    let there = is_there(rt, program.store);
    text.push_str(after_failure(command, has_begun, there))?;
    text.push('\n')
}

/// Appends what stops each call of the device, if something does.
fn push_cause<R: Files>(
    text: &mut String,
    rt: &R,
    alloc: Global,
    program: &Program,
) -> Result<Cause, AllocError> {
    if fs::metadata(rt, STREAMS).is_err() {
        text.push_str(
            "/proc does not show this process, so nobody can tell what its outputs are; mount it",
        )?;
        return Ok(Cause::Said);
    }
    for (stream, called) in [(OUTPUT, "the output"), (ERROR, "the standard error")] {
        if let Ok(Some(name)) = kept_behind(rt, alloc, stream) {
            write!(text, "{called} is ")?;
            push_name(text, name.as_str())?;
            text.push_str(" itself; print to another file")?;
            return Ok(Cause::Said);
        }
    }
    match fs::metadata(rt, program.store) {
        Err(error) if error.kind() != ErrorKind::NotFound => {
            let store = program.store;
            write!(
                text,
                "{store} cannot be looked at ({error}); see where its name leads"
            )?;
            Ok(Cause::Said)
        }
        _ => Ok(Cause::Unknown),
    }
}

/// Appends what was to be done and the error.
fn push_error<R: Files>(
    text: &mut String,
    rt: &R,
    alloc: Global,
    program: &Program,
    failure: &Failure,
) -> Result<(), AllocError> {
    let error = failure.error;
    if failure.act == Act::Print {
        text.push_str("the output failed: ")?;
        return match found_of_output(error.kind()) {
            Some(words) => text.push_str(words),
            None => write!(text, "{error}"),
        };
    }
    let store = program.store;
    if fs::metadata(rt, store).is_err() {
        return push_unmade(text, rt, alloc, program, failure);
    }
    write!(text, "{store} {}: ", undone(failure.act))?;
    match error.kind() {
        ErrorKind::WouldBlock => text.push_str("it is in use by another process; wait for its end"),
        ErrorKind::UnexpectedEof => push_short(text, rt, program),
        ErrorKind::Unsupported => text.push_str("it is no plain file; move it away"),
        _ => write!(text, "{error}"),
    }
}

/// What was to be done with a store.
fn undone(act: Act) -> &'static str {
    match act {
        Act::Print => "failed",
        Act::Read => "could not be opened or read",
        Act::Write => "could not be made or written",
        Act::Sync => "could not be opened, or brought to the medium",
    }
}

/// A failure of the output in plain words.
fn found_of_output(kind: ErrorKind) -> Option<&'static str> {
    match kind {
        ErrorKind::BrokenPipe => Some(
            "its reader has gone, as | head does when it has its lines: no disk failed by that; print to a file",
        ),
        ErrorKind::WouldBlock => {
            Some("it took nothing for ten minutes; see to its reader, or print to a file")
        }
        _ => None,
    }
}

/// Appends how short the store is.
fn push_short<R: Files>(text: &mut String, rt: &R, program: &Program) -> Result<(), AllocError> {
    let (bytes, size) = (named_length(rt, program.store), program.size);
    write!(
        text,
        "it has {bytes} bytes, and a store has {size}; docs/use/COMMANDS.md, \"Status 8 and the store\", says when it may be removed"
    )
}

/// Appends why no store was made.
fn push_unmade<R: Files>(
    text: &mut String,
    rt: &R,
    alloc: Global,
    program: &Program,
    failure: &Failure,
) -> Result<(), AllocError> {
    let (store, error) = (program.store, failure.error);
    if fs::symlink_metadata(rt, store).is_ok() {
        return write!(
            text,
            "{store} is a link that leads nowhere; see to the link"
        );
    }
    let mut unfinished = String::from_str(alloc, store)?;
    unfinished.push_str(".new")?;
    match why_in_the_way(rt, unfinished.as_str(), error.kind()) {
        Some(why) => write!(text, "{unfinished} is there and {why}"),
        None => write!(text, "{store} could not be made: {error}"),
    }
}

/// Why the file of a store in the making stops another one, if it does.
fn why_in_the_way<R: Files>(rt: &R, name: &str, kind: ErrorKind) -> Option<&'static str> {
    let found = fs::symlink_metadata(rt, name).ok()?;
    if !found.is_file() {
        return Some("is no plain file, so no store is made; move it away");
    }
    match kind {
        ErrorKind::WouldBlock => Some("is in use by another process; wait for its end"),
        ErrorKind::AlreadyExists => Some(
            "belongs to another user, so no store is made; see whose it is, and move it away",
        ),
        _ => None,
    }
}
