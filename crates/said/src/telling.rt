//! What is said of a call that ended with another status than 0.
use crate::failures::push_failure;
use crate::fault_lines::{Fault, fault_in};
use crate::files::{push_why_unreadable, read_file};
use crate::help::push_help;
use crate::places::{Moment, is_unchanged, line_of, push_place};
use crate::rows::row_of;
use crate::statuses::{meaning, meaning_of_log, push_status};
use crate::table::Program;
use crate::words::{nearest, push_wrong_words};
use outside::Heard;
use std::alloc::{AllocError, Global};
use std::rt::Files;
use std::str;

/// What the status of a call means that ended with another one than 0, and where the fault lies, in lines for the
/// standard error. None if there is no memory for it.
pub(crate) fn told_of<R: Files + AllocGlobal>(
    rt: &R,
    alloc: Global,
    program: &Program,
    call: &Call<'_>,
) -> Option<String> {
    let mut text = String::new(alloc);
    push_call(&mut text, rt, alloc, program, call).ok()?;
    Some(text)
}

/// The most bytes that a text of readings has.
const LONGEST_READINGS: usize = 1_048_576;

/// A call that has ended: its words, its status, what the device has kept of it, and when it began.
#[derive(Clone, Copy)]
pub struct Call<'a> {
    pub words: &'a [String],
    pub status: u8,
    pub heard: &'a Heard,
    pub began: Moment,
}

impl Call<'_> {
    /// Its first word.
    pub(crate) fn command(&self) -> &str {
        match self.words.first() {
            Some(word) => word.as_str(),
            None => "",
        }
    }
}

/// Appends what the status of a call means, and where the fault lies.
fn push_call<R: Files + AllocGlobal>(
    text: &mut String,
    rt: &R,
    alloc: Global,
    program: &Program,
    call: &Call<'_>,
) -> Result<(), AllocError> {
    let command = call.command();
    if call.words.is_empty() && call.status == 1 {
        return push_help(text, rt, alloc, program);
    }
    push_status(text, program.name, call.status)?;
    if call.status == 1 {
        push_wrong_words(text, program, call.words)?;
        return text.push('\n');
    }
    if call.status == 8
        && let Some(failure) = call.heard.failure()
    {
        let has_begun = call.heard.seals().is_some();
        return push_failure(text, rt, alloc, program, command, &failure, has_begun);
    }
    if !program.has_faults {
        text.push_str(meaning_of_log(call.status, command))?;
    } else {
        text.push_str(meaning(call.status, command))?;
    }
    text.push('\n')?;
    if call.status == 7 {
        return push_unreadable(text, rt, program, call.words);
    }
    if command == "faults" {
        return Ok(());
    }
    push_fault(text, rt, alloc, command, call)
}

/// Appends where the fault lies that the last line names, if the file hasn't changed since the call began.
fn push_fault<R: Files>(
    text: &mut String,
    rt: &R,
    alloc: Global,
    command: &str,
    call: &Call<'_>,
) -> Result<(), AllocError> {
    let Ok(line) = str::from_utf8(call.heard.printed()) else {
        return Ok(());
    };
    let Some(fault) = fault_in(command, line) else {
        return Ok(());
    };
    match call.words.get(fault.word) {
        Some(name) if is_unchanged(rt, name.as_str(), call.began) => {
            push_line_at_fault(text, rt, alloc, name.as_str(), &fault)
        }
        _ => Ok(()),
    }
}

/// Appends the line of a file at which a fault is.
fn push_line_at_fault<R: Files>(
    text: &mut String,
    rt: &R,
    alloc: Global,
    name: &str,
    fault: &Fault<'_>,
) -> Result<(), AllocError> {
    if fault.counts_rows {
        return push_row_at_fault(text, rt, alloc, name, fault.number);
    }
    match line_of(rt, alloc, name, fault.number) {
        Ok(Some(line)) => push_place(
            text,
            name,
            fault.number,
            line.bytes.as_slice(),
            line.ended || !fault.wants_end,
        ),
        _ => Ok(()),
    }
}

/// Appends the row of a table at which a fault is.
fn push_row_at_fault<R: Files>(
    text: &mut String,
    rt: &R,
    alloc: Global,
    name: &str,
    number: u64,
) -> Result<(), AllocError> {
    let Some(bytes) = read_file(rt, alloc, name, LONGEST_READINGS) else {
        return Ok(());
    };
    match row_of(alloc, bytes.as_slice(), number) {
        Some(row) => push_place(text, name, row.line, row.bytes, true),
        None => Ok(()),
    }
}

/// What a command calls the files that its words name.
const FILES: [&str; 11] = [
    "TARIFF", "OTHER", "DRIVE", "PARAMS", "READINGS", "REQUESTS", "RULES", "BOOK", "ROLL",
    "STAMPS", "OPENING",
];

/// Appends each file that the words name and that can't be read.
fn push_unreadable<R: Files>(
    text: &mut String,
    rt: &R,
    program: &Program,
    words: &[String],
) -> Result<(), AllocError> {
    let Some(command) = nearest(words, program) else {
        return Ok(());
    };
    for place in 0..words.len().min(command.words.len()) {
        if FILES.contains(&command.words[place]) {
            push_why_unreadable(text, rt, words[place].as_str())?;
        }
    }
    Ok(())
}
