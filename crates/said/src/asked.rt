//! Help and version, where the first word asks for them.
use crate::help::{push_help, push_help_about};
use crate::table::Program;
use crate::texts::FAULTS;
use crate::version::push_version;
use std::alloc::{AllocError, Global};
use std::rt::Files;

/// What comes of words that ask for help or for the version.
#[derive(Drop)]
pub enum Asked {
    /// The answer, which belongs to the standard output.
    Answer(String),

    /// There is nothing of what was asked for. This says so, on the standard error.
    Nothing(String),
}

/// What a first word asks for.
#[derive(Clone, Copy)]
enum Question {
    Help,
    Version,
}

/// What a word asks for.
fn question_of(word: &str) -> Option<Question> {
    match word {
        "help" | "-h" | "--help" => Some(Question::Help),
        "version" | "--version" => Some(Question::Version),
        _ => None,
    }
}

/// The answer to words whose first one is `help`, `-h`, `--help`, `version` or `--version`. None if the words ask for
/// neither, or if there is no memory for it.
pub fn answer_asked<R: Files + AllocGlobal>(
    rt: &R,
    alloc: Global,
    program: &Program,
    words: &[String],
) -> Option<Asked> {
    let (first, behind) = words.split_first()?;
    let mut text = String::new(alloc);
    let answer = match question_of(first.as_str())? {
        Question::Help => push_asked_help(&mut text, rt, alloc, program, behind),
        Question::Version => push_version(&mut text, rt, alloc, program).map(|()| true),
    };
    match answer {
        Ok(true) => Some(Asked::Answer(text)),
        Ok(false) => Some(Asked::Nothing(text)),
        Err(_) => None,
    }
}

/// Appends the help on what the words behind `help` name. It is false if they name nothing that there is.
fn push_asked_help<R: Files + AllocGlobal>(
    text: &mut String,
    rt: &R,
    alloc: Global,
    program: &Program,
    words: &[String],
) -> Result<bool, AllocError> {
    if words.is_empty() {
        push_help(text, rt, alloc, program)?;
        return Ok(true);
    }
    if push_help_about(text, rt, alloc, program, words)? {
        return Ok(true);
    }
    if program.has_faults {
        text.push_str("the faults are ")?;
        text.push_str(FAULTS)?;
        text.push('\n')?;
    }
    text.push_str(program.name)?;
    text.push_str(": there is no command, fault or status of this name; ")?;
    text.push_str(program.name)?;
    text.push_str(" help lists the commands\n")?;
    Ok(false)
}
