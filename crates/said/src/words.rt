//! Which word of a call is off.
use crate::shown::{SHOWN, push_shown};
use crate::table::{Command, Program};
use std::alloc::AllocError;

/// Whether a word is 1 to `most` digits, whose number lies between two others.
fn is_number(word: &str, most: usize, least: u64, greatest: u64) -> bool {
    if word.is_empty() || word.len() > most || !word.bytes().all(|byte| byte.is_ascii_digit()) {
        return false;
    }
    match word.parse::<u64>() {
        Ok(number) => least <= number && number <= greatest,
        Err(_) => false,
    }
}

/// Whether a word may stand where a command has `place`, behind the word `before`.
fn fits(word: &str, place: &str, before: &str) -> bool {
    match place {
        "CONSTANT" => is_number(word, 6, 500, 200_000),
        "SEED" => is_number(word, 20, 0, u64::MAX),
        "N" => is_number(word, 4, 1, 1000),
        "FROM" => word.len() == 4 && is_number(word, 4, 2000, 2199),
        "TO" => word.len() == 4 && is_number(word, 4, 2000, 2199) && is_near(before, word),
        "DRIVER" => is_driver(word),
        _ if place.bytes().all(|byte| byte.is_ascii_uppercase()) => true,
        _ => word == place,
    }
}

/// Whether a year is not before another, and less than fifteen years behind it; also if the other is no year.
fn is_near(from: &str, to: &str) -> bool {
    if from.len() != 4 || !is_number(from, 4, 2000, 2199) {
        return true;
    }
    match (from.parse::<u64>(), to.parse::<u64>()) {
        (Ok(from), Ok(to)) => from <= to && to < from.saturating_add(15),
        _ => true,
    }
}

/// Whether a word is a driver's.
fn is_driver(word: &str) -> bool {
    !word.is_empty()
        && word.len() <= 16
        && word
            .bytes()
            .all(|byte| matches!(byte, b'A'..=b'Z' | b'0'..=b'9' | b'-'))
}

/// What a word is not, where a command has `place`.
fn range_of(place: &str) -> &str {
    match place {
        "CONSTANT" => "no CONSTANT: 500 to 200000, in at most 6 digits",
        "SEED" => "no SEED: 0 to 18446744073709551615, in at most 20 digits",
        "N" => "no N: 1 to 1000, in at most 4 digits",
        "FROM" => "no FROM: a year of four digits, 2000 to 2199",
        "TO" =>
            "no TO: a year of four digits, 2000 to 2199, not before FROM, and with FROM at most fifteen years",
        "DRIVER" => "no DRIVER: 1 to 16 characters of A to Z, 0 to 9 and -",
        _ => place,
    }
}

/// How many words, from the first on, may stand where the command has its own.
fn fitting(words: &[String], command: &Command) -> usize {
    let most = words.len().min(command.words.len());
    for place in 0..most {
        let before = if place == 0 {
            ""
        } else {
            words[place - 1].as_str()
        };
        if !fits(words[place].as_str(), command.words[place], before) {
            return place;
        }
    }
    most
}

/// Of the program's commands with the first word of the call, the one that goes on longest with its words.
pub(crate) fn nearest<'a>(words: &[String], program: &'a Program) -> Option<&'a Command> {
    let first = words.first()?;
    let mut found: Option<&Command> = None;
    let mut most = 0;
    for command in program.commands {
        if command.words.first() == Some(&first.as_str()) {
            let fitting = fitting(words, command);
            if found.is_none() || fitting > most {
                found = Some(command);
                most = fitting;
            }
        }
    }
    found
}

/// Appends the words of a command, as one types them.
pub(crate) fn push_words(
    text: &mut String,
    program: &Program,
    words: &[&str],
) -> Result<(), AllocError> {
    text.push_str(program.name)?;
    for word in words {
        text.push(' ')?;
        text.push_str(word)?;
    }
    Ok(())
}

/// Appends which word is off, of words that are no command of the program.
pub(crate) fn push_wrong_words(
    text: &mut String,
    program: &Program,
    words: &[String],
) -> Result<(), AllocError> {
    let (Some(command), Some(first)) = (nearest(words, program), words.first()) else {
        return push_unknown(text, program, words);
    };
    push_off(text, words, command)?;
    text.push_str("; usage:")?;
    push_rows(text, program, first.as_str())
}

/// Appends each row of a command, behind a blank.
fn push_rows(text: &mut String, program: &Program, first: &str) -> Result<(), AllocError> {
    let mut count = 0usize;
    for command in program.commands {
        if command.words.first() == Some(&first) {
            push_between(text, count)?;
            push_words(text, program, command.words)?;
            count = count.saturating_add(1);
        }
    }
    Ok(())
}

/// Appends what stands before a row, of which there are so many before it.
fn push_between(text: &mut String, count: usize) -> Result<(), AllocError> {
    text.push_str(if count == 0 { " " } else { ", or " })
}

/// Appends that there is no such command.
fn push_unknown(text: &mut String, program: &Program, words: &[String]) -> Result<(), AllocError> {
    let name = program.name;
    match words.first() {
        Some(word) if word.as_str() == "-C" => write!(
            text,
            "-C is gone: type (cd FOLDER && {name} COMMAND ..); "
        )?,
        Some(word) if word.as_str() == "--now" => write!(
            text,
            "--now is for a checkout, where bin/{name} has it; "
        )?,
        _ => text.push_str("no such command; ")?,
    }
    write!(text, "{name} help lists them")
}

/// Appends which word is off beside a command.
fn push_off(text: &mut String, words: &[String], command: &Command) -> Result<(), AllocError> {
    let place = fitting(words, command);
    match (words.get(place), command.words.get(place)) {
        (Some(word), Some(wanted)) => {
            write!(text, "word {}, '", place.saturating_add(1))?;
            push_shown(text, word.as_bytes(), SHOWN)?;
            text.push_str("', is ")?;
            if range_of(wanted) == *wanted {
                text.push_str("not ")?;
            }
            text.push_str(range_of(wanted))
        }
        (Some(_), None) => push_count(text, "many", command),
        _ => push_count(text, "few", command),
    }
}

/// Appends that there are too many words, or too few.
fn push_count(text: &mut String, many: &str, command: &Command) -> Result<(), AllocError> {
    write!(text, "there are too {many} words after ")?;
    match command.words.first() {
        Some(word) => text.push_str(word),
        None => Ok(()),
    }
}
