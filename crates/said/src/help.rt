//! The help of a program.
use crate::shown::push_name;
use crate::table::Program;
use crate::texts::{Kind, topic_at};
use crate::tree::{push_example, tree_of};
use crate::words::push_words;
use std::alloc::{AllocError, Global};
use std::rt::Files;

/// How wide the words of a command are, at least.
const WIDTH: usize = 30;

/// How many topics of a kind there are at most.
const MOST: usize = 1000;

/// Appends the words of something that one may type, behind the program's name, and what it does.
fn push_row(
    text: &mut String,
    program: &Program,
    words: &[&str],
    does: &str,
) -> Result<(), AllocError> {
    text.push_str("  ")?;
    let mut width = 0usize;
    push_words(text, program, words)?;
    for word in words {
        width = width.saturating_add(word.len()).saturating_add(1);
    }
    for _ in width..WIDTH {
        text.push(' ')?;
    }
    text.push_str(" ")?;
    text.push_str(does)?;
    text.push('\n')
}

/// Appends the list of a program's commands, by what somebody wants to do, and where its pages lie.
pub(crate) fn push_help<R: Files + AllocGlobal>(
    text: &mut String,
    rt: &R,
    alloc: Global,
    program: &Program,
) -> Result<(), AllocError> {
    text.push_str("usage:\n")?;
    let mut purpose = "";
    for command in program.commands {
        if command.purpose != purpose {
            purpose = command.purpose;
            text.push_str(purpose)?;
            text.push('\n')?;
        }
        push_row(text, program, command.words, command.does)?;
    }
    text.push_str("about this program\n")?;
    for (words, does) in OWN {
        if program.has_faults || words[1..] != ["FAULT"] {
            push_row(text, program, words, does)?;
        }
    }
    push_pages(text, rt, alloc, program)
}

/// What the programs tell of themselves.
const OWN: [(&[&str], &str); 4] = [
    (
        &["help", "COMMAND"],
        "tells more of a command, with an example",
    ),
    (
        &["help", "STATUS"],
        "says what a status means, by its number or by what was printed, as BAD WORDS",
    ),
    (
        &["help", "FAULT"],
        "shows a text with a fault, as Duplicate, and the same mended",
    ),
    (&["version"], "says what program this is"),
];

/// Appends which page says more, and where the pages and the examples lie.
fn push_pages<R: Files + AllocGlobal>(
    text: &mut String,
    rt: &R,
    alloc: Global,
    program: &Program,
) -> Result<(), AllocError> {
    text.push_str(program.page)?;
    text.push_str(" says more.")?;
    if let Some(tree) = tree_of(rt, alloc) {
        text.push_str(" docs/ and examples/ lie in ")?;
        push_name(text, tree.as_str())?;
        text.push('.')?;
    }
    text.push('\n')
}

/// Appends how a command is called, what it does, and an example. It is false if there is no such command.
fn push_command(
    text: &mut String,
    program: &Program,
    name: &str,
    tree: Option<&str>,
) -> Result<bool, AllocError> {
    if !program
        .commands
        .iter()
        .any(|command| command.words.first() == Some(&name))
    {
        return Ok(false);
    }
    push_usages(text, program, name)?;
    if !program.has_faults || !push_topics(text, Kind::Command, name)? {
        push_deeds(text, program, name)?;
    }
    push_examples(text, program, name, tree)?;
    if program.need_seal.contains(&name) {
        text.push_str(
            "it needs a sealed store in the folder; taxi seal TARIFF PARAMS makes one\n",
        )?;
    }
    text.push_str("more: ")?;
    text.push_str(program.page)?;
    text.push('\n')?;
    Ok(true)
}

/// Appends how a command is called.
fn push_usages(text: &mut String, program: &Program, name: &str) -> Result<(), AllocError> {
    for command in program.commands {
        if command.words.first() == Some(&name) {
            text.push_str("usage: ")?;
            push_words(text, program, command.words)?;
            text.push('\n')?;
        }
    }
    Ok(())
}

/// Appends what a command does, in a line.
fn push_deeds(text: &mut String, program: &Program, name: &str) -> Result<(), AllocError> {
    for command in program.commands {
        if command.words.first() == Some(&name) {
            text.push_str(command.does)?;
            text.push('\n')?;
        }
    }
    Ok(())
}

/// Appends the examples of a command, for a folder of one's own.
fn push_examples(
    text: &mut String,
    program: &Program,
    name: &str,
    tree: Option<&str>,
) -> Result<(), AllocError> {
    for command in program.commands {
        if command.words.first() == Some(&name) {
            text.push_str("example, from a folder of your own: ")?;
            text.push_str(program.name)?;
            push_example(text, command.example, tree)?;
            text.push('\n')?;
        }
    }
    Ok(())
}

/// Whether one asks for something by this name: the name itself, or with more words behind it.
fn is_asked(asked: &str, name: &str) -> bool {
    match asked.strip_prefix(name) {
        Some(rest) => rest.is_empty() || rest.starts_with(' '),
        None => false,
    }
}

/// Appends each topic that is asked for. It is false if there is none.
fn push_topics(text: &mut String, kind: Kind, asked: &str) -> Result<bool, AllocError> {
    let mut found = false;
    for place in 0..MOST {
        let Some(topic) = topic_at(kind, place) else {
            return Ok(found);
        };
        if is_one_of(asked, topic.names) {
            found = true;
            text.push_str(topic.text)?;
        }
    }
    Ok(found)
}

/// Whether one asks for something by one of its names, which bars part.
fn is_one_of(asked: &str, names: &str) -> bool {
    names.split('|').any(|name| is_asked(asked, name))
}

/// Appends what is told of the words behind `help`: of a command, a refusal, a fault or a status. It is false if there
/// is nothing of this name.
pub(crate) fn push_help_about<R: Files + AllocGlobal>(
    text: &mut String,
    rt: &R,
    alloc: Global,
    program: &Program,
    words: &[String],
) -> Result<bool, AllocError> {
    let asked = joined(alloc, words)?;
    let tree = tree_of(rt, alloc);
    let asked = asked.as_str();
    if push_command(text, program, asked, tree.as_deref())? {
        return Ok(true);
    }
    if !program.has_faults {
        return push_topics(text, Kind::LogStatus, asked);
    }
    Ok(
        push_refusals(text, asked)?
            || push_topics(text, Kind::Fault, asked)?
            || push_topics(text, Kind::TaxiStatus, asked)?,
    )
}

/// Words with a blank between two.
fn joined(alloc: Global, words: &[String]) -> Result<String, AllocError> {
    let mut text = String::new(alloc);
    for word in words {
        if !text.is_empty() {
            text.push(' ')?;
        }
        text.push_str(word.as_str())?;
    }
    Ok(text)
}

/// Appends the refusals that are asked for, by their names or by the beginnings of these. It is false if there is none.
fn push_refusals(text: &mut String, asked: &str) -> Result<bool, AllocError> {
    let asked = asked.strip_suffix(" ..").unwrap_or(asked);
    let mut found = false;
    for place in 0..MOST {
        let Some(refusal) = topic_at(Kind::Refusal, place) else {
            return Ok(found);
        };
        if is_asked(asked, refusal.names) || is_asked(refusal.names, asked) {
            push_refusal(text, refusal.text, found)?;
            found = true;
        }
    }
    Ok(found)
}

/// Appends a refusal, the first one behind what a refusal is.
fn push_refusal(text: &mut String, refusal: &str, found: bool) -> Result<(), AllocError> {
    if !found {
        text.push_str(
            "the meter refuses the event and goes on (docs/METER.md, \"Operating positions\"):\n",
        )?;
    }
    text.push_str(refusal)
}
