//! Where the pages and the examples lie.
use crate::files::is_there;
use std::alloc::{AllocError, Global};
use std::env;
use std::rt::Files;

/// How many folders are looked through, from the one above the program's own on.
const MOST: usize = 4;

/// A page that lies in the folder of pages.
const PAGE: &str = "/docs/use/COMMANDS.md";

/// The folder in which the pages of this program lie, and its examples: one above the program's own, if the system tells.
pub(crate) fn tree_of<R: Files + AllocGlobal>(rt: &R, alloc: Global) -> Option<String> {
    let path = env::current_exe(rt).ok()?;
    let mut folder = path.parent()?;
    for _ in 0..MOST {
        folder = folder.parent()?;
        let mut page = String::from_str(alloc, folder.as_str()).ok()?;
        page.push_str(PAGE).ok()?;
        if is_there(rt, page.as_str()) {
            return String::from_str(alloc, folder.as_str()).ok();
        }
    }
    None
}

/// Appends a blank and a command's example as one types it: what begins with `examples/` by its whole path, if that is
/// known.
pub(crate) fn push_example(
    text: &mut String,
    example: &str,
    tree: Option<&str>,
) -> Result<(), AllocError> {
    let Some(tree) = tree else {
        text.push(' ')?;
        return text.push_str(example);
    };
    for word in example.split(' ') {
        text.push(' ')?;
        push_word(text, word, tree)?;
    }
    Ok(())
}

/// Appends a word of an example.
fn push_word(text: &mut String, word: &str, tree: &str) -> Result<(), AllocError> {
    if word.starts_with("examples/") {
        push_quoted(text, tree)?;
        text.push('/')?;
    }
    text.push_str(word)
}

/// Appends a path as a shell takes it.
fn push_quoted(text: &mut String, path: &str) -> Result<(), AllocError> {
    if path.bytes().all(is_plain) {
        return text.push_str(path);
    }
    text.push('\'')?;
    for character in path.chars() {
        if character == '\'' {
            text.push_str("'\\''")?;
        } else {
            text.push(character)?;
        }
    }
    text.push('\'')
}

/// Whether a shell takes a byte for itself.
fn is_plain(byte: u8) -> bool {
    matches!(byte, b'A'..=b'Z' | b'a'..=b'z' | b'0'..=b'9' | b'_' | b'.' | b'/' | b'+' | b',' | b'@' | b'%' | b'-')
}
