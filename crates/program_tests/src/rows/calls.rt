//! A call of a row: its words with their files, and what it has to print.
use super::packed::Packed;
use memory_devices::MemoryFiles;
use std::alloc::Global;
use std::str;
use std::test::Fail;

/// The words of a call, and the file of each.
pub(crate) fn words_of(
    alloc: Global,
    rows: &mut Packed,
) -> Result<(Vec<String>, MemoryFiles), Fail> {
    let mut words = Vec::new(alloc);
    let mut files = MemoryFiles::new(alloc, &[])?;
    for _ in 0..rows.number()? {
        let Ok(word) = str::from_utf8(rows.text()?) else {
            return Err(Fail::new("a word is no text"));
        };
        words.push(String::from_str(alloc, word)?)?;
        files.add(rows.text()?)?;
    }
    Ok((words, files))
}

/// Whether a text is as the next of the rows has it: a piece, and some further ones, each behind any lines.
pub(crate) fn is_wanted(rows: &mut Packed, printed: &[u8]) -> Result<bool, Fail> {
    let gaps = rows.number()?;
    let mut left = printed.strip_prefix(rows.text()?);
    for gap in 0..gaps {
        let piece = rows.text()?;
        left = match left {
            Some(text) if gap < gaps - 1 => behind(text, piece),
            Some(text) => behind_last(text, piece),
            None => None,
        };
    }
    Ok(match left {
        Some(rest) => rest.is_empty(),
        None => false,
    })
}

/// Whether a text is whole lines.
fn is_lines(text: &[u8]) -> bool {
    match text.last() {
        Some(byte) => *byte == b'\n',
        None => true,
    }
}

/// The text behind the first place at which a piece begins a line.
fn behind<'a>(text: &'a [u8], piece: &[u8]) -> Option<&'a [u8]> {
    for place in 0..text.len() {
        let (before, rest) = text.split_at(place);
        if is_lines(before) {
            if let Some(rest) = rest.strip_prefix(piece) {
                return Some(rest);
            }
        }
    }
    None
}

/// Nothing, if a text is whole lines and this piece.
fn behind_last<'a>(text: &'a [u8], piece: &[u8]) -> Option<&'a [u8]> {
    match text.strip_suffix(piece) {
        Some(before) if is_lines(before) => Some(b""),
        _ => None,
    }
}
