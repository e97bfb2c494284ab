//! Rows of a table, as `csv` reads them.
use csv::ReaderBuilder;
use std::alloc::Global;

/// The mark that a text in UTF-8 may begin with, which is no part of a row.
const MARK: &[u8] = b"\xef\xbb\xbf";

/// A row: the line in which it begins, counted from 1, and its bytes, without an end of a line at either end.
#[derive(Clone, Copy)]
pub(crate) struct FoundRow<'a> {
    pub(crate) line: u64,
    pub(crate) bytes: &'a [u8],
}

/// A row of a text, counted from 1 as `csv` gives rows, if the text has it.
pub(crate) fn row_of(alloc: Global, text: &[u8], number: u64) -> Option<FoundRow<'_>> {
    let from = place_of_row(alloc, text, number)?;
    let to = place_of_row(alloc, text, number.saturating_add(1)).unwrap_or(text.len());
    let (before, behind) = text.get(..to)?.split_at_checked(from)?;
    let behind = behind.strip_prefix(MARK).unwrap_or(behind);
    Some(FoundRow {
        line: ends_in(before)
            .saturating_add(ends_in(blank_front(behind)))
            .saturating_add(1),
        bytes: without_ends(behind),
    })
}

/// How many lines end in a text.
fn ends_in(text: &[u8]) -> u64 {
    let mut count = 0u64;
    for byte in text {
        if *byte == b'\n' {
            count = count.saturating_add(1);
        }
    }
    count
}

/// The ends of lines with which a text begins.
fn blank_front(text: &[u8]) -> &[u8] {
    for place in 0..text.len() {
        if !matches!(text[place], b'\n' | b'\r') {
            return &text[..place];
        }
    }
    text
}

/// Where a row of a text begins, or the ends of lines before it.
fn place_of_row(alloc: Global, text: &[u8], number: u64) -> Option<usize> {
    let reader = ReaderBuilder::new()
        .has_headers(false)
        .flexible(true)
        .from_reader(alloc, text);
    let mut count = 0u64;
    for row in reader.into_byte_records() {
        count = count.saturating_add(1);
        if count == number {
            return usize::try_from(row.ok()?.position()?.byte()).ok();
        }
    }
    None
}

/// Bytes without the ends of lines in front and behind.
fn without_ends(bytes: &[u8]) -> &[u8] {
    let mut left = bytes;
    for _ in 0..bytes.len() {
        match left {
            [b'\n' | b'\r', behind @ ..] => left = behind,
            [before @ .., b'\n' | b'\r'] => left = before,
            _ => return left,
        }
    }
    left
}
