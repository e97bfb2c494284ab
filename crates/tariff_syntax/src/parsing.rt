//! Reads a whole tariff.
#![tactic(auto, unfolding(crate::specs::Parsed::entries_read))]

ghost use Rattle.std.specs.Prelude.{[], ℕ, ◌+◌, ◌<◌, ◌^◌, ◌∷◌, ◌≡◌, ◌≤◌, Err, IfOk, List, MatchOption, OnErr, OnOk};
ghost use Rattle.std.specs.Prelude.{Result, Some, drop, if◌then◌else◌, is_none, length, map};
ghost use Rattle.tariff_syntax.specs.{BadLines.{is_bad}, Parses.{AreRead, HasEntry, IsAnswer, IsFaultBelow, bad_in}};
ghost use Rattle.tariff_syntax.specs.{Common.{Line, line_of}, Parsed.{before, entries_read, heading_read, line_read}};
ghost use Rattle.tariff_syntax.specs.{Items.{item_read}, Reads.{IsParsed}};
ghost use Rattle.tariff_syntax.specs.{TextLines.{is_inner, lines_of}, TokenReading.{run_end, tokens_of}};

use crate::conditions::LineFault;
use crate::items::{decimals, item};
use crate::words::is_over;
use std::alloc::Global;
use tariff_tree::{Lines, Tariff, TariffLine};
use thiserror::Error;

/// Why a text gives no tariff.
#[derive(Clone, Copy, Debug, Drop, Error)]
pub enum ParseFault {
    /// It has more than 65,536 bytes.
    #[error("the tariff is too long")]
    TooLong,
    /// This line, by its number from 1, is the first that has none of the forms of a line.
    #[error("line {line} of the tariff is bad")]
    Syntax { line: u32 },
    /// Memory ran out.
    #[error("memory ran out")]
    NoMemory,
}

/// Reads a tariff from a text of lines. Each line ends with a line feed; the last one may end with the text. In a line,
/// a `#` and all that follows it is a comment. A line is `decimals N`, or has one of the forms that `Item` tells, with
/// blanks, tabs and carriage returns anywhere between its parts. An empty line is passed over.
///
/// Only the first filled line may be `decimals`, with a number from 0 to 3; without it, that number is 2. MONEY has at
/// most these decimals, TENTHS at most one, and both at most 10^12 units of the last. A CONDITION is made of
/// `position N`, `zone N`, `time HH:MM..HH:MM`, `day mon` or `day mon..sun`, `date MM-DD..MM-DD`, `holiday`,
/// `after TENTHS m` and `after TENTHS s`, by `not`, `and`, `or` and parentheses. `not` binds closer than `and`, and
/// `and` closer than `or`; both join from the left. It has at most 64 of these atoms, `not` and `(` together. This
/// language is this project's own.
///
/// `TooLong`: the text has more than 65,536 bytes. `Syntax` names the first filled line that has none of these forms,
/// whatever memory there is. `NoMemory`: memory runs out for a tariff that has lines.
pub fn parse(alloc: Global, text: &[u8]) -> Result<Tariff, ParseFault>
    ensures answer { IsParsed text.now result }
    ensures decimals { IfOk result (λ t. t.decimals ≤ 3) }
{
    parse_text(alloc, text)
}

/// Reads a tariff, as the answer of the code's stages.
#[tactic(auto, unfolding(crate::specs::Parsed::tree_parsed))]
fn parse_text(alloc: Global, text: &[u8]) -> Result<Tariff, ParseFault>
    ensures answer { IsAnswer text.now result }
    ensures decimals { IfOk result (λ t. t.decimals ≤ 3) }
{
    if text.len() > 65_536 {
        return Err(ParseFault::TooLong);
    }
    let (decimals, number, rest) = heading(text);
    let lines = lines(alloc, decimals, number, rest)?;
    Ok(Tariff { decimals, lines })
}

/// The decimals of a text, the number of the line from which its other lines are read, and the text from there on:
/// behind a line of decimals, if it is the first that has tokens.
#[tactic(auto, unfolding(crate::specs::Parsed::heading_read))]
pub(crate) fn heading(text: &[u8]) -> (u8, u32, &[u8])
    requires { length text.now ≤ 65536 }
    ensures value { heading_read 1 (lines_of text.now) ≡ (result.0, result.1, lines_of result.2.now) }
    ensures decimals { result.0 ≤ 3 }
    ensures room { result.1 + length result.2.now ≤ 1 + length text.now }
{
    let mut rest = text;
    let mut number = 1;
    while let Some((line, below)) = first_line(rest) {
        if !is_over(line) {
            return match decimals(line) {
                Some(decimals) => (decimals, number + 1, below),
                None => (2, number, rest),
            };
        }
        number += 1;
        rest = below;
    }
    (2, number, rest)
}

/// The lines of a tariff, from the lines of a text, which are numbered on from a number. If memory runs out, the lines
/// below are still looked at: a bad one is named, whatever memory there is.
fn lines(alloc: Global, decimals: u8, first: u32, text: &[u8]) -> Result<Lines, ParseFault>
    requires decimals { decimals ≤ 3 }
    requires room { first + length text.now < 2 ^ 32 }
    ensures { AreRead (entries_read decimals first (lines_of text.now)) result }
{
    let mut lines = Lines::new(alloc);
    let mut rest = text;
    let mut number = first;
    while let Some((line, below)) = first_line(rest) {
        match put_line(alloc, decimals, number, line, &mut lines) {
            Ok(()) => {}
            Err(LineFault::Bad) => return Err(ParseFault::Syntax { line: number }),
            Err(LineFault::NoMemory) => return Err(fault_below(alloc, decimals, number + 1, below)),
        }
        number += 1;
        rest = below;
    }
    Ok(lines)
}

/// Puts what a line says behind the lines above it, if it has tokens.
fn put_line(
    alloc: Global,
    decimals: u8,
    number: u32,
    line: &[u8],
    lines: &mut Lines,
) -> Result<(), LineFault>
    requires { decimals ≤ 3 }
    ensures ok { OnOk result ((below : Result (List Line) ℕ)
        → before (map line_of lines.old) (line_read decimals number line.now below)
        ≡ before (map line_of lines.new) below) }
    ensures bad { result ≡ Err LineFault.Bad
        → (below : Result (List Line) ℕ) → line_read decimals number line.now below ≡ Err number }
    ensures memory { result ≡ Err LineFault.NoMemory → HasEntry decimals (tokens_of line.now) }
    ensures kept { OnErr result (lines.new ≡ lines.old) }
{
    if is_over(line) {
        return Ok(());
    }
    let item = item(alloc, decimals, line)?;
    match lines.push(TariffLine { line: number, item }) {
        Ok(()) => Ok(()),
        Err(_) => Err(LineFault::NoMemory),
    }
}

/// Why there is no tariff, if memory ran out above the lines of a text, which are numbered on from a number.
fn fault_below(alloc: Global, decimals: u8, first: u32, text: &[u8]) -> ParseFault
    requires decimals { decimals ≤ 3 }
    requires room { first + length text.now < 2 ^ 32 }
    ensures { IsFaultBelow (entries_read decimals first (lines_of text.now)) result }
{
    match first_bad(alloc, decimals, first, text) {
        Some(line) => ParseFault::Syntax { line },
        None => ParseFault::NoMemory,
    }
}

/// The number of the first bad line, of lines which are numbered on from a number.
fn first_bad(alloc: Global, decimals: u8, first: u32, text: &[u8]) -> Option<u32>
    requires decimals { decimals ≤ 3 }
    requires room { first + length text.now < 2 ^ 32 }
    ensures { result ≡ bad_in (entries_read decimals first (lines_of text.now)) }
{
    let mut rest = text;
    let mut number = first;
    while let Some((line, below)) = first_line(rest) {
        if is_bad(alloc, decimals, line) {
            return Some(number);
        }
        number += 1;
        rest = below;
    }
    None
}

/// Whether a line has tokens and none of the forms of a line.
pub(crate) fn is_bad(alloc: Global, decimals: u8, line: &[u8]) -> bool
    requires { decimals ≤ 3 }
    ensures line { result ≡ is_bad decimals (tokens_of line.now) }
    ensures first { (number : ℕ) → (below : Result (List Line) ℕ)
        → bad_in (line_read decimals number line.now below) ≡ (if result then Some number else bad_in below) }
{
    !is_over(line) && has_no_form(alloc, decimals, line)
}

/// Whether a line has none of the forms of a line.
fn has_no_form(alloc: Global, decimals: u8, line: &[u8]) -> bool
    requires { decimals ≤ 3 }
    ensures { result ≡ is_none (item_read decimals (tokens_of line.now)) }
{
    matches!(item(alloc, decimals, line), Err(LineFault::Bad))
}

/// The first line of a text, without its line feed, and the text behind it. `None` at the end.
pub(crate) fn first_line(text: &[u8]) -> Option<(&[u8], &[u8])>
    ensures { MatchOption result (lines_of text.now ≡ [])
        (λ x. (lines_of text.now ≡ x.0.now ∷ lines_of x.1.now) × (length x.1.now < length text.now)) }
{
    if text.is_empty() {
        return None;
    }
    let (line, rest) = text.split_at(count_line(text));
    Some((line, after_feed(rest)))
}

/// What stands after the byte at the front, if there is one.
fn after_feed(rest: &[u8]) -> &[u8]
    ensures { result.now ≡ drop 1 rest.now }
{
    match rest.split_first() {
        Some((_, below)) => below,
        None => rest,
    }
}

/// How many bytes stand before the first line feed.
fn count_line(text: &[u8]) -> usize
    ensures count { result ≡ run_end is_inner text.now }
    ensures within { result ≤ length text.now }
{
    let mut rest = text;
    let mut count = 0;
    while let Some((first, after)) = rest.split_first() {
        if *first == b'\n' {
            return count;
        }
        count += 1;
        rest = after;
    }
    count
}
