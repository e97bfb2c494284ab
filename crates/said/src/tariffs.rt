//! What is said of a tariff, of what the commands print of it: each of its faults, and its rates that are too coarse.
use crate::fault_lines::fault_in;
use crate::files::read_file;
use crate::places::{Moment, is_unchanged, line_of};
use crate::seals::seal_of;
use crate::shown::{SHOWN, push_name, push_shown};
use drive_modes::Mode;
use outside::Heard;
use sha2::{Digest, Sha256};
use std::alloc::{AllocError, Global};
use std::rt::Files;
use std::{fs, str};

/// The most bytes that a tariff has.
const LONGEST_TARIFF: usize = 65_536;

/// The most that an even speed may be charged too much, in tenths of a percent, before it is told.
const FINE: u64 = 100;

/// What is said of the faults that `faults` printed of a file, if it hasn't changed since a moment.
pub fn said_of_faults<R: Files>(
    rt: &R,
    alloc: Global,
    name: &str,
    printed: &[u8],
    began: Moment,
) -> Option<String> {
    let mut text = String::new(alloc);
    for line in str::from_utf8(printed).ok()?.lines() {
        if let Some(fault) = fault_in("faults", line) {
            push_fault(&mut text, rt, alloc, name, fault.name, fault.number).ok()?;
        }
    }
    if is_unchanged(rt, name, began) {
        Some(text)
    } else {
        None
    }
}

/// Appends a fault of a file, its line, and a mark below the line's first character.
fn push_fault<R: Files>(
    text: &mut String,
    rt: &R,
    alloc: Global,
    name: &str,
    fault: &str,
    number: u64,
) -> Result<(), AllocError> {
    let Ok(Some(line)) = line_of(rt, alloc, name, number) else {
        return Ok(());
    };
    text.push_str("  --> ")?;
    push_name(text, name)?;
    write!(text, ":{number}: {fault}\n      ")?;
    push_shown(text, line.bytes.as_slice(), SHOWN)?;
    text.push_str("\n      ")?;
    push_lead(text, line.bytes.as_slice())?;
    text.push_str("^\n")
}

/// Appends as many blanks as the blanks in front of a line take where it is shown.
fn push_lead(text: &mut String, line: &[u8]) -> Result<(), AllocError> {
    for byte in line {
        match *byte {
            b' ' => text.push(' ')?,
            b'\t' | b'\r' => text.push_str("  ")?,
            _ => return Ok(()),
        }
    }
    Ok(())
}

/// The constant under which a call has sealed the tariff of a plain file in mode S, if it did.
pub fn constant_in_mode_s<R: Files>(
    rt: &R,
    alloc: Global,
    heard: &Heard,
    name: &str,
) -> Option<u32> {
    let (_, there) = heard.seals()?;
    let seal = seal_of(there)?;
    if seal.params.mode != Mode::Single || !fs::metadata(rt, name).ok()?.is_file() {
        return None;
    }
    let bytes = read_file(rt, alloc, name, LONGEST_TARIFF)?;
    if Sha256::digest(bytes.as_slice()) == seal.digest {
        Some(seal.params.constant.get())
    } else {
        None
    }
}

/// A rate, as a line of `rates` tells of it: the number of its line, and the most that an even speed is charged too
/// much.
#[derive(Clone, Copy)]
struct ToldRate<'a> {
    line: &'a str,
    excess: &'a str,
}

/// The rate of a line of `rates`, if an even speed can be charged too much under it.
fn coarse_rate(line: &str) -> Option<ToldRate<'_>> {
    let mut words = line.split(' ');
    if words.next()? != "RATE" || words.nth(1)? != "LINE" {
        return None;
    }
    let number = words.next()?;
    let excess = words.last()?;
    let (whole, tenths) = excess.split_once('.')?;
    let whole: u64 = whole.parse().ok()?;
    let tenths: u64 = tenths.parse().ok()?;
    if whole.saturating_mul(10).saturating_add(tenths) > FINE {
        Some(ToldRate {
            line: number,
            excess,
        })
    } else {
        None
    }
}

/// Whether `rates` has printed of some rate that an even speed can be charged too much.
pub fn has_coarse_rate(rates: &[u8]) -> bool {
    match str::from_utf8(rates) {
        Ok(rates) => rates.lines().any(|line| coarse_rate(line).is_some()),
        Err(_) => false,
    }
}

/// What is said of the rates of a sealed tariff, of what `rates`, `lines` and `form` printed of it: each that counts in
/// some moment, and under which an even speed can be charged too much.
pub fn said_of_rates(
    alloc: Global,
    name: &str,
    constant: u32,
    rates: &[u8],
    lines: &[u8],
    form: &[u8],
) -> Option<String> {
    let (lines, form) = (str::from_utf8(lines).ok()?, str::from_utf8(form).ok()?);
    let mut found = String::new(alloc);
    let mut texts = form.lines().filter(|line| line.starts_with("rate "));
    for line in str::from_utf8(rates).ok()?.lines() {
        let Some(text) = texts.next() else {
            break;
        };
        if let Some(rate) = coarse_rate(line)
            && counts(lines, rate.line)
        {
            push_rate(&mut found, name, &rate, text).ok()?;
        }
    }
    if found.is_empty() {
        return None;
    }
    let mut said = String::new(alloc);
    write!(
        said,
        "taxi: in mode single and with a constant of {constant} an even speed is charged too much by what stands below (docs/METER.md, \"How fine mode S is\")\n"
    )
    .ok()?;
    said.push_str(found.as_str()).ok()?;
    Some(said)
}

/// Whether `lines` has printed of the rate of a line that it counts in some moment.
fn counts(lines: &str, number: &str) -> bool {
    lines.lines().any(|line| match line.strip_prefix(number) {
        Some(rest) => rest.starts_with(" rate holds "),
        None => false,
    })
}

/// Appends a rate.
fn push_rate(
    text: &mut String,
    name: &str,
    rate: &ToldRate<'_>,
    form: &str,
) -> Result<(), AllocError> {
    text.push_str("  --> ")?;
    push_name(text, name)?;
    let (line, excess) = (rate.line, rate.excess);
    write!(text, ":{line}: at most {excess} % too much: ")?;
    push_shown(text, form.as_bytes(), SHOWN)?;
    text.push('\n')
}
