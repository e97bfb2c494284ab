//! What to mind behind a sealing and a run that ended with 0.
use crate::seals::seal_of;
use crate::version::push_hexadecimal;
use drive_modes::Mode;
use interval_clock::{date_of_day, day_number};
use outside::Heard;
use seal_record::Seal;
use std::alloc::{AllocError, Global};
use std::str;

/// How many seconds before the last offset begins it is time for those of more years: 400 days.
const AHEAD: u64 = 34_560_000;

/// How many seconds a day has.
const DAY: u64 = 86_400;

/// The first and the last day number that has a date here.
const FIRST_DAY: i32 = 10_592;

const LAST_DAY: i32 = 84_006;

/// What is warned of behind a sealing or a run that ended with 0, given what the device has kept, the words, and the
/// second of now. None if there is no memory for it; empty if there is nothing to mind.
pub(crate) fn warnings_of(alloc: Global, heard: &Heard, command: &str, now: u64) -> Option<String> {
    let mut text = String::new(alloc);
    push_warnings(&mut text, alloc, heard, command, now).ok()?;
    Some(text)
}

/// Appends the warnings.
fn push_warnings(
    text: &mut String,
    alloc: Global,
    heard: &Heard,
    command: &str,
    now: u64,
) -> Result<(), AllocError> {
    if command != "seal" && command != "run" {
        return Ok(());
    }
    let Some((found, there)) = heard.seals() else {
        return Ok(());
    };
    let Some(seal) = seal_of(there) else {
        return Ok(());
    };
    if command == "seal"
        && let Some(before) = seal_of(found)
    {
        push_changes(text, alloc, &before, &seal)?;
    }
    push_offsets_end(text, &seal, now)
}

/// Appends what a sealing has changed.
fn push_changes(
    text: &mut String,
    alloc: Global,
    before: &Seal,
    seal: &Seal,
) -> Result<(), AllocError> {
    let mut changes = String::new(alloc);
    push_changed_params(&mut changes, alloc, before, seal)?;
    if before.params.secured != seal.params.secured {
        changes.push_str("  --> secured: was ")?;
        push_day(&mut changes, before.params.secured)?;
        changes.push_str(", is ")?;
        push_day(&mut changes, seal.params.secured)?;
        changes.push('\n')?;
    }
    let (old, new) = (&before.params.offsets, &seal.params.offsets);
    push_changed_offsets(&mut changes, old.pairs(), new.pairs())?;
    if changes.is_empty() {
        return Ok(());
    }
    text.push_str(
        "taxi: what this seal changes stands below; docs/use/COMMANDS.md, \"seal\", says what of it a receipt shows\n",
    )?;
    text.push_str(changes.as_str())
}

/// Appends a line for each parameter, and for the tariff, that is another one now.
fn push_changed_params(
    text: &mut String,
    alloc: Global,
    before: &Seal,
    seal: &Seal,
) -> Result<(), AllocError> {
    let (old, new) = (&before.params, &seal.params);
    if let (Ok(old), Ok(new)) = (
        str::from_utf8(old.taxi.as_slice()),
        str::from_utf8(new.taxi.as_slice()),
    ) {
        push_change(text, "taxi", old, new)?;
    }
    push_changed_number(
        text,
        alloc,
        "constant",
        old.constant.get(),
        new.constant.get(),
    )?;
    push_change(text, "mode", mode_word(old.mode), mode_word(new.mode))?;
    push_changed_number(
        text,
        alloc,
        "hold",
        old.hold_time as u32,
        new.hold_time as u32,
    )?;
    let mut old_digest = String::new(alloc);
    push_hexadecimal(&mut old_digest, &before.digest)?;
    let mut new_digest = String::new(alloc);
    push_hexadecimal(&mut new_digest, &seal.digest)?;
    push_change(text, "tariff", old_digest.as_str(), new_digest.as_str())
}

/// A mode, as parameters have it.
fn mode_word(mode: Mode) -> &'static str {
    match mode {
        Mode::Single => "single",
        Mode::Double => "double",
    }
}

/// Appends what a number was and what it is, if it has changed.
fn push_changed_number(
    text: &mut String,
    alloc: Global,
    word: &str,
    old: u32,
    new: u32,
) -> Result<(), AllocError> {
    let old = old.to_string(alloc)?;
    let new = new.to_string(alloc)?;
    push_change(text, word, old.as_str(), new.as_str())
}

/// Appends what a value was and what it is, if it has changed.
fn push_change(text: &mut String, word: &str, old: &str, new: &str) -> Result<(), AllocError> {
    if old == new {
        return Ok(());
    }
    write!(text, "  --> {word}: was {old}, is {new}\n")
}

/// Appends that the offsets are other ones, and the date from which on, if they are.
fn push_changed_offsets(
    text: &mut String,
    old: &[(u64, i32)],
    new: &[(u64, i32)],
) -> Result<(), AllocError> {
    let mut place = 0usize;
    for (one, other) in old.iter().zip(new.iter()) {
        if one != other {
            break;
        }
        place = place.saturating_add(1);
    }
    let first = match (old.get(place), new.get(place)) {
        (Some(one), Some(other)) => one.0.min(other.0),
        (Some(one), None) => one.0,
        (None, Some(other)) => other.0,
        (None, None) => return Ok(()),
    };
    let (were, are) = (old.len(), new.len());
    write!(
        text,
        "  --> offsets: were {were}, are {are}; the first that differs begins on "
    )?;
    push_date(text, first)?;
    text.push('\n')
}

/// Appends the date of a second.
fn push_date(text: &mut String, second: u64) -> Result<(), AllocError> {
    match i32::try_from(second / DAY) {
        Ok(day) => push_day(text, day),
        Err(_) => Ok(()),
    }
}

/// Appends a date, given as its day number.
fn push_day(text: &mut String, day: i32) -> Result<(), AllocError> {
    if day < FIRST_DAY || day > LAST_DAY {
        return Ok(());
    }
    let date = date_of_day(day as u32);
    let (year, month, date) = (date.year, date.month, date.date);
    write!(text, "{year}-{month:02}-{date:02}")
}

/// Appends that the sealed offsets run out: there are several, and the last one begins less than 400 days from now.
fn push_offsets_end(text: &mut String, seal: &Seal, now: u64) -> Result<(), AllocError> {
    let pairs = seal.params.offsets.pairs();
    let Some(last) = pairs.last() else {
        return Ok(());
    };
    if pairs.len() < 2 || last.0 >= now.saturating_add(AHEAD) {
        return Ok(());
    }
    text.push_str("taxi: the last of the sealed offsets begins on ")?;
    push_date(text, last.0)?;
    text.push_str(
        "; seal with those of more years (docs/use/COMMANDS.md, \"A new tariff, or offsets for the next years\")\n",
    )
}

/// The second at which a date begins, given as 2026-03-02.
pub(crate) fn second_of_date(date: &str) -> Option<u64> {
    let mut parts = date.split('-');
    let year: u16 = parts.next()?.parse().ok()?;
    let month: u8 = parts.next()?.parse().ok()?;
    let date: u8 = parts.next()?.parse().ok()?;
    if year < 1970 || year > 9999 || parts.next().is_some() {
        return None;
    }
    Some(day_number(year, month, date)? as u64 * DAY)
}

/// What is said behind a filing of the receipts that it passed over, given how many receipts the roll has, if that could
/// be counted. None if it passed over none, or if there is no memory for it.
pub fn passed_over(alloc: Global, heard: &Heard, receipts: Option<u64>) -> Option<String> {
    let mut text = String::new(alloc);
    let passed = receipts.and_then(|receipts| receipts.checked_sub(filed_in(heard.printed())?));
    match passed {
        Some(0) => return None,
        Some(passed) => write!(
            text,
            "hiring_log: whole receipts of the roll that were passed over: {passed} (docs/use/HIRING_LOG.md, \"What is passed over\")\n"
        )
        .ok()?,
        None => text
            .push_str(
                "hiring_log: what was passed over of the roll was not counted: it is no plain file, or was written meanwhile\n",
            )
            .ok()?,
    }
    Some(text)
}

/// How many receipts a line of a filing says that it filed.
fn filed_in(line: &[u8]) -> Option<u64> {
    let line = str::from_utf8(line).ok()?;
    line.strip_prefix("FILED ")?.trim_end().parse().ok()
}
