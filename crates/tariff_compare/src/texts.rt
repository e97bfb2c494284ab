//! The texts of contexts of a meter, and of the uses of lines.
ghost use Rattle.std.specs.Prelude.{◌++◌, ◌≡◌, All, IfOk, OnOk, decimal};
ghost use Rattle.{taxi_units.specs.{Number.{padded_text}, Weekdays.{day_name}}, tariff_compare.specs.Common.{IsFromTo}};
ghost use Rattle.tariff_compare.specs.Texts.{context_text, date_text, first_text, hiring_text, minute_text};
ghost use Rattle.tariff_compare.specs.Texts.{moment_text, place_text, trip_text, use_text, uses_text};
ghost use Rattle.tariff_compare.specs.Uses.{IsDated, IsDatedUse};

use crate::day::weekday_of;
use crate::kinds::{is_asked_amid, push_kind};
use crate::meter_context::MeterContext;
use crate::uses::LineUse;
use interval_clock::{CalendarDate, date_of_day};
use std::alloc::{AllocError, Global};
use tariff_check::ChoiceKind;
use taxi_units::{DAY_NAMES, Line, NoMemory, put_number, put_padded};

/// The text of the uses of lines, a line of text each. It has the number of the line and the word of its kind, then
/// `holds` and the first context in which it counts, or `never`. The form is this project's own. `NoMemory` if memory
/// runs out.
pub fn print_uses(alloc: Global, uses: &[LineUse]) -> Result<Vec<u8>, NoMemory>
    requires { All IsDatedUse uses.now }
    ensures { IfOk result (λ text. text.items ≡ uses_text uses.now) }
{
    let mut text = Vec::new(alloc);
    for one in uses {
        if push_use(&mut text, one).is_err() {
            return Err(NoMemory);
        }
    }
    Ok(text)
}

/// The use of a line.
#[tactic(auto, unfolding(crate::specs::Texts::use_text))]
fn push_use(text: &mut Vec<u8>, one: &LineUse) -> Result<(), AllocError>
    requires { IsDatedUse one.now }
    ensures { OnOk result (text.new.items ≡ text.old.items ++ use_text one.now) }
{
    push_decimal(text, one.line as u64)?;
    text.push(b' ')?;
    push_kind(text, one.kind)?;
    push_first(text, one.kind, &one.first)
}

/// The first context in which a line counts, or `never`.
fn push_first(
    text: &mut Vec<u8>,
    kind: ChoiceKind,
    first: &Option<MeterContext>,
) -> Result<(), AllocError>
    requires { IsDated first.now }
    ensures { OnOk result (text.new.items ≡ text.old.items ++ first_text kind first.now) }
{
    match first {
        None => text.extend_from_slice(b" never\n"),
        Some(m) => {
            text.extend_from_slice(b" holds ")?;
            push_context(text, kind, m)?;
            text.extend_from_slice(b"\n")
        }
    }
}

/// A context in which a line of a kind is asked.
pub(crate) fn push_context(
    text: &mut Vec<u8>,
    kind: ChoiceKind,
    m: &MeterContext,
) -> Result<(), AllocError>
    requires { IsFromTo 10956 84006 m.now.day }
    ensures { OnOk result (text.new.items ≡ text.old.items ++ context_text kind m.now) }
{
    if is_asked_amid(kind) {
        push_trip(text, m)
    } else {
        push_hiring(text, m)
    }
}

/// A context amid a trip.
#[tactic(auto, unfolding(crate::specs::Texts::trip_text))]
fn push_trip(text: &mut Vec<u8>, m: &MeterContext) -> Result<(), AllocError>
    requires { IsFromTo 10956 84006 m.now.day }
    ensures { OnOk result (text.new.items ≡ text.old.items ++ trip_text m.now) }
{
    push_hiring(text, m)?;
    text.push(b' ')?;
    push_decimal(text, m.ticks as u64)?;
    text.extend_from_slice(b" t ")?;
    push_decimal(text, m.pulses)?;
    text.extend_from_slice(b" p")
}

/// A context at a hiring.
#[tactic(auto, unfolding(crate::specs::Texts::hiring_text))]
fn push_hiring(text: &mut Vec<u8>, m: &MeterContext) -> Result<(), AllocError>
    requires { IsFromTo 10956 84006 m.now.day }
    ensures { OnOk result (text.new.items ≡ text.old.items ++ hiring_text m.now) }
{
    push_place(text, m.position, m.zone)?;
    text.push(b' ')?;
    push_moment(text, m.day, m.minute)
}

/// A position and a zone.
#[tactic(auto, unfolding(crate::specs::Texts::place_text))]
fn push_place(text: &mut Vec<u8>, position: u8, zone: u8) -> Result<(), AllocError>
    ensures { OnOk result (text.new.items ≡ text.old.items ++ place_text position zone) }
{
    text.push(b'T')?;
    push_decimal(text, position as u64)?;
    text.extend_from_slice(b" Z")?;
    push_decimal(text, zone as u64)
}

/// A day and a minute.
#[tactic(auto, unfolding(crate::specs::Texts::moment_text))]
fn push_moment(text: &mut Vec<u8>, day: u32, minute: u16) -> Result<(), AllocError>
    requires { IsFromTo 10956 84006 day }
    ensures { OnOk result (text.new.items ≡ text.old.items ++ moment_text day minute) }
{
    push_weekday(text, weekday_of(day))?;
    text.push(b' ')?;
    push_date(text, date_of_day(day))?;
    text.push(b' ')?;
    push_minute(text, minute)
}

/// The short name of a weekday, 1 for Monday to 7 for Sunday.
fn push_weekday(text: &mut Vec<u8>, weekday: u8) -> Result<(), AllocError>
    requires { IsFromTo 1 7 weekday }
    ensures { OnOk result (text.new.items ≡ text.old.items ++ day_name weekday) }
{
    match weekday {
        1 => text.extend_from_slice(DAY_NAMES[0]),
        2 => text.extend_from_slice(DAY_NAMES[1]),
        3 => text.extend_from_slice(DAY_NAMES[2]),
        4 => text.extend_from_slice(DAY_NAMES[3]),
        5 => text.extend_from_slice(DAY_NAMES[4]),
        6 => text.extend_from_slice(DAY_NAMES[5]),
        7 => text.extend_from_slice(DAY_NAMES[6]),
        _ => unreachable!(),
    }
}

/// A date.
fn push_date(text: &mut Vec<u8>, date: CalendarDate) -> Result<(), AllocError>
    ensures { OnOk result (text.new.items ≡ text.old.items ++ date_text date) }
{
    push_wide(text, date.year as u64, 4)?;
    text.push(b'-')?;
    push_wide(text, date.month as u64, 2)?;
    text.push(b'-')?;
    push_wide(text, date.date as u64, 2)
}

/// A minute of the day.
fn push_minute(text: &mut Vec<u8>, minute: u16) -> Result<(), AllocError>
    ensures { OnOk result (text.new.items ≡ text.old.items ++ minute_text minute) }
{
    push_wide(text, (minute / 60) as u64, 2)?;
    text.push(b':')?;
    push_wide(text, (minute % 60) as u64, 2)
}

/// A number in decimal.
pub(crate) fn push_decimal(text: &mut Vec<u8>, number: u64) -> Result<(), AllocError>
    ensures { OnOk result (text.new.items ≡ text.old.items ++ decimal number) }
{
    let mut line = Line::new();
    match put_number(&mut line, number as u128) {
        Ok(()) => text.extend_from_slice(line.as_slice()),
        Err(_) => Err(AllocError),
    }
}

/// A number in decimal, with zeros in front up to a width.
fn push_wide(text: &mut Vec<u8>, number: u64, width: u8) -> Result<(), AllocError>
    ensures { OnOk result (text.new.items ≡ text.old.items ++ padded_text width number) }
{
    let mut line = Line::new();
    match put_padded(&mut line, number, width) {
        Ok(()) => text.extend_from_slice(line.as_slice()),
        Err(_) => Err(AllocError),
    }
}
