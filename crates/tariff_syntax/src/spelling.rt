//! Writes the printed form of a condition.
ghost use Rattle.std.specs.{Fmt.{decimal}, Prelude.{◌++◌, ◌≡◌, OnOk, codes, true}};
ghost use Rattle.tariff_syntax.specs.{Appends.{Appends}, Common.{condition_of, day_name, money_text, padded_text}};
ghost use Rattle.tariff_syntax.specs.PrintedCondition.{condition_at, date_text, days_text, factor, in_parentheses};
ghost use Rattle.tariff_syntax.specs.PrintedCondition.{minute_text, term, whole};

use crate::printing::push_money;
use std::alloc::AllocError;
use tariff_tree::Cond;
use taxi_units::{DAY_NAMES, Line, put_padded};

/// A whole condition, or one before an `or`.
#[cycle(spelling)]
pub fn push_condition(text: &mut Vec<u8>, cond: &Cond) -> Result<(), AllocError>
    ensures { OnOk result (Appends text.old.items text.new.items (condition_at whole (condition_of cond.now))) }
{
    match cond {
        Cond::And(left, right) => {
            push_term(text, left)?;
            text.extend_from_slice(b" and ")?;
            push_factor(text, right)
        }
        Cond::Or(left, right) => {
            push_condition(text, left)?;
            text.extend_from_slice(b" or ")?;
            push_term(text, right)
        }
        Cond::Not(inner) => {
            text.extend_from_slice(b"not ")?;
            push_factor(text, inner)
        }
        Cond::Position(number) => push_named(text, b"position ", *number),
        Cond::Zone(number) => push_named(text, b"zone ", *number),
        Cond::Time { from, to } => push_time(text, *from, *to),
        Cond::Day { from, to } => push_days(text, *from, *to),
        Cond::Date { from, to } => push_dates(text, *from, *to),
        Cond::Holiday => text.extend_from_slice(b"holiday"),
        Cond::AfterDistance(decimetres) => push_after(text, *decimetres, b" m"),
        Cond::AfterTime(tenths) => push_after(text, *tenths, b" s"),
    }
}

/// A condition behind an `or` or before an `and`.
#[cycle(spelling)]
fn push_term(text: &mut Vec<u8>, cond: &Cond) -> Result<(), AllocError>
    ensures { OnOk result (Appends text.old.items text.new.items (condition_at term (condition_of cond.now))) }
{
    match cond {
        Cond::Or(_, _) => push_closed(text, cond),
        _ => push_condition(text, cond),
    }
}

/// A condition behind an `and` or a `not`.
#[cycle(spelling)]
fn push_factor(text: &mut Vec<u8>, cond: &Cond) -> Result<(), AllocError>
    ensures { OnOk result (Appends text.old.items text.new.items (condition_at factor (condition_of cond.now))) }
{
    match cond {
        Cond::And(_, _) | Cond::Or(_, _) => push_closed(text, cond),
        _ => push_condition(text, cond),
    }
}

/// A condition in parentheses.
#[cycle(spelling)]
fn push_closed(text: &mut Vec<u8>, cond: &Cond) -> Result<(), AllocError>
    ensures { OnOk result (Appends text.old.items text.new.items
        (in_parentheses true (condition_at whole (condition_of cond.now)))) }
{
    text.push(b'(')?;
    push_condition(text, cond)?;
    text.push(b')')?;
    Ok(())
}

/// A word and a number.
pub fn push_named(text: &mut Vec<u8>, name: &[u8], number: u8) -> Result<(), AllocError>
    ensures { OnOk result (Appends text.old.items text.new.items (λ rest. name.now ++ (decimal number ++ rest))) }
{
    text.extend_from_slice(name)?;
    push_money(text, number as u64, 0)
}

/// A range of minutes.
fn push_time(text: &mut Vec<u8>, from: u16, to: u16) -> Result<(), AllocError>
    ensures { OnOk result (Appends text.old.items text.new.items
        (λ rest. codes "time " ++ minute_text from (codes ".." ++ minute_text to rest))) }
{
    text.extend_from_slice(b"time ")?;
    push_minute(text, from)?;
    text.extend_from_slice(b"..")?;
    push_minute(text, to)
}

/// A minute of the day.
fn push_minute(text: &mut Vec<u8>, minute: u16) -> Result<(), AllocError>
    ensures { OnOk result (Appends text.old.items text.new.items (minute_text minute)) }
{
    push_padded(text, (minute / 60) as u64, 2)?;
    text.push(b':')?;
    push_padded(text, (minute % 60) as u64, 2)
}

/// One weekday, or a range of them.
fn push_days(text: &mut Vec<u8>, from: u8, to: u8) -> Result<(), AllocError>
    ensures { OnOk result (Appends text.old.items text.new.items (λ rest. codes "day " ++ days_text from to rest)) }
{
    text.extend_from_slice(b"day ")?;
    text.extend_from_slice(weekday(from))?;
    if from == to {
        return Ok(());
    }
    text.extend_from_slice(b"..")?;
    text.extend_from_slice(weekday(to))
}

/// The short name of a weekday, from 1 for Monday.
fn weekday(number: u8) -> &'static [u8]
    ensures { result.now ≡ day_name number }
{
    match number {
        0 | 1 => DAY_NAMES[0],
        2 => DAY_NAMES[1],
        3 => DAY_NAMES[2],
        4 => DAY_NAMES[3],
        5 => DAY_NAMES[4],
        6 => DAY_NAMES[5],
        7 => DAY_NAMES[6],
        _ => b"",
    }
}

/// A range of dates.
fn push_dates(text: &mut Vec<u8>, from: (u8, u8), to: (u8, u8)) -> Result<(), AllocError>
    ensures { OnOk result (Appends text.old.items text.new.items
        (λ rest. codes "date " ++ date_text from.0 from.1 (codes ".." ++ date_text to.0 to.1 rest))) }
{
    text.extend_from_slice(b"date ")?;
    push_date(text, from.0, from.1)?;
    text.extend_from_slice(b"..")?;
    push_date(text, to.0, to.1)
}

/// A date of any year.
pub fn push_date(text: &mut Vec<u8>, month: u8, date: u8) -> Result<(), AllocError>
    ensures { OnOk result (Appends text.old.items text.new.items (date_text month date)) }
{
    push_padded(text, month as u64, 2)?;
    text.push(b'-')?;
    push_padded(text, date as u64, 2)
}

/// A measure and its unit.
fn push_after(text: &mut Vec<u8>, measure: u64, unit: &[u8]) -> Result<(), AllocError>
    ensures { OnOk result (Appends text.old.items text.new.items
        (λ rest. codes "after " ++ (money_text 1 measure ++ (unit.now ++ rest)))) }
{
    text.extend_from_slice(b"after ")?;
    push_money(text, measure, 1)?;
    text.extend_from_slice(unit)
}

/// A number with zeros in front up to a width.
pub fn push_padded(text: &mut Vec<u8>, number: u64, width: u8) -> Result<(), AllocError>
    ensures { OnOk result (text.new.items ≡ text.old.items ++ padded_text width number) }
{
    let mut line = Line::new();
    match put_padded(&mut line, number, width) {
        Ok(()) => text.extend_from_slice(line.as_slice()),
        Err(_) => Err(AllocError),
    }
}
