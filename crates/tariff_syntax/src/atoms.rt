//! The atoms of a condition.
#![tactic(auto, unfolding(crate::specs::Atom::numbered_first))]

ghost use Rattle.tariff_syntax.specs.{Common.{Gives, GivesSame, condition_of}, TokenReading.{tokens_of}};
ghost use Rattle.tariff_syntax.specs.Atom as spec;
ghost use Rattle.tariff_tree.specs.Condition as tree;

use crate::figures::{amount_first, date_first, minute_first, number_first};
use crate::words::{after_sign, after_word, is_text, word_first};
use tariff_tree::Cond;
use taxi_units::DAY_NAMES;

/// An atom, after its first word, and the text behind it.
#[tactic(auto, unfolding(crate::specs::Atom::atom_named))]
pub fn atom_named<'a>(name: &[u8], line: &'a [u8]) -> Option<(Cond, &'a [u8])>
    ensures { Gives (λ x. (condition_of x.0, tokens_of x.1.now)) result
        (spec.atom_named name.now (tokens_of line.now)) }
{
    if is_text(name, b"position") {
        return position(line);
    }
    if is_text(name, b"zone") {
        return zone(line);
    }
    if is_text(name, b"time") {
        return time(line);
    }
    if is_text(name, b"day") {
        return days(line);
    }
    if is_text(name, b"date") {
        return dates(line);
    }
    if is_text(name, b"holiday") {
        return Some((Cond::Holiday, line));
    }
    if is_text(name, b"after") {
        return after(line);
    }
    None
}

/// A tariff position.
fn position(line: &[u8]) -> Option<(Cond, &[u8])>
    ensures { Gives (λ x. (condition_of x.0, tokens_of x.1.now)) result
        (spec.numbered_first tree.position (tokens_of line.now)) }
{
    let (number, rest) = number_first(line, 1, 9)?;
    Some((Cond::Position(number), rest))
}

/// A zone.
fn zone(line: &[u8]) -> Option<(Cond, &[u8])>
    ensures { Gives (λ x. (condition_of x.0, tokens_of x.1.now)) result
        (spec.numbered_first tree.zone (tokens_of line.now)) }
{
    let (number, rest) = number_first(line, 1, 9)?;
    Some((Cond::Zone(number), rest))
}

/// A range of minutes.
#[tactic(auto, unfolding(crate::specs::Atom::time_first))]
fn time(line: &[u8]) -> Option<(Cond, &[u8])>
    ensures { Gives (λ x. (condition_of x.0, tokens_of x.1.now)) result (spec.time_first (tokens_of line.now)) }
{
    let (from, rest) = minute_first(line)?;
    let rest = after_sign(rest, b"..")?;
    let (to, rest) = minute_first(rest)?;
    Some((Cond::Time { from, to }, rest))
}

/// One weekday, or a range of them.
#[tactic(auto, unfolding(crate::specs::Atom::days_first))]
fn days(line: &[u8]) -> Option<(Cond, &[u8])>
    ensures { Gives (λ x. (condition_of x.0, tokens_of x.1.now)) result (spec.days_first (tokens_of line.now)) }
{
    let (from, rest) = weekday_first(line)?;
    match after_sign(rest, b"..") {
        None => Some((Cond::Day { from, to: from }, rest)),
        Some(rest) => {
            let (to, rest) = weekday_first(rest)?;
            Some((Cond::Day { from, to }, rest))
        }
    }
}

/// A range of dates.
#[tactic(auto, unfolding(crate::specs::Atom::dates_first))]
fn dates(line: &[u8]) -> Option<(Cond, &[u8])>
    ensures { Gives (λ x. (condition_of x.0, tokens_of x.1.now)) result (spec.dates_first (tokens_of line.now)) }
{
    let (from, rest) = date_first(line)?;
    let rest = after_sign(rest, b"..")?;
    let (to, rest) = date_first(rest)?;
    Some((Cond::Date { from, to }, rest))
}

/// A measure and its unit.
#[tactic(auto, unfolding(crate::specs::Atom::after_first))]
fn after(line: &[u8]) -> Option<(Cond, &[u8])>
    ensures { Gives (λ x. (condition_of x.0, tokens_of x.1.now)) result (spec.after_first (tokens_of line.now)) }
{
    let (measure, rest) = amount_first(line, 1)?;
    match after_word(rest, b"m") {
        Some(rest) => Some((Cond::AfterDistance(measure), rest)),
        None => {
            let rest = after_word(rest, b"s")?;
            Some((Cond::AfterTime(measure), rest))
        }
    }
}

/// A weekday, and the text behind it.
#[tactic(auto, unfolding(crate::specs::Atom::weekday_first))]
fn weekday_first(line: &[u8]) -> Option<(u8, &[u8])>
    ensures { Gives (λ x. (x.0, tokens_of x.1.now)) result (spec.weekday_first (tokens_of line.now)) }
{
    let (name, rest) = word_first(line)?;
    let number = weekday(name)?;
    Some((number, rest))
}

/// The weekday that a word names, from 1 for Monday.
fn weekday(name: &[u8]) -> Option<u8>
    ensures { GivesSame result (spec.weekday_read name.now) }
{
    if is_text(name, DAY_NAMES[0]) {
        return Some(1);
    }
    if is_text(name, DAY_NAMES[1]) {
        return Some(2);
    }
    if is_text(name, DAY_NAMES[2]) {
        return Some(3);
    }
    if is_text(name, DAY_NAMES[3]) {
        return Some(4);
    }
    if is_text(name, DAY_NAMES[4]) {
        return Some(5);
    }
    if is_text(name, DAY_NAMES[5]) {
        return Some(6);
    }
    if is_text(name, DAY_NAMES[6]) {
        return Some(7);
    }
    None
}
