//! Reads what a line says.
ghost use Rattle.std.specs.Prelude.{◌≤◌, IfSome};
ghost use Rattle.{tariff_tree.specs.Tree.{entry_of}, tariff_syntax.specs.Items.{supplement_read, zones_read}};
ghost use Rattle.tariff_syntax.specs.{Built.{EntryHasParts}, Common.{Gives, GivesSame}, TokenReading.{tokens_of}};
ghost use Rattle.tariff_syntax.specs.Faults.{GivesOrFails};
ghost use Rattle.tariff_syntax.specs.Items.{count_read, holiday_read, item_read, positions_read, step_read};
ghost use Rattle.tariff_syntax.specs.Items as spec;

use crate::conditions::{LineFault, when};
use crate::figures::{amount_first, number_first, year_date_first};
use crate::words::{after_sign, after_word, is_over, is_text, word_first};
use drive_modes::Rounding;
use std::alloc::Global;
use tariff_tree::{InitialLine, Item, MinimumLine, RateLine};

/// What a line says, whose money has `decimals` decimals.
#[tactic(auto, unfolding(crate::specs::Items::item_read))]
pub fn item(alloc: Global, decimals: u8, line: &[u8]) -> Result<Item, LineFault>
    requires { decimals ≤ 3 }
    ensures { GivesOrFails entry_of EntryHasParts result (item_read decimals (tokens_of line.now)) }
{
    let Some((name, rest)) = word_first(line) else {
        return Err(LineFault::Bad);
    };
    item_named(alloc, decimals, name, rest)
}

/// What a line says, after its first word.
#[tactic(auto, unfolding(crate::specs::Items::item_named))]
fn item_named(alloc: Global, decimals: u8, name: &[u8], line: &[u8]) -> Result<Item, LineFault>
    requires { decimals ≤ 3 }
    ensures { GivesOrFails entry_of EntryHasParts result (spec.item_named decimals name.now (tokens_of line.now)) }
{
    if is_text(name, b"initial") {
        return initial(alloc, decimals, line);
    }
    if is_text(name, b"rate") {
        return rate(alloc, decimals, line);
    }
    if is_text(name, b"minimum") {
        return minimum(alloc, decimals, line);
    }
    match plain_named(decimals, name, line) {
        Some(item) => Ok(item),
        None => Err(LineFault::Bad),
    }
}

/// What a line without a condition says, after its first word.
#[tactic(auto, unfolding(crate::specs::Items::plain_named))]
fn plain_named(decimals: u8, name: &[u8], line: &[u8]) -> Option<Item>
    requires { decimals ≤ 3 }
    ensures { Gives entry_of result (spec.plain_named decimals name.now (tokens_of line.now)) }
{
    if is_text(name, b"step") {
        return step(decimals, line);
    }
    if is_text(name, b"positions") {
        return positions(line);
    }
    if is_text(name, b"zones") {
        return zones(line);
    }
    if is_text(name, b"holiday") {
        return holiday(line);
    }
    if is_text(name, b"supplement") {
        return supplement(decimals, line);
    }
    None
}

/// A display step.
#[tactic(auto, unfolding(crate::specs::Items::step_read))]
fn step(decimals: u8, line: &[u8]) -> Option<Item>
    requires { decimals ≤ 3 }
    ensures { Gives entry_of result (step_read decimals (tokens_of line.now)) }
{
    let (amount, rest) = amount_first(line, decimals)?;
    let rounding = rounding_end(rest)?;
    Some(Item::Step { amount, rounding })
}

/// The rounding at the end of a line, which may leave it out.
#[tactic(auto, unfolding(crate::specs::Items::rounding_end))]
fn rounding_end(line: &[u8]) -> Option<Rounding>
    ensures { GivesSame result (spec.rounding_end (tokens_of line.now)) }
{
    if is_over(line) {
        return Some(Rounding::Behind);
    }
    let (name, rest) = word_first(line)?;
    let rounding = rounding(name)?;
    if !is_over(rest) {
        return None;
    }
    Some(rounding)
}

/// The rounding that a word names.
fn rounding(name: &[u8]) -> Option<Rounding>
    ensures { GivesSame result (spec.rounding_read name.now) }
{
    if is_text(name, b"behind") {
        return Some(Rounding::Behind);
    }
    if is_text(name, b"ahead") {
        return Some(Rounding::Ahead);
    }
    None
}

/// How many positions there are.
fn positions(line: &[u8]) -> Option<Item>
    ensures { Gives entry_of result (positions_read (tokens_of line.now)) }
{
    let number = count(line)?;
    Some(Item::Positions(number))
}

/// How many zones there are.
fn zones(line: &[u8]) -> Option<Item>
    ensures { Gives entry_of result (zones_read (tokens_of line.now)) }
{
    let number = count(line)?;
    Some(Item::Zones(number))
}

/// A number from 1 to 9 at the end of a line.
#[tactic(auto, unfolding(crate::specs::Items::count_read))]
fn count(line: &[u8]) -> Option<u8>
    ensures { GivesSame result (count_read (tokens_of line.now)) }
{
    let (number, rest) = number_first(line, 1, 9)?;
    if !is_over(rest) {
        return None;
    }
    Some(number)
}

/// A holiday.
#[tactic(auto, unfolding(crate::specs::Items::holiday_read))]
fn holiday(line: &[u8]) -> Option<Item>
    ensures { Gives entry_of result (holiday_read (tokens_of line.now)) }
{
    let ((year, month, date), rest) = year_date_first(line)?;
    if !is_over(rest) {
        return None;
    }
    Some(Item::Holiday { year, month, date })
}

/// A supplement.
#[tactic(auto, unfolding(crate::specs::Items::supplement_read))]
fn supplement(decimals: u8, line: &[u8]) -> Option<Item>
    requires { decimals ≤ 3 }
    ensures { Gives entry_of result (supplement_read decimals (tokens_of line.now)) }
{
    let (number, rest) = number_first(line, 1, 16)?;
    let (amount, rest) = amount_first(rest, decimals)?;
    let rest = after_word(rest, b"max")?;
    let (max, rest) = number_first(rest, 1, 99)?;
    if !is_over(rest) {
        return None;
    }
    Some(Item::Supplement {
        number,
        amount,
        max,
    })
}

/// An initial hire fee.
#[tactic(auto, unfolding(crate::specs::Items::initial_read))]
fn initial(alloc: Global, decimals: u8, line: &[u8]) -> Result<Item, LineFault>
    requires { decimals ≤ 3 }
    ensures { GivesOrFails entry_of EntryHasParts result (spec.initial_read decimals (tokens_of line.now)) }
{
    let Some((amount, rest)) = amount_first(line, decimals) else {
        return Err(LineFault::Bad);
    };
    let Some((covers, rest)) = covers_first(decimals, rest) else {
        return Err(LineFault::Bad);
    };
    let cond = when(alloc, rest)?;
    Ok(Item::Initial(InitialLine {
        amount,
        covers,
        cond,
    }))
}

/// The covered amount, which may be left out, and the text behind it.
#[tactic(auto, unfolding(crate::specs::Items::covers_first))]
fn covers_first(decimals: u8, line: &[u8]) -> Option<(u64, &[u8])>
    requires { decimals ≤ 3 }
    ensures { Gives (λ x. (x.0, tokens_of x.1.now)) result (spec.covers_first decimals (tokens_of line.now)) }
{
    match after_word(line, b"covers") {
        None => Some((0, line)),
        Some(rest) => amount_first(rest, decimals),
    }
}

/// A rate.
#[tactic(auto, unfolding(crate::specs::Items::rate_read))]
fn rate(alloc: Global, decimals: u8, line: &[u8]) -> Result<Item, LineFault>
    requires { decimals ≤ 3 }
    ensures { GivesOrFails entry_of EntryHasParts result (spec.rate_read decimals (tokens_of line.now)) }
{
    let Some(((a, b), rest)) = per_first(decimals, line, b"m") else {
        return Err(LineFault::Bad);
    };
    let Some(rest) = after_sign(rest, b",") else {
        return Err(LineFault::Bad);
    };
    let Some(((c, e), rest)) = per_first(decimals, rest, b"s") else {
        return Err(LineFault::Bad);
    };
    let cond = when(alloc, rest)?;
    Ok(Item::Rate(RateLine { a, b, c, e, cond }))
}

/// An amount for each measure, and the text behind its unit.
#[tactic(auto, unfolding(crate::specs::Items::per_first))]
fn per_first<'a>(decimals: u8, line: &'a [u8], unit: &[u8]) -> Option<((u64, u64), &'a [u8])>
    requires { decimals ≤ 3 }
    ensures { Gives (λ x. (x.0, tokens_of x.1.now)) result (spec.per_first decimals unit.now (tokens_of line.now)) }
{
    let (amount, rest) = amount_first(line, decimals)?;
    let rest = after_word(rest, b"per")?;
    let (measure, rest) = amount_first(rest, 1)?;
    let rest = after_word(rest, unit)?;
    Some(((amount, measure), rest))
}

/// A minimum fare.
#[tactic(auto, unfolding(crate::specs::Items::minimum_read))]
fn minimum(alloc: Global, decimals: u8, line: &[u8]) -> Result<Item, LineFault>
    requires { decimals ≤ 3 }
    ensures { GivesOrFails entry_of EntryHasParts result (spec.minimum_read decimals (tokens_of line.now)) }
{
    let Some((amount, rest)) = amount_first(line, decimals) else {
        return Err(LineFault::Bad);
    };
    let cond = when(alloc, rest)?;
    Ok(Item::Minimum(MinimumLine { amount, cond }))
}

/// The decimals of a line of decimals.
#[tactic(auto, unfolding(crate::specs::Items::decimals_read))]
pub fn decimals(line: &[u8]) -> Option<u8>
    ensures value { GivesSame result (spec.decimals_read (tokens_of line.now)) }
    ensures small { IfSome result (λ n. n ≤ 3) }
{
    let rest = after_word(line, b"decimals")?;
    let (number, rest) = number_first(rest, 0, 3)?;
    if !is_over(rest) {
        return None;
    }
    Some(number)
}
