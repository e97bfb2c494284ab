//! The rules for lines, and the first line that breaks one.
ghost use Rattle.std.specs.Prelude.{◌&&◌, ◌≡◌, map, nat_le};
ghost use Rattle.tariff_check.specs.Common.{entry_of, is_date, line_of};
ghost use Rattle.tariff_check.specs.{Lines.{first_line, is_for_nothing, is_no_holiday}, Rules.{breaks_rule}};

use crate::atoms::{AtomRule, item_breaks};
use crate::choice::is_great;
use crate::pairs::{count_alike, most_alike, some_excludes, some_is_default_for};
use tariff_tree::{Item, TariffLine};
use taxi_units::is_date;

/// What is asked of a line.
#[derive(Clone, Copy)]
pub(crate) enum LineRule {
    /// No earlier line excludes it.
    Once,
    /// It is no 65th line of its kind, and no 256th holiday.
    Few,
    /// Its condition names no position and no zone above the highest.
    Known(u8, u8),
    /// No earlier line of its kind is without a condition.
    NotAfterDefault,
    /// Its dates are dates.
    Dated,
    /// Its amounts aren't too big.
    Moderate,
    /// Its measures are above 0.
    Measured,
}

/// The number of the first line that breaks a rule.
pub(crate) fn first_line(rule: LineRule, lines: &[TariffLine]) -> Option<u32>
    ensures { result ≡ first_line (breaks_rule rule) (map line_of lines.now) }
{
    for (place, line) in lines.iter().enumerate() {
        if breaks(rule, &lines[..place], &line.item) {
            return Some(line.line);
        }
    }
    None
}

/// Whether a line breaks a rule, by the lines before it.
fn breaks(rule: LineRule, before: &[TariffLine], item: &Item) -> bool
    ensures { result ≡ breaks_rule rule (map line_of before.now) (entry_of item.now) }
{
    match rule {
        LineRule::Once => some_excludes(item, before),
        LineRule::Few => most_alike(item) <= count_alike(item, before),
        LineRule::Known(positions, zones) => item_breaks(AtomRule::Known(positions, zones), item),
        LineRule::NotAfterDefault => some_is_default_for(item, before),
        LineRule::Dated => is_no_holiday(item) || item_breaks(AtomRule::Dated, item),
        LineRule::Moderate => is_great(item),
        LineRule::Measured => is_for_nothing(item) || item_breaks(AtomRule::AfterSome, item),
    }
}

/// Whether an item is a holiday that is no date of the years 2000 to 2199.
fn is_no_holiday(item: &Item) -> bool
    ensures { result ≡ is_no_holiday (entry_of item.now) }
{
    match item {
        Item::Holiday { year, month, date } => !is_date_of_meter(*year, *month, *date),
        _ => false,
    }
}

/// Whether this is a date of the years 2000 to 2199.
fn is_date_of_meter(year: u16, month: u8, date: u8) -> bool
    ensures { result ≡ (nat_le 2000 year && (nat_le year 2199 && is_date year month date)) }
{
    2000 <= year && year <= 2199 && is_date(year, month, date)
}

/// Whether an item is a rate with a measure of 0.
pub(crate) fn is_for_nothing(item: &Item) -> bool
    ensures { result ≡ is_for_nothing (entry_of item.now) }
{
    match item {
        Item::Rate(rate) => rate.b == 0 || rate.e == 0,
        _ => false,
    }
}
