//! What a line has in common with the lines before it.
ghost use Rattle.std.specs.{List.{count_by, list_any}, Prelude.{◌≡◌, map}};
ghost use Rattle.tariff_check.specs.Common.{Line, entry_of, line_of};
ghost use Rattle.tariff_check.specs.Lines.{excludes, is_alike, is_default_for, is_of_same, most_alike};
ghost use Rattle.tariff_tree.specs.Tree as Tree;

use crate::choice::{ChoiceKind, condition, is_of, kind_of};
use tariff_tree::{Item, TariffLine};

/// Whether one of some lines excludes an item.
pub(crate) fn some_excludes(item: &Item, before: &[TariffLine]) -> bool
    ensures { result ≡ list_any (λ (l : Line). excludes (entry_of item.now) l.entry) (map line_of before.now) }
{
    for line in before {
        if excludes(item, &line.item) {
            return true;
        }
    }
    false
}

/// Whether one of some lines is a line of an item's kind without a condition.
pub(crate) fn some_is_default_for(item: &Item, before: &[TariffLine]) -> bool
    ensures { result ≡ list_any (λ (l : Line). is_default_for (entry_of item.now) l.entry) (map line_of before.now) }
{
    for line in before {
        if is_default_for(item, &line.item) {
            return true;
        }
    }
    false
}

/// How many of some lines are of an item's kind, or holidays as it is.
pub(crate) fn count_alike(item: &Item, before: &[TariffLine]) -> usize
    ensures { result ≡ count_by (λ (l : Line). is_alike (entry_of item.now) l.entry) (map line_of before.now) }
{
    let mut count = 0;
    for line in before {
        if is_alike(item, &line.item) {
            count += 1;
        }
    }
    count
}

/// How many lines of an item's kind there may be.
pub(crate) fn most_alike(item: &Item) -> usize
    ensures { result ≡ most_alike (entry_of item.now) }
{
    match item {
        Item::Holiday { .. } => 255,
        _ => 64,
    }
}

/// Whether a tariff may have only one of two lines.
fn excludes(item: &Item, other: &Item) -> bool
    ensures { result ≡ excludes (entry_of item.now) (entry_of other.now) }
{
    match item {
        Item::Step { .. } => matches!(other, Item::Step { .. }),
        Item::Positions(_) => matches!(other, Item::Positions(_)),
        Item::Zones(_) => matches!(other, Item::Zones(_)),
        Item::Supplement { number, .. } => is_supplement(*number, other),
        Item::Holiday { year, month, date } => is_holiday(*year, *month, *date, other),
        _ => false,
    }
}

/// Whether an item is the supplement of a number.
fn is_supplement(wanted: u8, item: &Item) -> bool
    ensures { result ≡ excludes (Tree.supplement wanted 0 0) (entry_of item.now) }
{
    match item {
        Item::Supplement { number, .. } => wanted == *number,
        _ => false,
    }
}

/// Whether an item says that a date is a holiday.
fn is_holiday(wanted_year: u16, wanted_month: u8, wanted_date: u8, item: &Item) -> bool
    ensures { result ≡ excludes (Tree.holiday wanted_year wanted_month wanted_date) (entry_of item.now) }
{
    match item {
        Item::Holiday { year, month, date } => {
            wanted_year == *year && wanted_month == *month && wanted_date == *date
        }
        _ => false,
    }
}

/// Whether two lines are of one kind, or both holidays.
fn is_alike(item: &Item, other: &Item) -> bool
    ensures { result ≡ is_alike (entry_of item.now) (entry_of other.now) }
{
    match (item, other) {
        (Item::Holiday { .. }, Item::Holiday { .. }) => true,
        _ => is_of_same(kind_of(item), other),
    }
}

/// Whether a line is one of an item's kind and has no condition.
fn is_default_for(item: &Item, other: &Item) -> bool
    ensures { result ≡ is_default_for (entry_of item.now) (entry_of other.now) }
{
    is_of_same(kind_of(item), other) && condition(other).is_none()
}

/// Whether an item is of a kind, which may be none.
fn is_of_same(kind: Option<ChoiceKind>, item: &Item) -> bool
    ensures { result ≡ is_of_same kind (entry_of item.now) }
{
    match kind {
        Some(kind) => is_of(kind, item),
        None => false,
    }
}
