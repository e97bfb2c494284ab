//! The rules for the atoms of conditions.
ghost use Rattle.std.specs.{List.{list_any}, Prelude.{◌≡◌}};
ghost use Rattle.tariff_check.specs.{Common.{condition_of, entry_of}, Rules.{breaks_atom_rule}};
ghost use Rattle.tariff_check.specs.Lines.{atoms_in, atoms_of, is_after_nothing, is_undated, is_unknown};

use crate::choice::condition;
use tariff_tree::{Cond, Item};
use taxi_units::is_date;

/// What is asked of the atoms of a condition.
#[derive(Clone, Copy)]
pub(crate) enum AtomRule {
    /// It names no position and no zone above the highest.
    Known(u8, u8),
    /// Its months and dates are dates of a leap year.
    Dated,
    /// An `after` is above 0.
    AfterSome,
}

/// Whether an atom of a line's condition breaks a rule.
pub(crate) fn item_breaks(rule: AtomRule, item: &Item) -> bool
    ensures { result ≡ list_any (breaks_atom_rule rule) (atoms_in (entry_of item.now)) }
{
    match condition(item) {
        Some(cond) => cond_breaks(rule, cond),
        None => false,
    }
}

/// Whether an atom of a condition breaks a rule.
fn cond_breaks(rule: AtomRule, cond: &Cond) -> bool
    ensures { result ≡ list_any (breaks_atom_rule rule) (atoms_of (condition_of cond.now)) }
{
    match cond {
        Cond::And(left, right) => cond_breaks(rule, left) || cond_breaks(rule, right),
        Cond::Or(left, right) => cond_breaks(rule, left) || cond_breaks(rule, right),
        Cond::Not(inner) => cond_breaks(rule, inner),
        _ => atom_breaks(rule, cond),
    }
}

/// Whether an atom breaks a rule. What is no atom breaks none.
fn atom_breaks(rule: AtomRule, cond: &Cond) -> bool
    ensures { result ≡ breaks_atom_rule rule (condition_of cond.now) }
{
    match rule {
        AtomRule::Known(positions, zones) => is_unknown(positions, zones, cond),
        AtomRule::Dated => is_undated(cond),
        AtomRule::AfterSome => is_after_nothing(cond),
    }
}

/// Whether an atom names a position or a zone above the highest.
fn is_unknown(positions: u8, zones: u8, cond: &Cond) -> bool
    ensures { result ≡ is_unknown positions zones (condition_of cond.now) }
{
    match cond {
        Cond::Position(number) => *number > positions,
        Cond::Zone(number) => *number > zones,
        _ => false,
    }
}

/// Whether an atom has a month and date that no leap year has.
fn is_undated(cond: &Cond) -> bool
    ensures { result ≡ is_undated (condition_of cond.now) }
{
    match cond {
        Cond::Date { from, to } => { !(is_date(2000, from.0, from.1) && is_date(2000, to.0, to.1)) }
        _ => false,
    }
}

/// Whether an atom is an `after` of 0.
fn is_after_nothing(cond: &Cond) -> bool
    ensures { result ≡ is_after_nothing (condition_of cond.now) }
{
    match cond {
        Cond::AfterDistance(decimetres) => *decimetres == 0,
        Cond::AfterTime(tenths) => *tenths == 0,
        _ => false,
    }
}
