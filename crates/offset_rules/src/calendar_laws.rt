//! A law of the dates of changes.
ghost use Rattle.std.specs.Prelude.{ℕ, ◌↔◌, ◌≡◌, ◌≤◌};
ghost use Rattle.offset_rules.specs.{Changes.{IsDateOfChange, date_of_change}, Rule.{IsChange}};

use crate::rules::Change;

/// A law: a change comes on one date of each year, the one that its name says. The date is in the month and
/// has the weekday. For the first to the fourth, the weekday comes 0 to 3 times before it in the month; for
/// the last, the weekday doesn't come after it in the month.
pub fn changes_have_their_date()
    ensures { (year : ℕ) (change : Change) (date : ℕ) → 1970 ≤ year → IsChange change
        → (date_of_change year change ≡ date) ↔ IsDateOfChange year change date }
{}
