//! The words of changes at the front of a text, and what stands after them.
ghost use Rattle.std.specs.Prelude.{◌≤◌, IfSome, length, map};
ghost use Rattle.offset_rules.specs.{Common.{Gives, day_names}, Names.{month_names, number_names}};
ghost use Rattle.offset_rules.specs.Reading.{numbered_at};

use taxi_units::{DAY_NAMES, word};

/// The names of the numbers 1 to 5 of a change.
const NUMBERS: [&[u8]; 5] = [b"first", b"second", b"third", b"fourth", b"last"];

/// The names of the months 1 to 12.
const MONTHS: [&[u8]; 12] = [
    b"jan", b"feb", b"mar", b"apr", b"may", b"jun", b"jul", b"aug", b"sep", b"oct", b"nov", b"dec",
];

/// Which date of its weekday in the month a change has: 1 to 4, or 5 for the last.
pub(crate) fn number(text: &[u8]) -> Option<(u8, &[u8])>
    ensures value { Gives (λ x. (x.0, x.1.now)) result (numbered_at number_names 1 text.now) }
    ensures range { IfSome result (λ x. (1 ≤ x.0) × (x.0 ≤ 5)) }
{
    numbered(text, &NUMBERS)
}

/// A day of the week: 1 for Monday to 7 for Sunday.
pub(crate) fn weekday(text: &[u8]) -> Option<(u8, &[u8])>
    ensures value { Gives (λ x. (x.0, x.1.now)) result (numbered_at day_names 1 text.now) }
    ensures range { IfSome result (λ x. (1 ≤ x.0) × (x.0 ≤ 7)) }
{
    numbered(text, &DAY_NAMES)
}

/// A month: 1 for January to 12 for December.
pub(crate) fn month(text: &[u8]) -> Option<(u8, &[u8])>
    ensures value { Gives (λ x. (x.0, x.1.now)) result (numbered_at month_names 1 text.now) }
    ensures range { IfSome result (λ x. (1 ≤ x.0) × (x.0 ≤ 12)) }
{
    numbered(text, &MONTHS)
}

/// The place, counted from 1, of the first name that a text begins with.
fn numbered<'t>(text: &'t [u8], names: &[&[u8]]) -> Option<(u8, &'t [u8])>
    requires { length names.now ≤ 12 }
    ensures value { Gives (λ x. (x.0, x.1.now)) result (numbered_at (map (λ x. x.now) names.now) 1 text.now) }
    ensures range { IfSome result (λ x. (1 ≤ x.0) × (x.0 ≤ length names.now)) }
{
    for (place, name) in names.iter().enumerate() {
        if let Some(rest) = word(text, name) {
            return Some((place as u8 + 1, rest));
        }
    }
    None
}
