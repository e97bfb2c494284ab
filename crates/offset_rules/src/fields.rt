//! Offsets, times and changes at the front of a text, and what stands after them.
ghost use Rattle.std.specs.Prelude.{◌≤◌, IfSome};
ghost use Rattle.offset_rules.specs.{Common.{Gives, IsOffset}, Rule.{IsChange}};
ghost use Rattle.offset_rules.specs.Reading as spec;

use crate::names::{month, number, weekday};
use crate::rules::Change;
use interval_clock::GREATEST_OFFSET;
use taxi_units::{figure_at, word};

/// An offset of at most 14 hours, in seconds.
#[tactic(auto, unfolding(crate::specs::Reading::seconds_at))]
pub(crate) fn seconds(text: &[u8]) -> Option<(i32, &[u8])>
    ensures value { Gives (λ x. (x.0, x.1.now)) result (spec.seconds_at text.now) }
    ensures range { IfSome result (λ x. IsOffset x.0) }
{
    match word(text, b"-") {
        Some(digits) => {
            let (seconds, rest) = figure_at(digits, 1, 5, 0, GREATEST_OFFSET as u64)?;
            Some((-(seconds as i32), rest))
        }
        None => {
            let (seconds, rest) = figure_at(text, 1, 5, 0, GREATEST_OFFSET as u64)?;
            Some((seconds as i32, rest))
        }
    }
}

/// The minute of the day of HH:MM.
#[tactic(auto, unfolding(crate::specs::Reading::time_at))]
fn time(text: &[u8]) -> Option<(u16, &[u8])>
    ensures value { Gives (λ x. (x.0, x.1.now)) result (spec.time_at text.now) }
    ensures range { IfSome result (λ x. x.0 ≤ 1439) }
{
    let (hour, rest) = figure_at(text, 2, 2, 0, 23)?;
    let rest = word(rest, b":")?;
    let (minute, rest) = figure_at(rest, 2, 2, 0, 59)?;
    Some(((hour * 60 + minute) as u16, rest))
}

/// A change: its number, its weekday, its month and its time.
#[tactic(auto, unfolding(crate::specs::Reading::change_at))]
pub(crate) fn change(text: &[u8]) -> Option<(Change, &[u8])>
    ensures value { Gives (λ x. (x.0, x.1.now)) result (spec.change_at text.now) }
    ensures ranges { IfSome result (λ x. IsChange x.0) }
{
    let (number, rest) = number(text)?;
    let rest = word(rest, b" ")?;
    let (weekday, rest) = weekday(rest)?;
    let rest = word(rest, b" ")?;
    let (month, rest) = month(rest)?;
    let rest = word(rest, b" ")?;
    let (minute, rest) = time(rest)?;
    let change = Change {
        number,
        weekday,
        month,
        minute,
    };
    Some((change, rest))
}
