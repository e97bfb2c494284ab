//! The values of the parameters.
ghost use Rattle.std.specs.{List.{list_all}, Prelude.{[], ◌≡◌, ◌≤◌}};
ghost use Rattle.taxi_units.specs.{Identifier.{is_identifier_character}, Reading.{GivesSame}};
ghost use Rattle.seal_record.specs.{Common.{Gives, number_in}, RangeTests.{taxi_test}};
ghost use Rattle.seal_record.specs.Limits.{first_year, greatest_constant, last_year, least_constant, longest_hold};
ghost use Rattle.seal_record.specs.Values as spec;

use crate::names::is_text;
use crate::params::{LONGEST_HOLD, LONGEST_TAXI};
use arrayvec::ArrayVec;
use drive_modes::{Constant, GREATEST_CONSTANT, LEAST_CONSTANT, Mode};
use interval_clock::{GREATEST_OFFSET, day_number};
use taxi_units::{is_identifier_character, number_at, number_in, number_of_width, word};

/// The first year of a date of securing.
const FIRST_YEAR: u64 = 2000;

/// The last year of a date of securing.
const LAST_YEAR: u64 = 2199;

/// Whether all bytes are characters of taxi identifiers.
fn are_taxi_characters(text: &[u8]) -> bool
    ensures { result ≡ list_all is_identifier_character text.now }
{
    text.iter().all(|byte| is_identifier_character(*byte))
}

/// Whether a text is a taxi identifier.
pub(crate) fn is_taxi(text: &[u8]) -> bool
    ensures { result ≡ (taxi_test text.now).passes }
{
    1 <= text.len() && (text.len() <= LONGEST_TAXI && are_taxi_characters(text))
}

/// A taxi identifier.
pub(crate) fn taxi(text: &[u8]) -> Option<ArrayVec<u8, LONGEST_TAXI>>
    ensures { Gives (λ taxi. taxi.items) result (spec.taxi_read text.now) }
{
    if !is_taxi(text) {
        return None;
    }
    let mut taxi = ArrayVec::new();
    match taxi.try_extend_from_slice(text) {
        Ok(()) => Some(taxi),
        Err(_) => None,
    }
}

/// The constant of the distance signal generator.
pub(crate) fn constant(text: &[u8]) -> Option<Constant>
    ensures { GivesSame result (number_in least_constant greatest_constant text.now) }
{
    let per_kilometre = number_in(text, LEAST_CONSTANT as u64, GREATEST_CONSTANT as u64)?;
    match Constant::new(per_kilometre as u32) {
        Ok(constant) => Some(constant),
        Err(_) => None,
    }
}

/// The seconds for which a trip may be held.
pub(crate) fn hold_time(text: &[u8]) -> Option<u16>
    ensures { GivesSame result (number_in 0 longest_hold text.now) }
{
    let seconds = number_in(text, 0, u64::from(LONGEST_HOLD))?;
    Some(seconds as u16)
}

/// How time and distance are charged.
#[tactic(auto, unfolding(crate::specs::Values::mode_read))]
pub(crate) fn mode(text: &[u8]) -> Option<Mode>
    ensures { GivesSame result (spec.mode_read text.now) }
{
    if is_text(text, b"single") {
        Some(Mode::Single)
    } else if is_text(text, b"double") {
        Some(Mode::Double)
    } else {
        None
    }
}

/// An offset of at most 14 hours, in seconds.
#[tactic(auto, unfolding(crate::specs::Values::offset_read))]
fn offset(text: &[u8]) -> Option<i32>
    ensures { GivesSame result (spec.offset_read text.now) }
{
    match word(text, b"-") {
        Some(digits) => {
            let seconds = number_in(digits, 0, GREATEST_OFFSET as u64)?;
            Some(-(seconds as i32))
        }
        None => {
            let seconds = number_in(text, 0, GREATEST_OFFSET as u64)?;
            Some(seconds as i32)
        }
    }
}

/// A second, and the offset that is in force from it on.
#[tactic(auto, unfolding(crate::specs::Values::pair_read))]
pub(crate) fn pair(text: &[u8]) -> Option<(u64, i32)>
    ensures { GivesSame result (spec.pair_read text.now) }
{
    let (second, rest) = number_at(text)?;
    let rest = word(rest, b" ")?;
    let offset = offset(rest)?;
    Some((second, offset))
}

/// The day number of a date of the years 2000 to 2199.
#[tactic(auto, unfolding(crate::specs::Values::secured_read))]
pub(crate) fn secured(text: &[u8]) -> Option<i32>
    ensures { GivesSame result (spec.secured_read text.now) }
{
    let (year, rest) = number_of_width(text, 4)?;
    let rest = word(rest, b"-")?;
    let (month, rest) = number_of_width(rest, 2)?;
    let rest = word(rest, b"-")?;
    let (date, rest) = number_of_width(rest, 2)?;
    if rest.len() == 0 && FIRST_YEAR <= year && year <= LAST_YEAR {
        return day_of(year as u16, month as u8, date as u8);
    }
    None
}

/// The day number of a date.
#[tactic(auto, using(crate::proofs::DayBounds::days_in_range))]
fn day_of(year: u16, month: u8, date: u8) -> Option<i32>
    requires from { first_year ≤ year }
    requires to { year ≤ last_year }
    ensures { GivesSame result (spec.where_date year month date []) }
{
    match day_number(year, month, date) {
        Some(day) => Some(day as i32),
        None => None,
    }
}
