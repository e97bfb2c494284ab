//! The ranges of what a totals' slot holds, in the order of its table.
ghost use Rattle.std.specs.{List.{list_all}, Prelude.{◌+◌, ◌≡◌, ◌≤◌, nat_le}};
ghost use Rattle.taxi_units.specs.Test.{each, if_passes, if_some, same};
ghost use Rattle.totals_record.specs.Common.{last_number, last_tick, within};
ghost use Rattle.totals_record.specs.Table.{counts_test, course_test, durable_test, extras_test, held_test};
ghost use Rattle.totals_record.specs.Table.{layout_test, meterage_test, none_test, sums_test, totals_test, trip_test};

use crate::{Durable, Share, Totals, Trip};
use drive_modes::Meterage;
use taxi_units::{
    FIRST_SECOND, LARGEST_AMOUNT, LARGEST_SUPPLEMENTS, LAST_NUMBER, LAST_SECOND, LONGEST_TRIP,
    ROAMING_AMID,
};

/// The layout in which each commit is written.
pub const NEWEST_LAYOUT: u8 = 2;

/// Whether each field of a state is in its range.
pub fn is_durable(durable: &Durable) -> bool
    ensures { result ≡ (durable_test durable.now).passes }
{
    let totals = &durable.totals;
    1 <= durable.number
        && durable.number <= LAST_NUMBER + 1
        && are_totals(durable.number, totals)
        && is_held(durable.number, &durable.hold)
        && add_up(&totals.shares, totals.before, totals.hirings, totals.fare)
        && is_layout(durable.layout, &totals.shares)
}

/// Whether the five totals are in their ranges beside a number.
fn are_totals(number: u64, totals: &Totals) -> bool
    requires { number ≤ last_number + 1 }
    ensures { result ≡ (totals_test number totals.now).passes }
{
    let number_wide = u128::from(number);
    totals.distance_mm <= 10_000_000_000_000_000_000_000 * number_wide
        && totals.hired_mm <= totals.distance_mm
        && totals.hirings <= number
        && totals.supplements <= 10_000_000_000 * number_wide
        && totals.fare <= 100_000_000 * number_wide
}

/// Whether no trip is held, or one that is in its ranges beside a number.
fn is_held(number: u64, hold: &Option<Trip>) -> bool
    requires { number ≤ last_number + 1 }
    ensures { result ≡ (if_some (held_test number) hold.now).passes }
{
    match hold {
        Some(trip) => number <= LAST_NUMBER && is_trip(number, trip),
        None => true,
    }
}

/// Whether a number is 1 to 9.
pub fn is_digit(n: u8) -> bool
    ensures { result ≡ (within 1 n 9).passes }
{
    1 <= n && n <= 9
}

/// Whether a trip is in its ranges beside a number.
fn is_trip(number: u64, trip: &Trip) -> bool
    requires { number ≤ last_number + 1 }
    ensures { result ≡ (trip_test number trip.now).passes }
{
    is_course(number, trip) && is_meterage(trip.ticks, &trip.meterage) && are_extras(trip)
}

/// Whether a trip has come as far as it may beside a number.
fn is_course(number: u64, trip: &Trip) -> bool
    requires { number ≤ last_number + 1 }
    ensures { result ≡ (course_test number trip.now).passes }
{
    FIRST_SECOND <= trip.started
        && trip.started <= LAST_SECOND
        && trip.started <= trip.saved
        && trip.saved <= LAST_SECOND
        && is_digit(trip.position)
        && is_digit(trip.zone)
        && trip.roam <= ROAMING_AMID
        && trip.pulses <= 2_000 * (u64::from(trip.ticks) + number)
        && trip.ticks < LONGEST_TRIP
        && trip.initial <= LARGEST_AMOUNT
}

/// Whether the charges of a trip of `ticks` intervals may have come to this.
fn is_meterage(ticks: u32, meterage: &Meterage) -> bool
    requires { ticks ≤ last_tick }
    ensures { result ≡ (meterage_test ticks meterage.now).passes }
{
    meterage.cover_left <= 20_000_000_000_000_000_000_000_000_000_000
        && meterage.steps_full <= 41_000_000_000 * u64::from(ticks)
        && meterage.rest < 200_000_000_000_000_000_000_000_000_000
}

/// Whether the supplements and the minimum fare of a trip are in their ranges.
fn are_extras(trip: &Trip) -> bool
    ensures { result ≡ (extras_test trip.now).passes }
{
    are_counts(&trip.extras)
        && trip.extras_sum <= LARGEST_SUPPLEMENTS
        && trip.minimum <= LARGEST_AMOUNT
}

/// Whether each count of the sixteen supplements is in its range.
fn are_counts(counts: &[u8; 16]) -> bool
    ensures { result ≡ (counts_test counts.now).passes }
{
    are_few(counts)
}

/// Whether each count is at most 99.
fn are_few(counts: &[u8]) -> bool
    ensures { result ≡ list_all (λ count. nat_le count 99) counts.now }
{
    counts.iter().all(|count| *count <= 99)
}

/// Whether there is such a layout, and the shares have no hiring if they are those of layout 1.
fn is_layout(layout: u8, shares: &[Share; 9]) -> bool
    ensures { result ≡ (layout_test layout shares.now).passes }
{
    (layout == 1 || layout == NEWEST_LAYOUT) && is_unshared(layout, shares)
}

/// Whether the shares have no hiring if they are those of layout 1.
fn is_unshared(layout: u8, shares: &[Share]) -> bool
    ensures { result ≡ (if_passes (same layout 1) (each none_test shares.now)).passes }
{
    if layout == 1 { are_none(shares) } else { true }
}

/// Whether no share has a hiring.
fn are_none(shares: &[Share]) -> bool
    ensures { result ≡ (each none_test shares.now).passes }
{
    shares.iter().all(is_none)
}

/// Whether a share has no hiring.
fn is_none(share: &Share) -> bool
    ensures { result ≡ (none_test share.now).passes }
{
    share.hirings == 0 && share.fare == 0
}

/// Whether the shares and what was counted before come to these hirings and this fare.
fn add_up(shares: &[Share], before: Share, hirings: u64, fare: u128) -> bool
    ensures { result ≡ (sums_test shares.now before hirings fare).passes }
{
    let mut hirings_left = hirings;
    let mut fare_left = fare;
    for share in shares {
        if hirings_left < share.hirings || fare_left < share.fare {
            return false;
        }
        hirings_left -= share.hirings;
        fare_left -= share.fare;
    }
    before.hirings == hirings_left && before.fare == fare_left
}
