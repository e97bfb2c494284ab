//! How cells are numbered over the dimensions.
ghost use Rattle.std.specs.Prelude.{◌*◌, ◌+◌, ◌<◌, ◌^◌, ◌≡◌, ◌≤◌, if◌then◌else◌};
ghost use Rattle.tariff_compile.specs.{Cells.{IsBelow, bands_of, cell_count, cell_number, sizes_of}, Common.{has_days}};

use crate::parts::Bands;
use tariff_calendar::Cuts;
use tariff_check::Dimension;

/// How many numbers each dimension has, under a tariff's positions, zones and cuts. Days are of two kinds if there is a
/// holiday.
pub(crate) fn sizes_of(positions: u8, zones: u8, cuts: &Cuts) -> Bands
    ensures { result ≡ sizes_of positions zones (if has_days cuts.now then 2 else 1) cuts.now }
{
    Bands {
        position: positions as usize,
        zone: zones as usize,
        weekday: 7,
        holiday: if cuts.has_holidays() { 2 } else { 1 },
        month_day: cuts.list(Dimension::MonthDay).len() + 1,
        minute: cuts.list(Dimension::Minute).len() + 1,
        distance: cuts.list(Dimension::Distance).len() + 1,
        time: cuts.list(Dimension::Time).len() + 1,
    }
}

/// The number of a cell. Cells are numbered from 0 over the dimensions, the last running fastest.
pub(crate) fn cell_number(sizes: &Bands, bands: &Bands) -> usize
    requires below { IsBelow sizes.now bands.now }
    requires fits { cell_count sizes.now ≤ 2 ^ 32 }
    ensures value { result ≡ cell_number sizes.now bands.now }
    ensures below { result < cell_count sizes.now }
{
    let zones = and_digit(bands.position, sizes.zone, bands.zone);
    let weekdays = and_digit(zones, sizes.weekday, bands.weekday);
    let holidays = and_digit(weekdays, sizes.holiday, bands.holiday);
    let month_days = and_digit(holidays, sizes.month_day, bands.month_day);
    let minutes = and_digit(month_days, sizes.minute, bands.minute);
    let distances = and_digit(minutes, sizes.distance, bands.distance);
    and_digit(distances, sizes.time, bands.time)
}

/// A number and one digit more, of a dimension that has `size` numbers.
fn and_digit(number: usize, size: usize, digit: usize) -> usize
    requires { number * size + digit < 2 ^ 32 }
    ensures { result ≡ number * size + digit }
{
    number * size + digit
}

/// The numbers of a cell in each dimension.
pub(crate) fn bands_of(sizes: &Bands, cell: usize) -> Bands
    requires { IsBelow sizes.now (bands_of sizes.now cell) }
    ensures { result ≡ bands_of sizes.now cell }
{
    let distances = cell / sizes.time;
    let minutes = distances / sizes.distance;
    let month_days = minutes / sizes.minute;
    let holidays = month_days / sizes.month_day;
    let weekdays = holidays / sizes.holiday;
    let zones = weekdays / sizes.weekday;
    Bands {
        position: zones / sizes.zone,
        zone: zones % sizes.zone,
        weekday: weekdays % sizes.weekday,
        holiday: holidays % sizes.holiday,
        month_day: month_days % sizes.month_day,
        minute: minutes % sizes.minute,
        distance: distances % sizes.distance,
        time: cell % sizes.time,
    }
}
