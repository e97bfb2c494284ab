//! The calendar: leap years, the lengths of months, and the places of dates in a leap year.
ghost use Rattle.std.specs.Prelude.{ℕ, ◌<◌, ◌^◌, ◌↔◌, ◌≡◌, ◌≤◌, ◌⊎◌, IsTrue, None, Some, sum};
ghost use Rattle.taxi_units.specs.Calendar.{IsDate, IsLeapYearDate, IsMonth, date_of_place, date_place, days_of_month};
ghost use Rattle.taxi_units.specs.Calendar.{is_date, is_leap_year, month_lengths};

/// Whether a year is a leap year of the proleptic Gregorian calendar.
pub fn is_leap_year(year: u16) -> bool
    ensures { result ≡ is_leap_year year }
{
    year % 4 == 0 && (year % 100 != 0 || year % 400 == 0)
}

/// How many days a month of a year has. The month is 1 to 12.
pub fn days_of_month(year: u16, month: u8) -> u8
    requires { IsMonth month }
    ensures { result ≡ days_of_month year month }
{
    month_lengths(is_leap_year(year))[month as usize - 1] as u8
}

/// Whether the calendar has a date. The month counts from 1 for January, the date from 1.
pub fn is_date(year: u16, month: u8, date: u8) -> bool
    ensures value { result ≡ is_date year month date }
    ensures meaning { IsTrue result ↔ IsDate year month date }
{
    1 <= month && month <= 12 && 1 <= date && date <= days_of_month(year, month)
}

/// The place of a month and date in a leap year, from 0 for 1 January to 365 for 31 December. If no
/// leap year has the date, the place means nothing.
pub fn date_place(month: u8, date: u8) -> u16
    ensures { result ≡ date_place month date }
{
    let lengths = month_lengths(true);
    let months = month.saturating_sub(1).min(12) as usize;
    days_in(&lengths[..months]) + date.saturating_sub(1) as u16
}

/// The month and date at a place in a leap year. `None` exactly if the place is above 365.
pub fn date_of_place(place: u16) -> Option<(u8, u8)>
    ensures { result ≡ date_of_place place }
{
    let mut month = 1;
    let mut days = place;
    for &length in &month_lengths(true) {
        if days < length {
            return Some((month, days as u8 + 1));
        }
        days -= length;
        month += 1;
    }
    None
}

/// Each of the 366 dates of a leap year has its own place of 0 to 365. A date is before another exactly if its
/// place is.
pub fn dates_go_by_their_places()
    ensures places { (month date place : ℕ) → (date_of_place place ≡ Some (month, date))
        ↔ (IsLeapYearDate month date × (date_place month date ≡ place)) }
    ensures beyond { (place : ℕ) → (date_of_place place ≡ None) ↔ (366 ≤ place) }
    ensures order { (month date later other : ℕ) → IsLeapYearDate month date → IsLeapYearDate later other
        → (date_place month date < date_place later other) ↔ ((month < later) ⊎ ((month ≡ later) × (date < other))) }
{}

/// The days of the months from January to December.
fn month_lengths(leap: bool) -> [u16; 12]
    ensures { result ≡ month_lengths leap }
{
    [
        31,
        if leap { 29 } else { 28 },
        31,
        30,
        31,
        30,
        31,
        31,
        30,
        31,
        30,
        31,
    ]
}

/// The days of these months together.
fn days_in(lengths: &[u16]) -> u16
    requires { sum lengths.now < 2 ^ 16 }
    ensures { result ≡ sum lengths.now }
{
    lengths.iter().sum()
}
