//! A law of the calendar.
ghost use Rattle.std.specs.Prelude.{ℕ, ℤ, ◌%◌, ◌+ℤ◌, ◌+◌, ◌≡◌, IsTrue, pos};
ghost use Rattle.interval_clock.specs.Calendar.{IsDateOf, date_after, date_place, is_leap_year, next_date};
ghost use Rattle.interval_clock.specs.Calendar.{place_in_year, weekday_of};

use crate::day_numbers::CalendarDate;

/// A law: the calendar goes day by day from Thursday 1 January 1970, which is day 0. The day after a
/// date is the next date and the next weekday, and a day has one date. The date of day n is found by
/// going on n times. A date has the same place in all leap years.
pub fn the_calendar_goes_day_by_day()
    ensures first { IsDateOf (pos 0) 1970 1 1 × (weekday_of (pos 0) ≡ 4) }
    ensures next_date { (day : ℤ) (d : CalendarDate) → IsDateOf day d.year d.month d.date
        → IsDateOf (day +ℤ pos 1) (next_date d).year (next_date d).month (next_date d).date }
    ensures next_weekday { (day : ℤ) → weekday_of (day +ℤ pos 1) ≡ weekday_of day % 7 + 1 }
    ensures one_date { (day : ℤ) (a b : CalendarDate) → IsDateOf day a.year a.month a.date
        → IsDateOf day b.year b.month b.date → a ≡ b }
    ensures date_after { (n : ℕ)
        → IsDateOf (pos n) (date_after n).year (date_after n).month (date_after n).date }
    ensures leap_years { (year month date : ℕ) → IsTrue (is_leap_year year)
        → place_in_year year month date ≡ date_place month date }
{}
