//! What the parts of a tariff say.
ghost use Rattle.std.specs.Prelude.{◌≡◌, get_or};
ghost use Rattle.{tariff_check.specs.Parts.{rates_of}, tariff_calendar.specs.Lists.{is_holiday}};
ghost use Rattle.verify_bench.specs.Common.{IsSound, IsWritable, own_values, tree_of};

use tariff_check::{Checked, Choice, RateNumbers};

/// The rate at a place among the rates, from 0.
pub(crate) fn rate_at(checked: &Checked, place: usize) -> RateNumbers
    ensures value { result
        ≡ get_or (rates_of (tree_of checked.now).lines) place (record { a = 0; b = 0; c = 0; e = 0 }) }
    ensures sound { IsSound (tree_of checked.now) }
    ensures writable { IsWritable (tree_of checked.now) }
{
    let none = RateNumbers {
        a: 0,
        b: 0,
        c: 0,
        e: 0,
    };
    value_at(checked.rates(), place, none)
}

/// The value of the choice at a place, from 0; another one if there is none.
pub(crate) fn value_at<V: Copy>(choices: &[Choice<V>], place: usize, other: V) -> V
    ensures { result ≡ get_or (own_values choices.now) place other }
{
    match choices.get(place) {
        Some(choice) => choice.value,
        None => other,
    }
}

/// Whether a date is a holiday.
pub(crate) fn is_holiday(checked: &Checked, day: (u16, u8, u8)) -> bool
    ensures { result ≡ is_holiday (tree_of checked.now).lines day.0 day.1 day.2 }
{
    let holidays = checked.holidays();
    for holiday in holidays {
        if holiday.year == day.0 && holiday.month == day.1 && holiday.date == day.2 {
            return true;
        }
    }
    false
}
