//! The line of a tariff that says what differs.
ghost use Rattle.std.specs.{List.{list_any}, Prelude.{◌&&◌, ◌==◌, ◌≡◌}};
ghost use Rattle.{taxi_units.specs.Reading.{Gives}, tariff_tree.specs.Tree.{line_of}};
ghost use Rattle.{tariff_check.specs.Parts.{DateNumbers}, tariff_compare.specs.Common.{IsFromTo, tree_of}};
ghost use Rattle.tariff_compare.specs.{Contexts.{context_at}, DifferenceTexts.{IsDatedDifference, line_of_difference}};

use crate::day::weekday_of;
use crate::difference::Difference;
use crate::meter_context::MeterContext;
use drive_modes::Constant;
use interval_clock::{CalendarDate, date_of_day};
use tariff_check::{Checked, DateNumbers, FramePart};
use tariff_tree::{Context, TariffLine};
use taxi_units::date_place;

/// The line of a tariff that says what differs under a constant.
pub(crate) fn line_of_difference<'a>(
    checked: &'a Checked,
    k: Constant,
    difference: &Difference,
) -> Option<&'a TariffLine>
    requires { IsDatedDifference difference.now }
    ensures { Gives (λ line. line_of line.now) result (line_of_difference (tree_of checked.now) k difference.now) }
{
    match difference {
        Difference::Decimals => None,
        Difference::Step => checked.frame_line(FramePart::Step),
        Difference::Rounded => checked.frame_line(FramePart::Step),
        Difference::Positions => checked.frame_line(FramePart::Positions),
        Difference::Zones => checked.frame_line(FramePart::Zones),
        Difference::Supplement(number) => checked.frame_line(FramePart::Supplement(*number)),
        Difference::In(kind, m) => {
            let x = context_of(checked, k, m);
            checked.line_in_force(*kind, &x)
        }
    }
}

/// The context in which a tariff's conditions are asked in a context of a meter.
fn context_of(checked: &Checked, k: Constant, m: &MeterContext) -> Context
    requires { IsFromTo 10956 84006 m.now.day }
    ensures { result ≡ context_at (tree_of checked.now) k m.now }
{
    let date = date_of_day(m.day);
    Context {
        constant: k,
        position: m.position,
        zone: m.zone,
        weekday: weekday_of(m.day),
        month_day: date_place(date.month, date.date),
        holiday: is_among(checked.holidays(), date),
        minute: m.minute,
        pulses: m.pulses,
        ticks: m.ticks,
    }
}

/// Whether a date is one of some holidays.
fn is_among(holidays: &[DateNumbers], day: CalendarDate) -> bool
    ensures { result ≡ list_any (λ (d : DateNumbers).
        (d.year == day.year) && ((d.month == day.month) && (d.date == day.date))) holidays.now }
{
    for holiday in holidays {
        if holiday.year == day.year && holiday.month == day.month && holiday.date == day.date {
            return true;
        }
    }
    false
}
