//! A question, answered in one context by the tables of both sides.
ghost use Rattle.std.specs.Prelude.{◌≡◌};
ghost use Rattle.tariff_compare.specs.{Common.{IsInRangeFor}, CountedLine.{is_at}, Grids.{CanBeAsked, HasDate, day_in}};
ghost use Rattle.tariff_compare.specs.Sides.{context_by, counts_by, difference_by, is_holiday_among, is_met_by};

use crate::day::{Day, day_in};
use crate::kinds::{differing_kind, is_asked, place_in};
use crate::meter_context::MeterContext;
use crate::question::Question;
use crate::side::Side;
use tariff_check::ChoiceKind;
use tariff_compile::Tables;
use tariff_tree::Context;

/// Whether the answer to a question is yes in a context.
pub(crate) fn is_met(
    one: &Side,
    other: &Side,
    question: Question,
    day: &Day,
    m: &MeterContext,
) -> bool
    requires day { day.now ≡ day_in one.now.tables other.now.tables m.now.day }
    requires one { CanBeAsked one.now.tables m.now }
    requires other { CanBeAsked other.now.tables m.now }
    ensures { result ≡ is_met_by one.now other.now question m.now }
{
    let x = context_on(one.tables(), day, day.holiday, m);
    match question {
        Question::Counts(kind, place) => counts(one.tables(), kind, place, m, &x),
        Question::Differs => {
            let y = context_on(other.tables(), day, day.other_holiday, m);
            differing_kind(one, other, m, &x, &y).is_some()
        }
    }
}

/// What differs in a context.
pub(crate) fn part_at(one: &Side, other: &Side, m: &MeterContext) -> Option<ChoiceKind>
    requires one { CanBeAsked one.now.tables m.now }
    requires other { CanBeAsked other.now.tables m.now }
    ensures { result ≡ difference_by one.now other.now m.now }
{
    let day = day_in(one.tables(), other.tables(), m.day);
    let x = context_on(one.tables(), &day, day.holiday, m);
    let y = context_on(other.tables(), &day, day.other_holiday, m);
    differing_kind(one, other, m, &x, &y)
}

/// The context in which conditions are asked, on a day that is a holiday or isn't.
fn context_on(tables: &Tables, day: &Day, holiday: bool, m: &MeterContext) -> Context
    requires date { HasDate day.now m.now.day }
    requires asked { CanBeAsked tables.now m.now }
    requires holiday { holiday ≡ is_holiday_among tables.now.cuts.holidays m.now.day }
    ensures value { result ≡ context_by tables.now m.now }
    ensures range { IsInRangeFor tables.now result }
{
    Context {
        constant: tables.constant(),
        position: m.position,
        zone: m.zone,
        weekday: day.weekday,
        month_day: day.month_day,
        holiday,
        minute: m.minute,
        pulses: m.pulses,
        ticks: m.ticks,
    }
}

/// Whether a line counts in a context.
fn counts(tables: &Tables, kind: ChoiceKind, place: usize, m: &MeterContext, x: &Context) -> bool
    requires range { IsInRangeFor tables.now x.now }
    requires context { x.now ≡ context_by tables.now m.now }
    ensures { result ≡ counts_by tables.now kind place m.now }
{
    is_asked(kind, m) && is_at(place, place_in(kind, tables.lines_at(x)))
}

/// Whether there is a place, and it is the wanted one.
fn is_at(wanted: usize, place: Option<usize>) -> bool
    ensures { result ≡ is_at wanted place }
{
    match place {
        Some(place) => place == wanted,
        None => false,
    }
}
