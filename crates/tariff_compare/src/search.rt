//! The first context of a grid in which the answer to a question is yes, in the order of contexts.
ghost use Rattle.std.specs.Prelude.{◌≡◌, IfSome};
ghost use Rattle.tariff_compare.specs.{Grids.{CanAskBoth, IsGridOf, day_in, grid_of, is_meter_time}, Sides.{is_met_by}};
ghost use Rattle.tariff_compare.specs.Searches.{first_met_by, in_grid, is_found};

use crate::asking::is_met;
use crate::day::Day;
use crate::grid::Grid;
use crate::meter_context::MeterContext;
use crate::question::Question;
use crate::side::Side;

/// The first context of the grid of two sides that meets a question. `None` if none does.
pub(crate) fn first_met(
    one: &Side,
    other: &Side,
    grid: &Grid,
    question: Question,
) -> Option<MeterContext>
    requires grid { grid.now ≡ grid_of one.now.tables other.now.tables }
    requires both { IsGridOf one.now.tables other.now.tables grid.now }
    ensures value { result ≡ first_met_by one.now other.now question }
    ensures there { IfSome result (CanAskBoth one.now.tables other.now.tables) }
{
    in_grid(one, other, grid, question)
}

/// The first context of a grid that meets a question: its contexts are asked one after another.
fn in_grid(one: &Side, other: &Side, grid: &Grid, question: Question) -> Option<MeterContext>
    requires { IsGridOf one.now.tables other.now.tables grid.now }
    ensures value { result ≡ in_grid (is_met_by one.now other.now question) grid.now }
    ensures there { IfSome result (CanAskBoth one.now.tables other.now.tables) }
{
    for number in 0..grid.count() {
        let (day, m) = grid.context(number);
        if is_found(one, other, question, &day, &m) {
            return Some(m);
        }
    }
    None
}

/// Whether a context is a time of the meter, and the answer to a question is yes there.
fn is_found(one: &Side, other: &Side, question: Question, day: &Day, m: &MeterContext) -> bool
    requires day { day.now ≡ day_in one.now.tables other.now.tables m.now.day }
    requires asked { CanAskBoth one.now.tables other.now.tables m.now }
    ensures { result ≡ is_found (is_met_by one.now other.now question) m.now }
{
    is_meter_time(m.day, m.minute) && is_met(one, other, question, day, m)
}

/// Whether a minute is one of the meter's on a day: on 1999-12-31 from 10:00 on, on 2200-01-01 before 14:00.
fn is_meter_time(day: u32, minute: u16) -> bool
    ensures { result ≡ is_meter_time day minute }
{
    if day == 10_956 {
        minute >= 600
    } else if day == 84_006 {
        minute < 840
    } else {
        true
    }
}
