//! Whether readings pass.
ghost use Rattle.std.specs.Prelude.{ℕ, ◌↔◌, ◌≡◌, List, true};
ghost use Rattle.verify_bench.specs.{Common.{Expected, Reading}, PassedReports.{EachRowPasses}};
ghost use Rattle.verify_bench.specs.PassingStages as stages;

use crate::expected::Expected;
use crate::judging::{Verdict, judge};
use crate::reading::Reading;
use crate::reporting::at;

/// Whether every row of the report of these lists passes: there are as many readings as receipts, and each
/// reading is within its permissible errors, with a display step of `step` smallest units. No memory.
pub fn do_all_pass(expected: &[Expected], readings: &[Reading], step: u64) -> bool
    ensures { result ≡ stages.do_all_pass step expected.now readings.now }
{
    let mut pass = true;
    for place in 0..expected.len().max(readings.len()) {
        let here = does_place_pass(at(expected, place), at(readings, place), step);
        pass = here && pass;
    }
    pass
}

/// Whether a place passes.
fn does_place_pass(expected: Option<Expected>, reading: Option<Reading>, step: u64) -> bool
    ensures { result ≡ stages.does_place_pass step expected reading }
{
    match (expected, reading) {
        (Some(expected), Some(reading)) => {
            matches!(judge(&expected, &reading, step), Verdict::Pass)
        }
        (Some(_), None) => false,
        (None, _) => false,
    }
}

/// A law: readings pass exactly if the report has the verdict `PASS` in each of its rows.
pub fn readings_pass_where_each_row_does()
    ensures { (step : ℕ) (expected : List Expected) (readings : List Reading)
        → (stages.do_all_pass step expected readings ≡ true) ↔ EachRowPasses step expected readings }
{}
