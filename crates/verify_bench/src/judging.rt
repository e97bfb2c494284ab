//! Judges readings. The permissible errors are this project's own.
ghost use Rattle.std.specs.Prelude.{ℕ, ◌<◌, ◌↔◌, ◌≡◌};
ghost use Rattle.verify_bench.specs.{Common.{Expected, Reading, Verdict}, Verdicts.{IsVerdict, verdict_of}};
ghost use Rattle.verify_bench.specs.VerdictStages.{within_test};

use crate::expected::Expected;
use crate::reading::Reading;

/// What a comparison finds.
#[derive(Clone, Copy)]
pub enum Verdict {
    /// All three readings are within their permissible errors.
    Pass,
    /// The fare isn't.
    Fare,
    /// The fare is, the distance isn't.
    Distance,
    /// Both are, the time isn't.
    Time,
}

/// The distance may be wrong by 4 m, in millimetres, whatever it is.
const LEAST_DISTANCE: u128 = 4000;

/// The time may be wrong by 0.2 s, in tenths of a second, whatever it is.
const LEAST_TIME: u128 = 2;

/// Judges a reading: names the first of fare, distance and time that is outside its permissible error.
/// A fare may be wrong by a thousandth of the expected one, or by a display step of `step` smallest
/// units; a distance by a five-hundredth, or by 4 m; a time by a thousandth, or by 0.2 s. No memory.
pub fn judge(expected: &Expected, reading: &Reading, step: u64) -> Verdict
    ensures { result ≡ verdict_of expected.now reading.now step }
{
    let fare = is_permitted(
        1000,
        step as u128,
        expected.fare as u128,
        reading.fare as u128,
    );
    let distance = is_permitted(
        500,
        LEAST_DISTANCE,
        expected.hired_mm,
        reading.distance_mm as u128,
    );
    let time = is_permitted(
        1000,
        LEAST_TIME,
        expected.ticks as u128,
        reading.tenths as u128,
    );
    if !fare {
        Verdict::Fare
    } else if !distance {
        Verdict::Distance
    } else if !time {
        Verdict::Time
    } else {
        Verdict::Pass
    }
}

/// Whether a reading is off by no more than one part in `parts` of what is expected, or by no more than
/// the least error.
#[tactic(auto, using(crate::proofs::Permitted::parts_are_divided))]
fn is_permitted(parts: u128, least: u128, expected: u128, read: u128) -> bool
    requires { 0 < parts }
    ensures { result ≡ (within_test parts least expected read).passes }
{
    let error = expected.abs_diff(read);
    error <= expected / parts || error <= least
}

/// A law: a verdict is the first of fare, distance and time that is outside its permissible error, and a pass if none
/// is.
pub fn verdicts_name_the_first_fault()
    ensures { (expected : Expected) (reading : Reading) (step : ℕ) (verdict : Verdict)
        → (verdict_of expected reading step ≡ verdict) ↔ IsVerdict expected reading step verdict }
{}
