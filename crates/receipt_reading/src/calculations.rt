//! The line of a calculation, read back.
ghost use Rattle.std.specs.Prelude.{◌+◌};
ghost use Rattle.receipt_reading.specs.Common.{Gives};
ghost use Rattle.receipt_text.specs.Lines as spec;

use crate::amounts::amount_behind;
use crate::figures::{READ_BELOW, number_behind};
use receipt_text::Calculation;
use taxi_units::word;

/// The line of the calculation at the front of a text, and the text behind it.
#[tactic(auto, unfolding(receipt_text::specs::Lines::calculation_at))]
pub fn calculation_at(text: &[u8]) -> Option<(Calculation, &[u8])>
    ensures { Gives (λ x. (x.0, x.1.now)) result (spec.calculation_at text.now) }
{
    let (initial, text) = amount_behind(text, b"CALC ", READ_BELOW)?;
    let (steps, text) = number_behind(text, b" + ", READ_BELOW)?;
    let (step, text) = amount_behind(text, b" x ", READ_BELOW)?;
    let rest = word(text, b"\n")?;
    let calculation = Calculation {
        decimals: initial.decimals,
        initial: initial.units as u64,
        steps: steps as u64,
        step: step.units as u64,
    };
    Some((calculation, rest))
}
