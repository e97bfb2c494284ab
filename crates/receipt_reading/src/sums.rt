//! The last lines of a receipt, read back.
ghost use Rattle.std.specs.Prelude.{◌+◌, ◌<◌, ◌^◌, ◌↔◌, ◌≡◌, ◌≤◌, IsTrue};
ghost use Rattle.taxi_units.specs.{Limits.{largest_supplements}, Money.{largest_amount, largest_display_step}};
ghost use Rattle.{taxi_units.specs.Shown.{fare_of_receipt}, receipt_reading.specs.Common.{Gives}};
ghost use Rattle.receipt_text.specs.Lines as spec;

use crate::amounts::{amount_behind, amount_below};
use crate::figures::READ_BELOW;
use receipt_text::{OptionalAmounts, Sums};
use taxi_units::{LARGEST_AMOUNT, LARGEST_DISPLAY_STEP, LARGEST_SUPPLEMENTS, Receipt, word};

/// Whether the amounts are in their ranges, and the fare is the one that they give.
pub fn has_amounts(receipt: &Receipt) -> bool
    ensures { IsTrue result ↔ ((receipt.now.initial ≤ largest_amount) × (receipt.now.minimum ≤ largest_amount)
        × (receipt.now.steps < 10 ^ 18) × (1 ≤ receipt.now.step) × (receipt.now.step ≤ largest_display_step)
        × (receipt.now.supplements ≤ largest_supplements) × (receipt.now.fare ≡ fare_of_receipt receipt.now)) }
{
    receipt.initial <= LARGEST_AMOUNT
        && receipt.minimum <= LARGEST_AMOUNT
        && receipt.steps < 1_000_000_000_000_000_000
        && 1 <= receipt.step
        && receipt.step <= LARGEST_DISPLAY_STEP
        && receipt.supplements <= LARGEST_SUPPLEMENTS
        && receipt.fare as u128 == fare_of_receipt(receipt)
}

/// The fare that a receipt calculates.
fn fare_of_receipt(receipt: &Receipt) -> u128
    ensures { result ≡ fare_of_receipt receipt.now }
{
    let calculated = receipt.initial as u128 + receipt.steps as u128 * receipt.step as u128;
    calculated
        .max(receipt.minimum as u128)
        .min(LARGEST_AMOUNT as u128)
}

/// The amounts of the optional lines at the front of a text, and the text behind them.
#[tactic(auto, unfolding(receipt_text::specs::Lines::optional_lines_at))]
pub fn optional_lines_at(text: &[u8]) -> Option<(OptionalAmounts, &[u8])>
    ensures { Gives (λ x. (x.0, x.1.now)) result (spec.optional_lines_at text.now) }
{
    let (minimum, rest) = optional_at(text, b"MINIMUM ")?;
    Some((OptionalAmounts { minimum }, rest))
}

/// The amount of the optional line of a word at the front of a text, or 0 if the text doesn't begin with such a line,
/// and the text behind it.
#[tactic(auto, unfolding(receipt_text::specs::Lines::optional_at))]
fn optional_at<'a>(text: &'a [u8], before: &[u8]) -> Option<(u64, &'a [u8])>
    ensures { Gives (λ x. (x.0, x.1.now)) result (spec.optional_at before.now text.now) }
{
    match word(text, before) {
        None => Some((0, text)),
        Some(text) => {
            let (amount, text) = amount_below(text, READ_BELOW)?;
            let rest = word(text, b"\n")?;
            Some((amount.units as u64, rest))
        }
    }
}

/// The lines of the fare and the supplements at the front of a text, and the text behind them.
#[tactic(auto, unfolding(receipt_text::specs::Lines::sums_at))]
pub fn sums_at(text: &[u8]) -> Option<(Sums, &[u8])>
    ensures { Gives (λ x. (x.0, x.1.now)) result (spec.sums_at text.now) }
{
    let (fare, text) = amount_behind(text, b"FARE ", READ_BELOW)?;
    let (supplements, text) = amount_behind(text, b"\nSUPPLEMENTS ", READ_BELOW)?;
    let rest = word(text, b"\n")?;
    let sums = Sums {
        fare: fare.units as u64,
        supplements: supplements.units as u64,
    };
    Some((sums, rest))
}
