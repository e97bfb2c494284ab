//! Amounts at the front of a text.
ghost use Rattle.std.specs.Prelude.{◌<◌, ◌^◌, ◌≡◌, ◌≤◌, IfSome};
ghost use Rattle.receipt_reading.specs.Common.{Gives};
ghost use Rattle.receipt_text.specs.Figures as spec;

use crate::figures::{number_below, value_below};
use receipt_text::Amount;
use taxi_units::{count_digits, word};

/// An amount at the front of a text, and the text behind it: digits, and perhaps a point and one to three digits.
/// `None` if there is no such amount, or its units aren't below the limit.
#[tactic(auto, unfolding(receipt_text::specs::Figures::amount_below))]
pub fn amount_below(text: &[u8], limit: u128) -> Option<(Amount, &[u8])>
    requires some { 0 < limit }
    requires most { limit ≤ 10 ^ 24 }
    ensures value { Gives (λ x. (x.0, x.1.now)) result (spec.amount_below limit text.now) }
    ensures below { IfSome result (λ x. x.0.units < limit) }
    ensures decimals { IfSome result (λ x. x.0.decimals ≤ 3) }
{
    let (whole, rest) = number_below(text, limit)?;
    match rest.split_first() {
        Some((byte, parts)) => {
            if *byte == b'.' {
                return with_parts(whole, parts, limit);
            }
            Some((whole_amount(whole), rest))
        }
        None => Some((whole_amount(whole), rest)),
    }
}

/// The amount behind a word at the front of a text, and the text behind it.
pub fn amount_behind<'a>(text: &'a [u8], before: &[u8], limit: u128) -> Option<(Amount, &'a [u8])>
    requires some { 0 < limit }
    requires most { limit ≤ 10 ^ 24 }
    ensures value { Gives (λ x. (x.0, x.1.now)) result (spec.amount_behind before.now limit text.now) }
    ensures below { IfSome result (λ x. x.0.units < limit) }
    ensures decimals { IfSome result (λ x. x.0.decimals ≤ 3) }
{
    amount_below(word(text, before)?, limit)
}

/// An amount without decimals.
fn whole_amount(units: u128) -> Amount
    ensures { result ≡ record { units = units; decimals = 0 } }
{
    Amount { units, decimals: 0 }
}

/// The amount of the text before a point and the digits at the front of the text behind the point.
#[tactic(auto, using(taxi_units::proofs::Laws::digits_in_front))]
fn with_parts(whole: u128, text: &[u8], limit: u128) -> Option<(Amount, &[u8])>
    requires whole { whole < limit }
    requires most { limit ≤ 10 ^ 24 }
    ensures value { Gives (λ x. (x.0, x.1.now)) result (spec.amount_with_parts limit whole text.now) }
    ensures below { IfSome result (λ x. x.0.units < limit) }
    ensures decimals { IfSome result (λ x. x.0.decimals ≤ 3) }
{
    let (digits, rest) = text.split_at(count_digits(text));
    if digits.is_empty() || digits.len() > 3 {
        return None;
    }
    let units = value_below(whole, digits, limit)?;
    let decimals = digits.len() as u8;
    Some((Amount { units, decimals }, rest))
}
