//! Digits at the front of a text.
ghost use Rattle.std.specs.Prelude.{◌≡◌, length};
ghost use Rattle.shift_book.specs.Common.{Gives, GivesSame, digits_at_front};
ghost use Rattle.shift_book.specs.Reading as spec;

use taxi_units::count_digits;

/// The number below 2^128 that the digits at the front make, and what is behind them. No digits make 0: a reader
/// compares with the number's own text.
#[tactic(auto, unfolding(crate::specs::Reading::digits_at), using(taxi_units::proofs::Laws::digits_in_front))]
pub(crate) fn digits_at(text: &[u8]) -> Option<(u128, &[u8])>
    ensures { Gives (λ x. (x.0, x.1.now)) result (spec.digits_at text.now) }
{
    let (digits, rest) = text.split_at(count_digits(text));
    let value = value_of(digits)?;
    Some((value, rest))
}

/// The number that digits make, if it is below 2^128.
fn value_of(digits: &[u8]) -> Option<u128>
    requires { digits_at_front digits.now ≡ length digits.now }
    ensures { GivesSame result (spec.value_below digits.now) }
{
    let mut value = 0u128;
    for byte in digits {
        let digit = (*byte - b'0') as u128;
        if value > (u128::MAX - digit) / 10 {
            return None;
        }
        value = value * 10 + digit;
    }
    Some(value)
}
