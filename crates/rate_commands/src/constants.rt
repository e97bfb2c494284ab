//! The constants that are fine for all rates of a tariff.
ghost use Rattle.std.specs.Prelude.{◌≡◌, ◌≤◌, All};
ghost use Rattle.rate_commands.specs.Common.{IsSoundRate, greatest_constant, least_constant, own_values};
ghost use Rattle.rate_commands.specs.Fineness.{fine_above, fine_below, is_fine};

use crate::fineness::{is_within, weights_under};
use drive_modes::{GREATEST_CONSTANT, LEAST_CONSTANT};
use tariff_check::{Choice, RateNumbers};

/// The greatest excess of a rate under a fine constant, in tenths of a percent.
const FINE: u32 = 100;

/// Whether a constant is fine for some rates.
fn is_fine(rates: &[Choice<RateNumbers>], k: u32) -> bool
    requires sound { All IsSoundRate (own_values rates.now) }
    requires constant { k ≤ greatest_constant }
    ensures { result ≡ is_fine (own_values rates.now) k }
{
    for rate in rates {
        if !is_within(FINE, weights_under(rate.value, k)) {
            return false;
        }
    }
    true
}

/// The greatest constant up to one that is fine for some rates. `None` exactly if none is.
pub(crate) fn fine_below(rates: &[Choice<RateNumbers>], k: u32) -> Option<u32>
    requires sound { All IsSoundRate (own_values rates.now) }
    requires least { least_constant ≤ k }
    requires most { k ≤ greatest_constant }
    ensures { result ≡ fine_below (own_values rates.now) k }
{
    for less in 0..k - LEAST_CONSTANT + 1 {
        if is_fine(rates, k - less) {
            return Some(k - less);
        }
    }
    None
}

/// The least constant from one on that is fine for some rates. `None` exactly if none is.
pub(crate) fn fine_above(rates: &[Choice<RateNumbers>], k: u32) -> Option<u32>
    requires sound { All IsSoundRate (own_values rates.now) }
    requires most { k ≤ greatest_constant }
    ensures { result ≡ fine_above (own_values rates.now) k }
{
    for more in 0..GREATEST_CONSTANT - k + 1 {
        if is_fine(rates, k + more) {
            return Some(k + more);
        }
    }
    None
}
