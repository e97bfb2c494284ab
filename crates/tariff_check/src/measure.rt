//! The common measure of a tariff.
ghost use Rattle.std.specs.{List.{list_any}, Prelude.{◌<◌, ◌^◌, ◌≡◌, ◌≤◌, All, MatchOption, false, map, nat_lt}};
ghost use Rattle.tariff_check.specs.{Common.{Line, line_of}, Lines.{is_for_nothing}, Measure.{lcm_of, measure_of}};

use crate::multiples::common_measure;
use crate::rules::is_for_nothing;
use tariff_tree::{Item, RateLine, TariffLine};

/// The greatest common measure that a tariff may have.
const MOST: u128 = 1_000_000_000_000_000_000;

/// The least common multiple of the measures of all rates, which are above 0, if it is at most 10^18.
pub(crate) fn measure(lines: &[TariffLine]) -> Option<u64>
    requires { All (λ (l : Line). is_for_nothing l.entry ≡ false) (map line_of lines.now) }
    ensures { MatchOption result (10 ^ 18 < measure_of (map line_of lines.now))
        (λ m. (m ≡ measure_of (map line_of lines.now)) × (m ≤ 10 ^ 18)) }
{
    let mut common = 1;
    for line in lines {
        if let Item::Rate(rate) = &line.item {
            common = with_both(common, rate)?;
        }
    }
    Some(common)
}

/// Whether the common measure of all rates is above 10^18. It is 0 if one of their measures is.
pub(crate) fn has_great_measure(lines: &[TariffLine]) -> bool
    ensures { result ≡ nat_lt (10 ^ 18) (measure_of (map line_of lines.now)) }
{
    !some_is_for_nothing(lines) && measure(lines).is_none()
}

/// Whether one of some lines is a rate with a measure of 0.
fn some_is_for_nothing(lines: &[TariffLine]) -> bool
    ensures { result ≡ list_any (λ (l : Line). is_for_nothing l.entry) (map line_of lines.now) }
{
    for line in lines {
        if is_for_nothing(&line.item) {
            return true;
        }
    }
    false
}

/// The least common multiple of a measure and the two of a rate, if it is at most 10^18.
fn with_both(common: u64, rate: &RateLine) -> Option<u64>
    requires common { 0 < common }
    requires distance { 0 < rate.now.b }
    requires time { 0 < rate.now.e }
    ensures { MatchOption result (10 ^ 18 < lcm_of (lcm_of common rate.now.b) rate.now.e)
        (λ m. (m ≡ lcm_of (lcm_of common rate.now.b) rate.now.e) × (0 < m) × (m ≤ 10 ^ 18)) }
{
    with_one(with_one(common, rate.b)?, rate.e)
}

/// The least common multiple of two measures, if it is at most 10^18.
fn with_one(common: u64, measure: u64) -> Option<u64>
    requires common { 0 < common }
    requires measure { 0 < measure }
    ensures { MatchOption result (10 ^ 18 < lcm_of common measure) (λ m. (m ≡ lcm_of common measure) × (0 < m)
        × (m ≤ 10 ^ 18)) }
{
    let joined = common_measure(common, measure);
    if joined > MOST {
        return None;
    }
    Some(joined as u64)
}
