//! The least common multiple of two measures.
ghost use Rattle.std.specs.{Int.{IsGcd}, Prelude.{◌<◌, ◌≡◌}};
ghost use Rattle.tariff_check.specs.Measure.{lcm_of};

/// The greatest number that divides both.
fn greatest_divisor(a: u64, b: u64) -> u64
    ensures { IsGcd a b result }
{
    let mut x = a;
    let mut y = b;
    while y != 0 {
        let rest = x % y;
        x = y;
        y = rest;
    }
    x
}

/// The least number above 0 that is a whole multiple of both measures, which are above 0.
pub(crate) fn common_measure(a: u64, b: u64) -> u128
    requires first { 0 < a }
    requires second { 0 < b }
    ensures value { result ≡ lcm_of a b }
    ensures positive { 0 < result }
{
    (a / greatest_divisor(a, b)) as u128 * b as u128
}
