//! The cross-over speed.
ghost use Rattle.std.specs.Prelude.{ℕ, ◌*◌, ◌/◌, ◌^◌, ◌↔◌, ◌≡◌, ◌≢◌, ◌≤◌, IfSome, IsNone};

/// The cross-over speed of a rate, in whole metres an hour, rounded down. The measuring instruments directive defines
/// it as the time tariff value divided by the distance tariff value: here `c` for `e` tenths of a second, divided by
/// `a` for `b` decimetres. `a` and `c` are in the smallest units of money, at most 1,000,000; `b` and `e` are at most
/// 10^12, and `e` isn't 0. `None` exactly if `a` is 0, so that distance costs nothing.
pub fn cross_over(a: u64, b: u64, c: u64, e: u64) -> Option<u128>
    requires a { a ≤ 10 ^ 6 }
    requires b { b ≤ 10 ^ 12 }
    requires c { c ≤ 10 ^ 6 }
    requires e { e ≤ 10 ^ 12 }
    requires some { e ≢ 0 }
    ensures none { IsNone result ↔ (a ≡ 0) }
    ensures speed { IfSome result (λ v. v ≡ 3600 * c * b / (a * e)) }
    ensures whole { IfSome result (λ v. (n : ℕ) → (n ≤ v) ↔ (n * (a * e) ≤ 3600 * c * b)) }
{
    if a == 0 {
        return None;
    }
    Some(3600 * c as u128 * b as u128 / (a as u128 * e as u128))
}
