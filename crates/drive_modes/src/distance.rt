//! The distance that pulses make.
ghost use Rattle.std.specs.Prelude.{ℕ, ◌*◌, ◌<◌, ◌↔◌, ◌≡◌, ◌≤◌, IsTrue};
ghost use Rattle.drive_modes.specs.Distance.{HasReached, millimetres_of};

use crate::constant::Constant;

/// The distance that `p` pulses make, in whole millimetres. It is rounded down, by this project's own rule.
pub fn millimetres(k: Constant, p: u64) -> u128
    ensures { result ≡ millimetres_of k p }
{
    1_000_000 * p as u128 / k.get() as u128
}

/// Whether `p` pulses make at least `dm` decimetres, with nothing rounded.
pub fn reached(k: Constant, p: u64, dm: u64) -> bool
    ensures { IsTrue result ↔ HasReached k p dm }
{
    k.get() as u128 * dm as u128 <= 10_000 * p as u128
}

/// A law: with k pulses to a kilometre, of 1,000,000 mm, the distance of p pulses is the most whole millimetres for
/// which they are enough. They have reached dm decimetres exactly if that distance has dm hundreds of millimetres.
pub fn distances_are_whole_millimetres()
    ensures most { (k p n : ℕ) → 0 < k → (n ≤ millimetres_of k p) ↔ (n * k ≤ 1000000 * p) }
    ensures reached { (k p dm : ℕ) → 0 < k → HasReached k p dm ↔ (100 * dm ≤ millimetres_of k p) }
{}
