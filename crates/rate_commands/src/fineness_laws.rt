//! What the excess of a rate and fine constants mean.
ghost use Rattle.std.specs.{List.{All, slice_get}, Prelude.{ℕ, ◌↔◌, ◌≡◌, ◌≤◌, List, None, Some, true}};
ghost use Rattle.{tariff_check.specs.{Faults.{IsSound}, Kinds.{rates_of}}, tariff_compile.specs.Tables.{tables_of}};
ghost use Rattle.rate_commands.specs.Common.{RateNumbers, Tree, Weights, greatest_constant, least_constant};
ghost use Rattle.rate_commands.specs.Fineness.{IsNearestAbove, IsNearestBelow, StaysWithin, excess_of, fine_above};
ghost use Rattle.rate_commands.specs.Fineness.{fine_below, is_fine, weights_under};

use drive_modes::{even_speeds_are_charged_nearly, the_cross_over_speed_reaches_the_bound};

/// A law: under the weights that the tables of a sound tariff have of a rate, mode S charges even speeds at most the
/// rate's excess too much, in tenths of a percent of the greater of their distance and their time, and an even speed is
/// charged more than any smaller number of tenths. So the excess is the share of `even_speeds_are_charged_nearly`,
/// rounded up.
pub fn excess_is_the_most_of_even_speeds()
    ensures { (t : Tree) (k place excess : ℕ) (r : RateNumbers) (w : Weights) → IsSound t
        → slice_get (rates_of t.lines) place ≡ Some r → slice_get (tables_of t k).weights place ≡ Some w
        → (excess_of (weights_under k r) ≤ excess) ↔ StaysWithin excess w }
{
    even_speeds_are_charged_nearly();
    the_cross_over_speed_reaches_the_bound();
}

/// A law: a constant is fine for rates exactly if the excess of each is at most 10 percent. The fine constants that are
/// told are the nearest ones: no constant between them and the given one is fine. None is told exactly if none is fine
/// as far as constants go.
pub fn fine_constants_are_nearest()
    ensures fine { (rates : List RateNumbers) (k : ℕ)
        → (is_fine rates k ≡ true) ↔ All (λ r. excess_of (weights_under k r) ≤ 100) rates }
    ensures below { (rates : List RateNumbers) (k d : ℕ) → (fine_below rates k ≡ Some d) ↔ IsNearestBelow rates k d }
    ensures above { (rates : List RateNumbers) (k e : ℕ) → (fine_above rates k ≡ Some e) ↔ IsNearestAbove rates k e }
    ensures none_below { (rates : List RateNumbers) (k other : ℕ) → fine_below rates k ≡ None
        → least_constant ≤ other → other ≤ k → ¬ (is_fine rates other ≡ true) }
    ensures none_above { (rates : List RateNumbers) (k other : ℕ) → fine_above rates k ≡ None
        → k ≤ other → other ≤ greatest_constant → ¬ (is_fine rates other ≡ true) }
{}
