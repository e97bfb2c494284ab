//! What explanations are of, and what they add up to.
ghost use Rattle.std.specs.Prelude.{ℕ, ◌≡◌, All, List, map};
ghost use Rattle.verify_bench.specs.Common.{Event, IsSound, Mode, RateNumbers, Setting, Tree, actions_of, charge_by};
ghost use Rattle.verify_bench.specs.{Common.{first_state, sound_of}, Receipts.{receipts_in}, Wholes.{charge_in_way}};
ghost use Rattle.verify_bench.specs.{Groups.{way_by}, TripExplanations.{Explanation, explanations_of}};
ghost use Rattle.verify_bench.specs.Wholes.{ArePartsTheWhole, HasFees, HasGroups, HasUncharged, IsOfTrip, MakesReceipt};

/// A law: the explanations of a drive have the receipts of the meter's actions on a new store, one for each, in order.
/// Each is of the trip that was closed with that receipt, by the context in which the meter hired it, and with each
/// interval in the context of its own beginning. Under a sound tariff its initial hire fee, its cover and its minimum
/// fare are those in force at the hiring, each with the number of its line.
pub fn explanations_have_the_receipts()
    ensures receipts { (s : Setting) (events : List Event)
        → map (λ (e : Explanation). e.receipt) (explanations_of s events)
        ≡ receipts_in (actions_of s first_state events) }
    ensures trips { (s : Setting) (events : List Event) → All (IsOfTrip s events) (explanations_of s events) }
    ensures fees { (t : Tree) (s : Setting) (events : List Event) → IsSound t → s.tariff ≡ sound_of t
        → All (HasFees s events) (explanations_of s events) }
{}

/// A law: under a sound tariff the parts of each explanation are the whole trip, and each group has the line and the
/// way that charged its intervals, and their sums. What is told of Stopped and of unfinished intervals is each of their
/// own parts. The whole trip makes the receipt, with the supplements that were taken. An interval is charged what its
/// way says.
pub fn explanations_add_up()
    ensures whole { (t : Tree) (s : Setting) (events : List Event) → IsSound t → s.tariff ≡ sound_of t
        → All ArePartsTheWhole (explanations_of s events) }
    ensures receipt { (s : Setting) (events : List Event) → All (MakesReceipt s) (explanations_of s events) }
    ensures ways { (mode : Mode) (k common : ℕ) (r : RateNumbers) (p : ℕ)
        → charge_by mode k common r p ≡ charge_in_way k common r p (way_by mode k r p) }
    ensures groups { (t : Tree) (s : Setting) (events : List Event) → IsSound t → s.tariff ≡ sound_of t
        → All (HasGroups s events) (explanations_of s events) }
    ensures uncharged { (s : Setting) (events : List Event) → All (HasUncharged s events) (explanations_of s events) }
{}
