//! Runs under tariffs that are the same.
ghost use Rattle.std.specs.Prelude.{ℕ, ◌<◌, ◌≡◌, All, List};
ghost use Rattle.{drive_modes.specs.Fare.{saved}, same_tariffs.specs.{Alike.{IsSameMoney}, Common.{whole_run}}};
ghost use Rattle.same_tariffs.specs.Alike.{AreMeteragesAlike, AreOpeningsAlike, AreOutcomesAlike, AreStoresAlike};
ghost use Rattle.same_tariffs.specs.Common.{Durable, Event, IsTimely, Opening, Rounding, Setting, Tree, steps_above};
ghost use Rattle.same_tariffs.specs.{Reached.{HoldGoesOn}, Same.{AreSameSettings}};

/// Charges that are the same money in two units, above covers that are the same money, leave meterages that are alike
/// and show the same display steps.
pub fn same_charges_show_the_same_steps()
    ensures saved { (u v : ℕ) (o p : Opening) (a b : ℕ) → 0 < u → 0 < v → AreOpeningsAlike u v o p
        → IsSameMoney u v a b → AreMeteragesAlike u v (saved o a) (saved p b) }
    ensures steps { (u v : ℕ) (rounding : Rounding) (o p : Opening) (a b : ℕ) → 0 < u → 0 < v → AreOpeningsAlike u v o p
        → IsSameMoney u v a b → steps_above rounding o a ≡ steps_above rounding p b }
{}

/// A law: take two settings that are equal but for tariffs that are the same, and stores that are alike, as a store
/// that holds no trip is to itself. Then each whole run comes to outcomes that are alike: the same displays, refusals,
/// entries and receipts in the same order, and held trips that are alike. In the end the stores are alike again and
/// their trips go on, so further runs are alike too.
pub fn same_tariffs_run_alike()
    ensures outcomes { (a b : Tree) (s t : Setting) (d e : Durable) (events : List Event) → AreSameSettings a b s t
        → All IsTimely events → HoldGoesOn s.tariff d.hold → AreStoresAlike s t d e
        → AreOutcomesAlike s t (whole_run s d events) (whole_run t e events) }
    ensures stores { (a b : Tree) (s t : Setting) (d e : Durable) (events : List Event) → AreSameSettings a b s t
        → All IsTimely events → HoldGoesOn s.tariff d.hold → AreStoresAlike s t d e
        → AreStoresAlike s t (whole_run s d events).next.durable (whole_run t e events).next.durable }
    ensures goes_on { (a b : Tree) (s t : Setting) (d : Durable) (events : List Event) → AreSameSettings a b s t
        → All IsTimely events → HoldGoesOn s.tariff d.hold
        → HoldGoesOn s.tariff (whole_run s d events).next.durable.hold }
{}
