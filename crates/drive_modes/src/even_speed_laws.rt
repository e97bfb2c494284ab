//! How fine mode S is at even speeds.
ghost use Rattle.std.specs.Prelude.{ℕ, ◌*◌, ◌+◌, ◌-◌, ◌/◌, ◌<◌, ◌≡◌, ◌≤◌, List, length};
ghost use Rattle.drive_modes.specs.{Common.{Double, Single, Weights}, Speeds.{distance_alone, own_weights, time_alone}};
ghost use Rattle.drive_modes.specs.Speed.{AreWeightsOf, Rate};
ghost use Rattle.drive_modes.specs.Speeds.{IsEvenSpeed, at_cross_over, charge_as_one, charged, coarseness};

/// A law: under the weights of one rate, whatever the pulses of each interval, mode S charges at least what their
/// distance alone costs, at least what their time alone costs, and at most both together. Mode D charges both together.
pub fn charges_in_mode_s_lie_between()
    ensures distance { (w : Weights) (pulses : List ℕ) → distance_alone w pulses ≤ charged Single w pulses }
    ensures time { (w : Weights) (pulses : List ℕ) → time_alone w pulses ≤ charged Single w pulses }
    ensures most { (w : Weights) (pulses : List ℕ)
        → charged Single w pulses ≤ distance_alone w pulses + time_alone w pulses }
    ensures both { (w : Weights) (pulses : List ℕ)
        → charged Double w pulses ≡ distance_alone w pulses + time_alone w pulses }
{}

/// A law: at an even speed, each interval with n pulses or n + 1, mode S charges nearly what the intervals cost as one:
/// the greater of their distance and their time. It never charges less. It charges more by at most the coarseness of
/// the weights over the weight of a pulse, for each interval. That is at most a quarter of a pulse's weight. As a share
/// of what they cost as one, it is at most the coarseness over the product of both weights; by the rate's own weights
/// that share is the same. The charge is just what they cost as one if n pulses cost as much as an interval or more, if
/// n + 1 cost as much or less, or if pulses cost nothing.
pub fn even_speeds_are_charged_nearly()
    ensures least { (w : Weights) (pulses : List ℕ) → charge_as_one w pulses ≤ charged Single w pulses }
    ensures nearly { (w : Weights) (n : ℕ) (pulses : List ℕ) → IsEvenSpeed n pulses
        → w.per_pulse * (charged Single w pulses - charge_as_one w pulses) ≤ length pulses * coarseness w }
    ensures most { (w : Weights) (n : ℕ) (pulses : List ℕ) → IsEvenSpeed n pulses
        → charged Single w pulses ≤ charge_as_one w pulses + length pulses * coarseness w / w.per_pulse }
    ensures quarter { (w : Weights) (n : ℕ) (pulses : List ℕ) → IsEvenSpeed n pulses
        → 4 * charged Single w pulses ≤ 4 * charge_as_one w pulses + length pulses * w.per_pulse }
    ensures share { (w : Weights) (n : ℕ) (pulses : List ℕ) → IsEvenSpeed n pulses
        → w.per_pulse * w.per_tick * (charged Single w pulses - charge_as_one w pulses)
        ≤ coarseness w * charge_as_one w pulses }
    ensures own_share { (rate : Rate) (k measure : ℕ) (w : Weights) (n : ℕ) (pulses : List ℕ)
        → AreWeightsOf rate k measure w → IsEvenSpeed n pulses
        → let own = own_weights rate k in
        own.per_pulse * own.per_tick * (charged Single w pulses - charge_as_one w pulses)
        ≤ coarseness own * charge_as_one w pulses }
    ensures above { (w : Weights) (n : ℕ) (pulses : List ℕ) → IsEvenSpeed n pulses → w.per_tick ≤ n * w.per_pulse
        → charged Single w pulses ≡ charge_as_one w pulses }
    ensures below { (w : Weights) (n : ℕ) (pulses : List ℕ) → IsEvenSpeed n pulses
        → (n + 1) * w.per_pulse ≤ w.per_tick → charged Single w pulses ≡ charge_as_one w pulses }
    ensures free { (w : Weights) (pulses : List ℕ) → w.per_pulse ≡ 0
        → charged Single w pulses ≡ charge_as_one w pulses }
{}

/// A law: under all weights by which pulses cost something, an even speed reaches that bound: the cross-over speed.
/// There as many intervals as a pulse weighs cost the product of both weights as one, and are charged the coarseness
/// more.
pub fn the_cross_over_speed_reaches_the_bound()
    ensures even { (w : Weights) → 0 < w.per_pulse → IsEvenSpeed (w.per_tick / w.per_pulse) (at_cross_over w) }
    ensures count { (w : Weights) → 0 < w.per_pulse → length (at_cross_over w) ≡ w.per_pulse }
    ensures as_one { (w : Weights) → 0 < w.per_pulse
        → charge_as_one w (at_cross_over w) ≡ w.per_pulse * w.per_tick }
    ensures reached { (w : Weights) → 0 < w.per_pulse
        → charged Single w (at_cross_over w) ≡ charge_as_one w (at_cross_over w) + coarseness w }
{}
