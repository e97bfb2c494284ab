//! The charge of a measuring interval.
ghost use Rattle.std.specs.Prelude.{ℕ, ◌*◌, ◌+◌, ◌<◌, ◌^◌, ◌↔◌, ◌≡◌, ◌≤◌, max};
ghost use Rattle.drive_modes.specs.{Charge.{charge_of}, Speed.{AreWeightsOf, IsBelowCrossOver, Rate}};

/// How time and distance share in the fare: the two modes of the measuring instruments directive.
#[derive(Clone, Copy)]
pub enum Mode {
    /// Mode S: the time tariff applies below the cross-over speed, the distance tariff above it.
    Single,
    /// Mode D: both tariffs apply over the whole trip.
    Double,
}

/// What a pulse of the distance signal generator costs, and what a measuring interval of 0.1 s costs, in units of
/// charge: at most 10^28 and 2 * 10^29. These limits are this project's own.
#[derive(Clone, Copy)]
pub struct Weights {
    pub per_pulse: u128,
    pub per_tick: u128,
}

impl Weights {
    /// Takes weights apart. It compiles only while weights are two numbers and nothing else.
    fn take_apart(self) -> (u128, u128) {
        let Weights {
            per_pulse,
            per_tick,
        } = self;
        (per_pulse, per_tick)
    }
}

/// The charge of a measuring interval that counted `pulses` pulses, at most 2,000, in units of charge. This project's
/// own rule: each interval is charged by its own speed, and at the cross-over speed itself by its distance.
pub fn charge(mode: Mode, weights: Weights, pulses: u32) -> u128
    requires pulses { pulses ≤ 2000 }
    requires per_pulse { weights.per_pulse ≤ 10 ^ 28 }
    requires per_tick { weights.per_tick ≤ 2 * 10 ^ 29 }
    ensures charge { result ≡ charge_of mode weights pulses }
    ensures bound { result ≤ 202 * 10 ^ 29 }
{
    let distance = pulses as u128 * weights.per_pulse;
    match mode {
        Mode::Single => {
            if distance < weights.per_tick {
                weights.per_tick
            } else {
                distance
            }
        }
        Mode::Double => distance + weights.per_tick,
    }
}

/// A law: p pulses an interval are below the cross-over speed if they cost less than the interval. There mode S charges
/// the time, and from that speed on the distance, so it charges the greater of the two. Mode D charges both, whatever
/// the speed.
pub fn charge_by_crossover()
    ensures below { (w : Weights) (p : ℕ) → p * w.per_pulse < w.per_tick → charge_of Mode.Single w p ≡ w.per_tick }
    ensures above { (w : Weights) (p : ℕ) → w.per_tick ≤ p * w.per_pulse → charge_of Mode.Single w p ≡ p * w.per_pulse }
    ensures greater { (w : Weights) (p : ℕ) → charge_of Mode.Single w p ≡ max (p * w.per_pulse) w.per_tick }
    ensures both { (w : Weights) (p : ℕ) → charge_of Mode.Double w p ≡ p * w.per_pulse + w.per_tick }
{}

/// A law: mode S changes over at the cross-over speed. Under the weights of a rate, p pulses an interval are below that
/// speed exactly if they cost less than the interval. Below it the time is charged, and from it on the distance.
pub fn mode_s_changes_over_at_the_cross_over()
    ensures exactly { (rate : Rate) (k measure p : ℕ) (w : Weights) → AreWeightsOf rate k measure w → 0 < measure
        → 0 < rate.b * k * rate.e
        → IsBelowCrossOver rate k p ↔ (p * w.per_pulse < w.per_tick) }
    ensures time { (rate : Rate) (k measure p : ℕ) (w : Weights) → AreWeightsOf rate k measure w → 0 < measure
        → 0 < rate.b * k * rate.e
        → IsBelowCrossOver rate k p → charge_of Mode.Single w p ≡ w.per_tick }
    ensures distance { (rate : Rate) (k measure p : ℕ) (w : Weights) → AreWeightsOf rate k measure w → 0 < measure
        → 0 < rate.b * k * rate.e
        → ¬ (IsBelowCrossOver rate k p) → charge_of Mode.Single w p ≡ p * w.per_pulse }
{}
