//! What a trip costs so far: the cover that is left, and the display steps above it. This project's own rules say how
//! it is counted and rounded.
ghost use Rattle.std.specs.{List.{fold}, Prelude.{ℕ, ◌*◌, ◌+◌, ◌-◌, ◌/◌, ◌<◌, ◌^◌, ◌↔◌, ◌≡◌, ◌≤◌, List, sum}};
ghost use Rattle.{taxi_units.specs.Money.{largest_amount, largest_display_step}, drive_modes.specs.Fare.{steps_of}};
ghost use Rattle.drive_modes.specs.Fare.{Opening, added, opening_of, quotient, saved, shown_fare, steps_above};

use taxi_units::LARGEST_AMOUNT;

/// Whether the fare is shown behind the drive or ahead of it.
#[derive(Clone, Copy)]
pub enum Rounding {
    /// A display step is shown once it is used up.
    Behind,
    /// A display step is shown as soon as it is begun.
    Ahead,
}

impl Rounding {
    /// Takes a rounding apart. It compiles only while a rounding is one of two words and nothing else.
    fn take_apart(self) -> bool {
        match self {
            Rounding::Behind => false,
            Rounding::Ahead => true,
        }
    }
}

/// The sum of a trip's charges, without a list of them: what the initial hire fee still covers, the full display steps
/// above that, and the rest, which has begun the next step. `cover_left` and `rest` are in units of charge, and `rest`
/// is less than a display step.
#[derive(Clone, Copy)]
pub struct Meterage {
    pub cover_left: u128,
    pub steps_full: u64,
    pub rest: u128,
}

/// More display steps than these show no other fare: they are worth nothing, or the fare is the largest already. So a
/// fare is figured in 64 bits.
const MOST_STEPS: u64 = 100_000_000;

impl Meterage {
    /// The start of a trip. Its initial hire fee covers `covers` of the smallest units of money, at most 99,999,999;
    /// `measure` units of charge, at most 2 * 10^23, make one of them.
    pub fn start(covers: u64, measure: u128) -> Meterage
        requires covers { covers ≤ largest_amount }
        requires measure { measure ≤ 2 * 10 ^ 23 }
        ensures exact { result ≡ record { cover_left = covers * measure; steps_full = 0; rest = 0 } }
        ensures sum { (modulus : ℕ) → 0 < modulus
            → result ≡ saved (record { cover = covers * measure; above = 0; modulus = modulus }) 0 }
        ensures bound { result.cover_left ≤ 2 * 10 ^ 31 }
    {
        Meterage {
            cover_left: covers as u128 * measure,
            steps_full: 0,
            rest: 0,
        }
    }

    /// Adds the charge of an interval, at most 202 * 10^29. `modulus` units of charge, 1 to 2 * 10^29, make a display
    /// step. Nothing is rounded: what doesn't fill a display step is kept as the rest. The full display steps have to
    /// stay at most 4 * 10^17.
    #[inline(never)]
    pub fn add(&mut self, charge: u128, modulus: u128)
        requires rest { self.old.rest < modulus }
        requires some { 1 ≤ modulus }
        requires modulus { modulus ≤ 2 * 10 ^ 29 }
        requires charge { charge ≤ 202 * 10 ^ 29 }
        requires cover { self.old.cover_left ≤ 2 * 10 ^ 31 }
        requires steps { self.old.steps_full + (self.old.rest + (charge - self.old.cover_left)) / modulus
            ≤ 4 * 10 ^ 17 }
        ensures exact { self.new ≡ added modulus self.old charge }
        ensures sum { (cover above charged : ℕ)
            → let opening : Opening = record { cover = cover; above = above; modulus = modulus } in
            self.old ≡ saved opening charged → self.new ≡ saved opening (charged + charge) }
        ensures rest { self.new.rest < modulus }
        ensures cover { self.new.cover_left ≤ self.old.cover_left }
    {
        let above = self.rest + charge.saturating_sub(self.cover_left);
        self.cover_left = self.cover_left.saturating_sub(charge);
        self.steps_full += (above / modulus) as u64;
        self.rest = above % modulus;
    }

    /// The display steps that are shown: the full ones, at most 4 * 10^17, and one more if the fare is shown ahead and
    /// there is a rest. A cover that is just used up is no display step.
    pub fn steps(&self, rounding: Rounding) -> u64
        requires steps { self.now.steps_full ≤ 4 * 10 ^ 17 }
        ensures exact { result ≡ steps_of rounding self.now }
        ensures sum { (cover above modulus charged : ℕ)
            → let opening : Opening = record { cover = cover; above = above; modulus = modulus } in
            0 < modulus → self.now ≡ saved opening charged → result ≡ steps_above rounding opening charged }
    {
        match rounding {
            Rounding::Behind => self.steps_full,
            Rounding::Ahead => {
                if self.rest == 0 {
                    self.steps_full
                } else {
                    self.steps_full + 1
                }
            }
        }
    }

    /// The fare that is shown, in the smallest units of money: the initial hire fee `initial`, at most 99,999,999, and
    /// `step`, at most 1,000,000, for each display step shown; or `minimum`, at most 99,999,999, if that is more. A
    /// fare above 99,999,999 is shown as 99,999,999.
    #[tactic(auto, using(crate::proofs::Largest::most_steps, crate::proofs::Largest::steps_value))]
    pub fn shown(&self, initial: u64, minimum: u64, step: u64, rounding: Rounding) -> u64
        requires steps { self.now.steps_full ≤ 4 * 10 ^ 17 }
        requires initial { initial ≤ largest_amount }
        requires minimum { minimum ≤ largest_amount }
        requires step { step ≤ largest_display_step }
        ensures exact { result ≡ shown_fare initial minimum step (steps_of rounding self.now) }
        ensures sum { (cover above modulus charged : ℕ)
            → let opening : Opening = record { cover = cover; above = above; modulus = modulus } in
            0 < modulus → self.now ≡ saved opening charged
            → result ≡ shown_fare initial minimum step (steps_above rounding opening charged) }
        ensures least { minimum ≤ result }
        ensures most { result ≤ largest_amount }
    {
        let fare = initial + step * self.steps(rounding).min(MOST_STEPS);
        fare.max(minimum).min(LARGEST_AMOUNT)
    }
}

/// A law: a meterage that is kept from charge to charge is what the sum of the charges alone makes of it, from the
/// start of a trip and from every state that was saved in the middle of one.
pub fn fares_add_up()
    ensures sum { (opening : Opening) (charges : List ℕ) → 0 < opening.modulus
        → fold (added opening.modulus) (saved opening 0) charges ≡ saved opening (sum charges) }
    ensures any_state { (modulus : ℕ) (m : Meterage) → m.rest < modulus → m ≡ saved (opening_of modulus m) 0 }
    ensures shown { (initial minimum step modulus : ℕ) (rounding : Rounding) (m : Meterage) (charges : List ℕ)
        → m.rest < modulus
        → let n = steps_above rounding (opening_of modulus m) (sum charges) in
        let later = fold (added modulus) m charges in
        (steps_of rounding later ≡ n)
        × (shown_fare initial minimum step (steps_of rounding later) ≡ shown_fare initial minimum step n) }
{}

/// A law: behind, the display steps of an amount are the most that it fills; ahead, they are the fewest that hold it.
pub fn steps_are_whole_steps()
    ensures behind { (n x y : ℕ) → 0 < y → (n ≤ quotient Rounding.Behind x y) ↔ (n * y ≤ x) }
    ensures ahead { (n x y : ℕ) → 0 < y → (quotient Rounding.Ahead x y ≤ n) ↔ (x ≤ n * y) }
{}
