//! How fine the fare of mode S is at even speeds, over several rates.
ghost use Rattle.std.specs.{List.{fold, sum_by}, Prelude.{ℕ, ◌<◌, ◌≡◌, ◌≤◌, List, map, sum}};
ghost use Rattle.drive_modes.specs.Common.{Meterage, Mode, Rounding, Single};
ghost use Rattle.drive_modes.specs.Fare.{Opening, added, opening_of, shown_fare, steps_above, steps_of};
ghost use Rattle.drive_modes.specs.Stretches.{AreEvenSpeeds, AreOfStretches, Interval, Stretch, interval_charge};
ghost use Rattle.drive_modes.specs.Stretches.{least_charge, most_charge, stretch_charge};

/// A law: a greater charge shows no smaller fare.
pub fn fares_rise_with_their_charge()
    ensures { (initial minimum step : ℕ) (rounding : Rounding) (opening : Opening) (less more : ℕ)
        → 0 < opening.modulus → less ≤ more
        → shown_fare initial minimum step (steps_above rounding opening less)
        ≤ shown_fare initial minimum step (steps_above rounding opening more) }
{}

/// A law: the intervals of a trip, in whatever order its rates took turns, are charged the sum over their stretches,
/// each under one rate. In mode S that is at least what each stretch costs as one, and at even speeds at most that and
/// the bound of each stretch. So a meterage that is kept from charge to charge shows a fare between the fares of these
/// two sums, by the same display step and rounding. This holds from every state that was saved in the middle of a trip.
pub fn even_fares_are_shown_nearly()
    ensures sum { (mode : Mode) (stretches : List Stretch) (intervals : List Interval)
        → AreOfStretches stretches intervals
        → sum (map (interval_charge mode) intervals) ≡ sum_by (stretch_charge mode) stretches }
    ensures least { (stretches : List Stretch)
        → sum_by least_charge stretches ≤ sum_by (stretch_charge Single) stretches }
    ensures most { (stretches : List Stretch) → AreEvenSpeeds stretches
        → sum_by (stretch_charge Single) stretches ≤ sum_by most_charge stretches }
    ensures shown_least { (initial minimum step modulus : ℕ) (rounding : Rounding) (m : Meterage)
        (stretches : List Stretch) (intervals : List Interval)
        → m.rest < modulus → AreOfStretches stretches intervals
        → let later = fold (added modulus) m (map (interval_charge Single) intervals) in
        shown_fare initial minimum step (steps_above rounding (opening_of modulus m) (sum_by least_charge stretches))
        ≤ shown_fare initial minimum step (steps_of rounding later) }
    ensures shown_most { (initial minimum step modulus : ℕ) (rounding : Rounding) (m : Meterage)
        (stretches : List Stretch) (intervals : List Interval)
        → m.rest < modulus → AreOfStretches stretches intervals → AreEvenSpeeds stretches
        → let later = fold (added modulus) m (map (interval_charge Single) intervals) in
        shown_fare initial minimum step (steps_of rounding later)
        ≤ shown_fare initial minimum step (steps_above rounding (opening_of modulus m) (sum_by most_charge stretches)) }
{}
