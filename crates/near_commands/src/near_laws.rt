//! What a near tariff charges.
ghost use Rattle.std.specs.Prelude.{ℕ, ◌*◌, ◌+◌, ◌<◌, ◌^◌, ◌≡◌, ◌≤◌, All, List, Ok, map, sum};
ghost use Rattle.drive_modes.specs.{Charge.{charge_of}, declared.charges.Mode.{Mode}};
ghost use Rattle.drive_modes.specs.{Fare.{Opening, shown_fare, steps_above}, declared.meterage.Rounding.{Rounding}};
ghost use Rattle.tariff_tree.specs.{Meaning.{initial_place, minimum_place}, declared.context.Context.{Context}};
ghost use Rattle.tariff_check.specs.{Faults.{IsSound}, Kinds.{initials_of, minimums_of}};
ghost use Rattle.{tariff_compile.specs.Tables.{weights_of}, near_commands.specs.Nearest.{apart, near_rate, nearest}};
ghost use Rattle.near_commands.specs.Common.{Measures, RateNumbers, Tree, measure_of, rate_place, rates_of, step_of};
ghost use Rattle.near_commands.specs.NearLaws.{AreWithin, IsMultipleOf, IsRateWithin, IsWithin};
ghost use Rattle.near_commands.specs.NearTariff.{greatest_share, near_measures, near_tariff};

/// A law: the near amount is the nearest whole one, and the greater one of two that are as near.
pub fn amounts_are_nearest()
    ensures { (amount measure other : ℕ) → 0 < measure
        → (2 * nearest amount measure other * measure ≤ 2 * amount * other + measure)
        × (2 * amount * other + measure < 2 * nearest amount measure other * measure + 2 * measure) }
{}

/// A law: a near tariff is sound, and its common measure is at most 90,000,000.
pub fn near_tariffs_are_sound()
    ensures sound { (t : Tree) (m : Measures) → near_measures t ≡ Ok m → IsSound (near_tariff m t) }
    ensures measure { (t : Tree) (m : Measures) → near_measures t ≡ Ok m
        → measure_of (near_tariff m t).lines ≤ 90000000 }
{}

/// A law: a near tariff has the near rates of the given one, in the same order, and in each context the rate, the
/// initial hire fee and the minimum fare at the same places among those of their kind. What fees and minimum fares say
/// is the same.
pub fn near_tariffs_choose_alike()
    ensures rates { (t : Tree) (m : Measures)
        → rates_of (near_tariff m t).lines ≡ map (near_rate m) (rates_of t.lines) }
    ensures places { (t : Tree) (m : Measures) (x : Context) → rate_place (near_tariff m t) x ≡ rate_place t x }
    ensures initial_places { (t : Tree) (m : Measures) (x : Context)
        → initial_place (near_tariff m t) x ≡ initial_place t x }
    ensures minimum_places { (t : Tree) (m : Measures) (x : Context)
        → minimum_place (near_tariff m t) x ≡ minimum_place t x }
    ensures fees { (t : Tree) (m : Measures)
        → (initials_of (near_tariff m t).lines ≡ initials_of t.lines)
        × (minimums_of (near_tariff m t).lines ≡ minimums_of t.lines) }
    ensures step { (t : Tree) (m : Measures) → step_of (near_tariff m t).lines ≡ step_of t.lines }
{}

/// A law: of each tariff for which a near one is printed, each rate's price of a decimetre and of a tenth of a second
/// is within the told share of the given one's. So, whatever number all measures of both rates divide, each charge under
/// the near rate is within that share of the charge under the given one, in both modes.
pub fn near_charges_are_within_the_share()
    ensures rates { (t : Tree) (m : Measures) → near_measures t ≡ Ok m
        → All (λ (r : RateNumbers). IsRateWithin (greatest_share m (rates_of t.lines)) (near_rate m r) r)
        (rates_of t.lines) }
    ensures charges { (share k common p : ℕ) (mode : Mode) (near given : RateNumbers)
        → 0 < near.b → 0 < near.e → 0 < given.b → 0 < given.e → IsRateWithin share near given
        → IsMultipleOf common near → IsMultipleOf common given
        → IsWithin share (charge_of mode (weights_of k common near) p) (charge_of mode (weights_of k common given) p) }
{}

/// A law: take charges that are within a share of others, place by place, over the same cover, in one unit. If that
/// share of the sum of the others is at most a display step, the fare that is shown of them differs by at most one
/// step, with initial hire fees, minimum fares and the limit of the display.
pub fn near_fares_are_within_a_step()
    ensures { (share initial minimum step : ℕ) (rounding : Rounding) (o : Opening) (near given : List ℕ)
        → 0 < o.modulus → AreWithin share near given → share * sum given ≤ 10 ^ 9 * o.modulus
        → apart (shown_fare initial minimum step (steps_above rounding o (sum near)))
        (shown_fare initial minimum step (steps_above rounding o (sum given))) ≤ step }
{}
