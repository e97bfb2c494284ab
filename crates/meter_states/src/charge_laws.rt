//! The charge of an interval, by weights and by the numbers of its rate.
ghost use Rattle.std.specs.Prelude.{[], ℕ, ◌<◌, ◌∷◌, ◌≡◌};
ghost use Rattle.tariff_check.specs.{Measure.{IsMultipleOfAll}, Parts.{RateNumbers}};
ghost use Rattle.{tariff_compile.specs.Tables.{weights_of}, meter_model.specs.Charge.{charge_by}};
ghost use Rattle.meter_states.specs.Common.{Context, Mode, Setting, TableParts, charge_at, charge_of, weights_in_force};
ghost use Rattle.meter_states.specs.Setting.{IsTariffOf};

/// A law: if the common measure is a multiple of both measures of a rate, an interval that is charged by the rate's
/// weights is charged what it costs by the rate's own numbers, in both modes.
pub fn charges_by_weights_are_by_the_rates()
    ensures { (mode : Mode) (k common p : ℕ) (r : RateNumbers) → 0 < common
        → IsMultipleOfAll (r.b ∷ r.e ∷ []) common
        → charge_of mode (weights_of k common r) p ≡ charge_by mode k common r p }
{}

/// A law: if tables are those of a setting, an interval that is charged by the weights that they have in a context is
/// charged what it costs by the own numbers of the rate in force there.
pub fn tables_charge_by_the_rate_in_force()
    ensures { (s : Setting) (tables : TableParts) (x : Context) (p : ℕ) → IsTariffOf s tables
        → charge_of s.mode (weights_in_force s.tariff s.constant x) p ≡ charge_at s x p }
{}
