//! Charges that are added to a meterage.
ghost use Rattle.std.specs.Prelude.{ℕ, ◌*◌, ◌+◌, ◌-◌, ◌/◌, ◌<◌, ◌^◌, ◌≡◌, ◌≤◌};
ghost use Rattle.{drive_modes.specs.Fare.{Opening}, meter_states.specs.Common.{added, saved}};

use drive_modes::Meterage;

/// Adds a charge as `Meterage::add` does, and divides only if a display step is filled.
pub(crate) fn add_charge(meterage: &mut Meterage, charge: u128, modulus: u128)
    requires rest { meterage.old.rest < modulus }
    requires some { 1 ≤ modulus }
    requires modulus { modulus ≤ 2 * 10 ^ 29 }
    requires charge { charge ≤ 202 * 10 ^ 29 }
    requires cover { meterage.old.cover_left ≤ 2 * 10 ^ 31 }
    requires steps { meterage.old.steps_full
        + (meterage.old.rest + (charge - meterage.old.cover_left)) / modulus ≤ 4 * 10 ^ 17 }
    ensures exact { meterage.new ≡ added modulus meterage.old charge }
    ensures sum { (cover above charged : ℕ)
        → let opening : Opening = record { cover = cover; above = above; modulus = modulus } in
        meterage.old ≡ saved opening charged → meterage.new ≡ saved opening (charged + charge) }
    ensures rest { meterage.new.rest < modulus }
    ensures cover { meterage.new.cover_left ≤ meterage.old.cover_left }
{
    let above = meterage.rest + charge.saturating_sub(meterage.cover_left);
    if above < modulus {
        meterage.cover_left = meterage.cover_left.saturating_sub(charge);
        meterage.rest = above;
        return;
    }
    meterage.add(charge, modulus);
}
