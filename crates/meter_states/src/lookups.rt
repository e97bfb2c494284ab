//! What the core looks up: in the tables, and in the seal's offsets.
ghost use Rattle.std.specs.Prelude.{◌*◌, ◌+◌, ◌^◌, ◌≡◌, ◌≢◌, ◌≤◌, None};
ghost use Rattle.{taxi_units.specs.Shown.{IsStamp}, drive_modes.specs.Distance.{millimetres_of}};
ghost use Rattle.{tariff_compile.specs.Tables.{IsFit}, meter_model.specs.Setting.{stamp_at}};
ghost use Rattle.meter_states.specs.Common.{IsSealOf, IsSecond, Setting, amount_in, modulus_of, most_in};
ghost use Rattle.meter_states.specs.{Common.{supplement_numbered}, Setting.{IsTariffOf}, Supplements.{supplement_in}};

use drive_modes::millimetres;
use interval_clock::civil;
use seal_record::Seal;
use std::sync::ledger::Ledger;
use tariff_check::Supplement;
use tariff_compile::Tables;
use taxi_units::{Stamp, Steps};

/// What a display step takes, in units of charge.
pub(crate) fn modulus(tables: &Tables) -> u128
    ensures value { result ≡ tables.now.step * tables.now.measure }
    ensures setting { (s : Setting) → IsTariffOf s tables.now → result ≡ modulus_of s }
    ensures least { 1 ≤ result }
    ensures most { result ≤ 2 * 10 ^ 29 }
    ensures fit { IsFit tables.now }
{
    u128::from(tables.step()) * tables.measure()
}

/// The distance that pulses make, in whole millimetres.
pub(crate) fn distance(tables: &Tables, pulses: u64) -> u128
    ensures value { result ≡ millimetres_of tables.now.constant pulses }
    ensures most { result ≤ 2000 * pulses }
{
    millimetres(tables.constant(), pulses)
}

/// The supplement of a number, if the tariff has one. One step.
pub(crate) fn find_supplement<L: Ledger>(
    tables: &Tables,
    number: u8,
    steps: &mut Steps<L>,
) -> Option<Supplement>
    ensures setting { (s : Setting) → IsTariffOf s tables.now
        → result ≡ supplement_numbered s.tariff.supplements number }
    ensures value { result ≡ supplement_in tables.now number }
    ensures number { result ≢ None → (1 ≤ number) × (number ≤ 16) }
    ensures amount { amount_in result ≤ 1000000 }
    ensures most { most_in result ≤ 99 }
    ensures steps { steps.new ≡ steps.old + 1 }
{
    tables.supplement(number, steps)
}

/// The local date and time at a second. At most 6 steps.
pub(crate) fn stamp<L: Ledger>(seal: &Seal, second: u64, steps: &mut Steps<L>) -> Stamp
    requires { IsSecond second }
    ensures value { (s : Setting) → IsSealOf s seal.now → result ≡ stamp_at s second }
    ensures range { IsStamp result }
    ensures steps { steps.new ≤ steps.old + 6 }
{
    let local = civil(&seal.params.offsets, second, steps);
    Stamp {
        year: local.year,
        month: local.month,
        date: local.date,
        second: local.second,
    }
}
