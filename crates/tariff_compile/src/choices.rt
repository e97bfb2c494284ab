//! What the choices and the supplements of a tariff say to its tables.
ghost use Rattle.std.specs.{List.{range_with_len}, Prelude.{◌+◌, ◌^◌, ◌≡◌, ◌≤◌, All, IfOk, map}};
ghost use Rattle.tariff_compile.specs.{Common.{IsSoundRate, own_values, supplement_of, tree_of}, Tables.{weights_of}};

use drive_modes::{Constant, Weights};
use std::alloc::Global;
use tariff_check::{Checked, Choice, RateNumbers, Supplement};
use taxi_units::NoMemory;

/// The supplement of each number from 1 to 16, if the tariff has it.
pub(crate) fn all_supplements(
    alloc: Global,
    checked: &Checked,
) -> Result<Vec<Option<Supplement>>, NoMemory>
    ensures { IfOk result (λ all. all.items ≡ map
        (λ place. supplement_of (tree_of checked.now).lines (place + 1)) (range_with_len 0 16)) }
{
    let mut all = Vec::new(alloc);
    for place in 0..16u8 {
        if all.push(checked.supplement(place + 1)).is_err() {
            return Err(NoMemory);
        }
    }
    Ok(all)
}

/// What some choices say, in their order.
pub(crate) fn all_values<V: Copy>(alloc: Global, choices: &[Choice<V>]) -> Result<Vec<V>, NoMemory>
    ensures { IfOk result (λ all. all.items ≡ own_values choices.now) }
{
    let mut all = Vec::new(alloc);
    for choice in choices {
        if all.push(choice.value).is_err() {
            return Err(NoMemory);
        }
    }
    Ok(all)
}

/// The weights of each rate of some choices, in their order.
pub(crate) fn all_weights(
    alloc: Global,
    choices: &[Choice<RateNumbers>],
    k: Constant,
    measure: u64,
) -> Result<Vec<Weights>, NoMemory>
    requires rates { All IsSoundRate (own_values choices.now) }
    requires measure { measure ≤ 10 ^ 18 }
    ensures { IfOk result (λ all. all.items ≡ map (weights_of k measure) (own_values choices.now)) }
{
    let mut all = Vec::new(alloc);
    for choice in choices {
        if all.push(weights_of(choice.value, k, measure)).is_err() {
            return Err(NoMemory);
        }
    }
    Ok(all)
}

/// What a pulse and what a tick weighs by a rate.
fn weights_of(rate: RateNumbers, k: Constant, measure: u64) -> Weights
    requires rate { IsSoundRate rate }
    requires measure { measure ≤ 10 ^ 18 }
    ensures { result ≡ weights_of k measure rate }
{
    Weights {
        per_pulse: 10_000 * rate.a as u128 * (measure / rate.b) as u128,
        per_tick: rate.c as u128 * k.get() as u128 * (measure / rate.e) as u128,
    }
}
