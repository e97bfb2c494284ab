//! The meter for C: a static library with one call, which puts what a meter shows of a drive into its caller's memory.
//! examples/c has its header, and docs/use/EMBEDDING.md says how it is built and linked.
#![tactic(auto)]

mod making;
mod showing;

ghost use Rattle.std.specs.Prelude.{◌≡◌, ◌≢◌, ◌≤◌, length, take};
ghost use Rattle.c_meter.specs.Shown.{HasNoDrive, HasNoParams, HasNoRoom, HasNoTariff, IsOfLines, IsStatus, ShowsDrive};

use crate::showing::show_drive;
use std::alloc::Global;
use std::marker::Brand;
use std::sync::ledger::Blank;

/// Carries out a drive under the texts of a tariff and of parameters, without a store. Puts the lines of its displays
/// and refusals into `text`, and their length into `used`. Each call is a whole drive: it begins with a meter that is
/// off and has entered nothing. This project's own.
///
/// The answer is a status of the program `taxi`: 0; or the first of these that is so: 2 if the tariff is refused; 9 if
/// the parameters are; 3 if the drive has a bad line, or 2^40 bytes or more; 8 if `text` has no room for the lines. 12
/// if memory runs out before that is known, which only a tariff of lines, sound or not, takes. If the answer isn't 0,
/// `used` is 0, and `text` may have changed.
#[unsafe(no_mangle)]
pub extern "C" fn c_meter_fare(
    alloc: Global,
    tariff: &[u8],
    params: &[u8],
    drive: &[u8],
    text: &mut [u8],
    used: &mut usize,
) -> u8
    ensures shown { result ≡ 0 → ShowsDrive tariff.now params.now drive.now (take used.new text.new) }
    ensures within { used.new ≤ length text.old }
    ensures nothing { result ≢ 0 → used.new ≡ 0 }

    // Each of these says that what comes before it was accepted.
    ensures no_tariff { result ≡ 2 → HasNoTariff tariff.now }
    ensures no_params { result ≡ 9 → HasNoParams tariff.now params.now }
    ensures no_drive { result ≡ 3 → HasNoDrive tariff.now params.now drive.now }
    ensures no_room { result ≡ 8 → HasNoRoom tariff.now params.now drive.now (length text.old) }
    ensures memory { result ≡ 12 → IsOfLines tariff.now }
    ensures answers { IsStatus result }
{
    *used = 0;
    match show_drive::<Brand>(alloc, tariff, params, drive, text, Blank::new(1)) {
        Ok(count) => {
            *used = count;
            0
        }
        Err(stop) => stop.status(),
    }
}
