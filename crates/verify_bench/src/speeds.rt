//! Writes the cross-over speeds of a tariff.
ghost use Rattle.std.specs.Prelude.{◌++◌, ◌+◌, ◌≡◌, ◌≤◌, All, IfOk};
ghost use Rattle.{arrayvec.specs.ArrayVec.{array_vec_len}, taxi_units.specs.Line.{line_size}};
ghost use Rattle.verify_bench.specs.{Common.{IsSoundRate, own_values, sound_of, tree_of}, CrossOvers.{speed_text}};
ghost use Rattle.verify_bench.specs.CrossOvers.{cross_over_line, cross_over_lines, cross_over_of, cross_overs_text};

use drive_modes::cross_over;
use std::alloc::Global;
use tariff_check::{Checked, Choice, RateNumbers};
use taxi_units::{Line, NoMemory, push_bytes, push_number};

/// The lines of the cross-over speeds: `CROSSOVER i v m/h` for the i-th rate line of a tariff, whose speed is v whole
/// metres an hour, rounded down; `CROSSOVER i none` if its distance costs nothing.
///
/// `NoMemory`: only if memory ran out. The form is this project's own.
pub fn cross_overs(alloc: Global, checked: &Checked) -> Result<Vec<u8>, NoMemory>
    ensures { IfOk result (λ text. text.items ≡ cross_overs_text (sound_of (tree_of checked.now))) }
{
    lines_of_rates(alloc, checked.rates())
}

/// The lines of some rates.
fn lines_of_rates(alloc: Global, rates: &[Choice<RateNumbers>]) -> Result<Vec<u8>, NoMemory>
    requires { All IsSoundRate (own_values rates.now) }
    ensures { IfOk result (λ text. text.items ≡ cross_over_lines 1 (own_values rates.now)) }
{
    let mut text = Vec::new(alloc);
    for (place, rate) in rates.iter().enumerate() {
        let line = line_of_rate(place as u64 + 1, rate.value);
        text.extend_from_slice(line.as_slice())
            .map_err(|_| NoMemory)?;
    }
    Ok(text)
}

/// The line of a rate.
fn line_of_rate(number: u64, rate: RateNumbers) -> Line
    requires { IsSoundRate rate }
    ensures { result.items ≡ cross_over_line number rate }
{
    let mut line = Line::new();
    push_bytes(&mut line, b"CROSSOVER ");
    push_number(&mut line, number as u128);
    push_bytes(&mut line, b" ");
    push_speed(&mut line, speed_of(rate));
    push_bytes(&mut line, b"\n");
    line
}

/// The cross-over speed of a rate.
fn speed_of(rate: RateNumbers) -> Option<u128>
    requires { IsSoundRate rate }
    ensures { result ≡ cross_over_of rate }
{
    cross_over(rate.a, rate.b, rate.c, rate.e)
}

/// Appends a speed.
fn push_speed(line: &mut Line, speed: Option<u128>)
    requires { array_vec_len line.old + 100 ≤ line_size }
    ensures text { line.new.items ≡ line.old.items ++ speed_text speed }
    ensures len { array_vec_len line.new ≤ array_vec_len line.old + 44 }
{
    match speed {
        None => push_bytes(line, b"none"),
        Some(speed) => {
            push_number(line, speed);
            push_bytes(line, b" m/h");
        }
    }
}
