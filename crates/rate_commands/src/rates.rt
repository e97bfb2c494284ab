//! The command `rates`.
ghost use Rattle.std.specs.{Fmt.{decimal}, Prelude.{[], ℕ, ◌++◌, ◌+◌, ◌≡◌, ◌≤◌, All, IfOk, List, length}};
ghost use Rattle.{arrayvec.specs.ArrayVec.{array_vec_len}, taxi_units.specs.{Line.{line_size}, Number.{money_text}}};
ghost use Rattle.{tariff_tree.specs.Tree.{tree_of}, verify_bench.specs.CrossOvers.{cross_over_of}};
ghost use Rattle.call_ends.specs.{Carried.{Carries}, Making.{IsMade, Makes, end_made, text_made}};
ghost use Rattle.rate_commands.specs.Common.{IsSoundRate, greatest_constant, least_constant, own_values, sound_of};
ghost use Rattle.rate_commands.specs.{Common.{tariff_in}, RatesSteps.{own_rates}};
ghost use Rattle.rate_commands.specs.Rates.{excess_text, fine_line, or_none, place_text, pulses_text, rate_line};
ghost use Rattle.rate_commands.specs.Rates.{rate_lines, rates_answer, rates_command, rates_text, speed_text};

use crate::constants::{fine_above, fine_below};
use crate::fineness::{excess, pulses_at_cross_over, weights_under};
use call_ends::{Ended, Made, print_made, refused_by, tariff_of_text, text_of_word};
use drive_modes::{Constant, cross_over};
use outside::{Files, Printer, STORE_SIZE};
use std::alloc::Global;
use std::sync::ledger::Ledger;
use tariff_check::{Checked, Choice, RateNumbers};
use taxi_units::{Line, NoMemory, Steps, push_bytes, push_money, push_number};

/// Prints for each rate of the tariff of word 1 how fine a constant is, and the nearest fine constants.
pub fn print_rates<F: Files, B: Printer<STORE_SIZE, L>, L: Ledger>(
    alloc: Global,
    constant: Constant,
    files: &mut F,
    board: &mut B,
    steps: &mut Steps<L>,
) -> Ended
    ensures { Carries F.Files B.Printer (rates_command constant) files.old files.new board.old board.new
        steps.old steps.new result }
{
    print_made(rates_of_word(alloc, files, constant), board, steps)
}

/// Reads the tariff of word 1, and gives the text of its rates. Nothing is left of the text, nor of the tree.
fn rates_of_word<F: Files>(alloc: Global, files: &mut F, constant: Constant) -> Result<Made, Ended>
    ensures { (image : List ℕ) → Makes F.Files (rates_command constant) image files.old files.new
        (text_made result) (end_made result) }
{
    match text_of_word(alloc, files, 1) {
        Ok(text) => rates_of_text(alloc, text.as_slice(), constant),
        Err(fault) => Err(refused_by(fault)),
    }
}

/// The text of the rates of a text's tariff.
fn rates_of_text(alloc: Global, text: &[u8], constant: Constant) -> Result<Made, Ended>
    ensures { IsMade (rates_answer constant (tariff_in text.now)) result }
{
    let checked = match tariff_of_text(alloc, text) {
        Ok(checked) => checked,
        Err(fault) => return Err(refused_by(fault)),
    };
    match rates_text(alloc, &checked, constant) {
        Ok(text) => Ok(Made {
            text,
            ended: Ended::Done,
        }),
        Err(_) => Err(Ended::NoMemory),
    }
}

/// The lines of the rates of a tariff, and the line of fine constants.
fn rates_text(alloc: Global, checked: &Checked, constant: Constant) -> Result<Vec<u8>, NoMemory>
    ensures { IfOk result (λ text. text.items ≡ rates_text constant (sound_of (tree_of checked.now))) }
{
    text_of_rates(alloc, checked.rates(), constant.get())
}

/// The lines of some rates, and the line of fine constants.
fn text_of_rates(alloc: Global, rates: &[Choice<RateNumbers>], k: u32) -> Result<Vec<u8>, NoMemory>
    requires sound { All IsSoundRate (own_values rates.now) }
    requires least { least_constant ≤ k }
    requires most { k ≤ greatest_constant }
    ensures { IfOk result (λ text. text.items
        ≡ rate_lines k 1 (own_rates rates.now) ++ fine_line k (own_values rates.now)) }
{
    let mut text = lines_of_rates(alloc, rates, k)?;
    let line = fine_line(rates, k);
    match text.extend_from_slice(line.as_slice()) {
        Ok(()) => Ok(text),
        Err(_) => Err(NoMemory),
    }
}

/// The lines of some rates.
fn lines_of_rates(alloc: Global, rates: &[Choice<RateNumbers>], k: u32) -> Result<Vec<u8>, NoMemory>
    requires sound { All IsSoundRate (own_values rates.now) }
    requires most { k ≤ greatest_constant }
    ensures { IfOk result (λ text. text.items ≡ rate_lines k 1 (own_rates rates.now)) }
{
    let mut text = Vec::new(alloc);
    for (place, rate) in rates.iter().enumerate() {
        let line = rate_line(place as u64 + 1, rate.line, rate.value, k);
        text.extend_from_slice(line.as_slice())
            .map_err(|_| NoMemory)?;
    }
    Ok(text)
}

/// The line of a rate.
#[tactic(auto, unfolding(crate::specs::Rates::rate_line))]
fn rate_line(number: u64, line_number: u32, rate: RateNumbers, k: u32) -> Line
    requires sound { IsSoundRate rate }
    requires most { k ≤ greatest_constant }
    ensures { result.items ≡ rate_line k number line_number rate }
{
    let weights = weights_under(rate, k);
    let mut line = Line::new();
    push_place(&mut line, number, line_number);
    push_speed(&mut line, speed_of(rate));
    push_pulses(&mut line, pulses_at_cross_over(weights));
    push_excess(&mut line, excess(weights));
    line
}

/// Appends the number of a rate, and that of its line.
#[tactic(auto, unfolding(crate::specs::Rates::place_text))]
fn push_place(line: &mut Line, number: u64, line_number: u32)
    requires { array_vec_len line.old + 100 ≤ line_size }
    ensures text { line.new.items ≡ line.old.items ++ place_text number line_number }
    ensures len { array_vec_len line.new ≤ array_vec_len line.old + 100 }
{
    push_bytes(line, b"RATE ");
    push_number(line, number as u128);
    push_bytes(line, b" LINE ");
    push_number(line, line_number as u128);
}

/// The cross-over speed of a rate.
fn speed_of(rate: RateNumbers) -> Option<u128>
    requires { IsSoundRate rate }
    ensures { result ≡ cross_over_of rate }
{
    cross_over(rate.a, rate.b, rate.c, rate.e)
}

/// Appends a speed.
#[tactic(auto, unfolding(crate::specs::Rates::speed_text))]
fn push_speed(line: &mut Line, speed: Option<u128>)
    requires { array_vec_len line.old + 100 ≤ line_size }
    ensures text { line.new.items ≡ line.old.items ++ speed_text speed }
    ensures len { array_vec_len line.new ≤ array_vec_len line.old + 100 }
{
    push_bytes(line, b" CROSSOVER ");
    match speed {
        None => push_bytes(line, b"none"),
        Some(speed) => push_number(line, speed),
    }
}

/// Appends pulses, counted in thousandths.
#[tactic(auto, unfolding(crate::specs::Rates::pulses_text))]
fn push_pulses(line: &mut Line, pulses: Option<u128>)
    requires { array_vec_len line.old + 100 ≤ line_size }
    ensures text { line.new.items ≡ line.old.items ++ pulses_text pulses }
    ensures len { array_vec_len line.new ≤ array_vec_len line.old + 100 }
{
    push_bytes(line, b" PULSES ");
    match pulses {
        None => push_bytes(line, b"none"),
        Some(pulses) => push_money(line, pulses, 3),
    }
}

/// Appends an excess, counted in tenths of a percent, and ends the line.
#[tactic(auto, unfolding(crate::specs::Rates::excess_text))]
fn push_excess(line: &mut Line, excess: u32)
    requires { array_vec_len line.old + 100 ≤ line_size }
    ensures { line.new.items ≡ line.old.items ++ excess_text excess }
{
    push_bytes(line, b" EXCESS ");
    push_money(line, excess as u128, 1);
    push_bytes(line, b"\n");
}

/// The line of fine constants.
#[tactic(auto, unfolding(crate::specs::Rates::fine_line))]
fn fine_line(rates: &[Choice<RateNumbers>], k: u32) -> Line
    requires sound { All IsSoundRate (own_values rates.now) }
    requires least { least_constant ≤ k }
    requires most { k ≤ greatest_constant }
    ensures { result.items ≡ fine_line k (own_values rates.now) }
{
    let mut line = Line::new();
    push_bytes(&mut line, b"FINE ");
    push_constant(&mut line, fine_below(rates, k));
    push_bytes(&mut line, b" ");
    push_constant(&mut line, fine_above(rates, k));
    push_bytes(&mut line, b"\n");
    line
}

/// Appends a constant.
fn push_constant(line: &mut Line, k: Option<u32>)
    requires { array_vec_len line.old + 40 ≤ line_size }
    ensures text { line.new.items ≡ line.old.items ++ or_none decimal k }
    ensures len { array_vec_len line.new ≤ array_vec_len line.old + 40 }
{
    match k {
        None => push_bytes(line, b"none"),
        Some(k) => push_number(line, k as u128),
    }
}
