//! The lines by which a hiring is explained.
ghost use Rattle.std.specs.Prelude.{◌%◌, ◌*◌, ◌++◌, ◌+◌, ◌/◌, ◌<◌, ◌^◌, ◌≡◌, ◌≤◌, codes, decimal, length};
ghost use Rattle.{arrayvec.specs.ArrayVec.{array_vec_len}, taxi_units.specs.{Line.{line_size}, Number.{padded_text}}};
ghost use Rattle.bench_commands.specs.Common.{explanation_of, money_text};
ghost use Rattle.bench_commands.specs.{ExplainSteps.{IsScale}, ExplainedText.{taken_text, title_text, way_text}};
ghost use Rattle.bench_commands.specs.ExplainedText.{charge_text, charged_text, distance_text, dropped_text};
ghost use Rattle.bench_commands.specs.ExplainedText.{duration_text, explained_heading, fee_text, fees_text};
ghost use Rattle.bench_commands.specs.ExplainedText.{minimum_text, rate_text, span_text, stopped_text, sum_text};

use drive_modes::{Constant, millimetres};
use receipt_text::{push_calculation, push_course, push_fare, push_kind};
use taxi_units::{Kind, Line, Receipt, push_bytes, push_money, push_number, put_padded};
use verify_bench::{Explained, Group, HiringFees, Sums, Taken, Way};

/// The scale of an explanation: the decimals of the tariff, 0 to 3, the constant, and the units of charge in the
/// smallest unit of money, 1 to 10^24, which `tables` prints as M.
#[derive(Clone, Copy)]
pub struct Scale {
    pub decimals: u8,
    pub constant: Constant,
    pub unit: u128,
}

/// Appends the distance of pulses.
fn push_distance(line: &mut Line, scale: &Scale, pulses: u64)
    requires { array_vec_len line.old + 42 ≤ line_size }
    ensures text { line.new.items ≡ line.old.items ++ distance_text scale.now pulses }
    ensures len { array_vec_len line.new ≤ array_vec_len line.old + 42 }
{
    push_money(line, millimetres(scale.constant, pulses), 3);
    push_bytes(line, b" m");
}

/// Appends the time of ticks.
fn push_duration(line: &mut Line, ticks: u32)
    requires { array_vec_len line.old + 42 ≤ line_size }
    ensures text { line.new.items ≡ line.old.items ++ duration_text ticks }
    ensures len { array_vec_len line.new ≤ array_vec_len line.old + 42 }
{
    push_money(line, ticks as u128, 1);
    push_bytes(line, b" s");
}

/// Appends the distance and the time of intervals.
#[tactic(auto, unfolding(crate::specs::ExplainedText::span_text))]
fn push_span(line: &mut Line, scale: &Scale, sums: &Sums)
    requires { array_vec_len line.old + 85 ≤ line_size }
    ensures text { line.new.items ≡ line.old.items ++ span_text scale.now sums.now }
    ensures len { array_vec_len line.new ≤ array_vec_len line.old + 85 }
{
    push_distance(line, scale, sums.pulses);
    push_bytes(line, b" ");
    push_duration(line, sums.ticks);
}

/// The ten-thousandths of the smallest unit of money that a charge has beside whole ones.
#[tactic(auto, using(crate::proofs::ExplainedLines::few_parts))]
fn ten_thousandths(charge: u128, unit: u128) -> u64
    requires { (0 < unit) × (unit ≤ 1000000000000000000000000) }
    ensures value { result ≡ charge % unit * 10000 / unit }
    ensures few { result < 10000 }
{
    (charge % unit * 10_000 / unit) as u64
}

/// Ten to the power of the decimals of a tariff.
#[tactic(auto, using(crate::proofs::ExplainedLines::few_powers))]
fn ten_to(decimals: u8) -> u64
    requires { decimals ≤ 3 }
    ensures value { result ≡ 10 ^ decimals }
    ensures range { (0 < result) × (result ≤ 1000) }
{
    10u64.pow(decimals as u32)
}

/// The digits of an amount behind its point: those of `whole` smallest units of which `one` make a unit of money, and
/// four for the ten-thousandths behind them.
#[tactic(auto, using(crate::proofs::ExplainedLines::rest_below))]
fn digits_of(whole: u128, one: u64, part: u64) -> u64
    requires one { (0 < one) × (one ≤ 1000) }
    requires part { part < 10000 }
    ensures value { result ≡ whole % one * 10000 + part }
    ensures few { result < 10000000 }
{
    (whole % one as u128) as u64 * 10_000 + part
}

/// Appends digits that make a number below 10^7, with zeros in front up to a width of at most 7.
#[tactic(auto, using(crate::proofs::ExplainedLines::digits_fit))]
fn push_digits(line: &mut Line, value: u64, width: u8)
    requires room { array_vec_len line.old + 7 ≤ line_size }
    requires value { value < 10000000 }
    requires width { width ≤ 7 }
    ensures text { line.new.items ≡ line.old.items ++ padded_text width value }
    ensures len { array_vec_len line.new ≡ array_vec_len line.old + length (padded_text width value) }
    ensures most { length (padded_text width value) ≤ 7 }
{
    put_padded(line, value, width).unwrap();
}

/// Appends an amount, by what stands before its point and by the digits behind it.
fn push_pointed(line: &mut Line, whole: u128, digits: u64, width: u8)
    requires room { array_vec_len line.old + 47 ≤ line_size }
    requires digits { digits < 10000000 }
    requires width { width ≤ 7 }
    ensures text { line.new.items ≡ line.old.items ++ (decimal whole ++ (codes "." ++ padded_text width digits)) }
    ensures len { array_vec_len line.new ≤ array_vec_len line.old + 47 }
{
    push_number(line, whole);
    push_bytes(line, b".");
    push_digits(line, digits, width);
}

/// Appends a charge as money, cut off at four decimals more than the tariff has.
fn push_cut(line: &mut Line, scale: &Scale, charge: u128)
    requires scale { IsScale scale.now }
    requires room { array_vec_len line.old + 47 ≤ line_size }
    ensures text { line.new.items
        ≡ line.old.items ++ money_text (scale.now.decimals + 4) (charge * 10000 / scale.now.unit) }
    ensures len { array_vec_len line.new ≤ array_vec_len line.old + 47 }
{
    let one = ten_to(scale.decimals);
    let whole = charge / scale.unit;
    let part = ten_thousandths(charge, scale.unit);
    let digits = digits_of(whole, one, part);
    push_pointed(line, whole / one as u128, digits, scale.decimals + 4);
}

/// Appends a charge, as money and exactly.
#[tactic(auto, unfolding(crate::specs::ExplainedText::charge_text))]
fn push_charge(line: &mut Line, scale: &Scale, charge: u128)
    requires scale { IsScale scale.now }
    requires room { array_vec_len line.old + 87 ≤ line_size }
    ensures text { line.new.items ≡ line.old.items ++ charge_text scale.now charge }
    ensures len { array_vec_len line.new ≤ array_vec_len line.old + 87 }
{
    push_cut(line, scale, charge);
    push_bytes(line, b" ");
    push_number(line, charge);
}

/// Appends the line of a hiring's number and of how it ended.
#[tactic(auto, unfolding(crate::specs::ExplainedText::title_text))]
fn push_title(line: &mut Line, number: u64, kind: Kind)
    requires { array_vec_len line.old + 55 ≤ line_size }
    ensures text { line.new.items ≡ line.old.items ++ title_text number kind }
    ensures len { array_vec_len line.new ≤ array_vec_len line.old + 55 }
{
    push_bytes(line, b"HIRING ");
    push_number(line, number as u128);
    push_bytes(line, b" ");
    push_kind(line, kind);
    push_bytes(line, b"\n");
}

/// The line of a hiring's number and of how it ended.
pub fn title_line(number: u64, kind: Kind) -> Line
    ensures { result.items ≡ title_text number kind }
{
    let mut line = Line::new();
    push_title(&mut line, number, kind);
    line
}

/// The lines of a hiring's title and of the course of the trip, with its time.
#[tactic(auto, unfolding(crate::specs::ExplainedText::explained_heading))]
pub fn heading_lines(number: u64, receipt: &Receipt, ticks: u32) -> Line
    ensures { result.items ≡ explained_heading number receipt.now ticks }
{
    let mut line = Line::new();
    push_title(&mut line, number, receipt.kind);
    push_course(&mut line, *receipt);
    push_bytes(&mut line, b" ");
    push_duration(&mut line, ticks);
    push_bytes(&mut line, b"\n");
    line
}

/// Appends the line of the initial hire fee.
#[tactic(auto, unfolding(crate::specs::ExplainedText::fee_text))]
fn push_fee(line: &mut Line, decimals: u8, number: u32, amount: u64, covers: u64)
    requires room { array_vec_len line.old + 126 ≤ line_size }
    requires decimals { decimals ≤ 3 }
    ensures text { line.new.items ≡ line.old.items ++ fee_text decimals number amount covers }
    ensures len { array_vec_len line.new ≤ array_vec_len line.old + 126 }
{
    push_bytes(line, b"FEE ");
    push_number(line, number as u128);
    push_bytes(line, b" ");
    push_money(line, amount as u128, decimals);
    push_bytes(line, b" ");
    push_money(line, covers as u128, decimals);
    push_bytes(line, b"\n");
}

/// Appends the line of the minimum fare, if there is one above 0.
#[tactic(auto, unfolding(crate::specs::ExplainedText::minimum_text))]
fn push_minimum(line: &mut Line, decimals: u8, number: Option<u32>, amount: u64)
    requires room { array_vec_len line.old + 90 ≤ line_size }
    requires decimals { decimals ≤ 3 }
    ensures text { line.new.items ≡ line.old.items ++ minimum_text decimals number amount }
    ensures len { array_vec_len line.new ≤ array_vec_len line.old + 90 }
{
    match number {
        None => {}
        Some(number) => {
            if amount > 0 {
                push_bytes(line, b"MINIMUM ");
                push_number(line, number as u128);
                push_bytes(line, b" ");
                push_money(line, amount as u128, decimals);
                push_bytes(line, b"\n");
            }
        }
    }
}

/// The lines of a hiring's fees, with the amounts of its receipt.
#[tactic(auto, unfolding(crate::specs::ExplainedText::fees_text))]
pub fn fee_lines(decimals: u8, fees: &HiringFees, receipt: &Receipt) -> Line
    requires { decimals ≤ 3 }
    ensures { result.items ≡ fees_text decimals fees.now receipt.now }
{
    let mut line = Line::new();
    push_fee(
        &mut line,
        decimals,
        fees.initial_line,
        receipt.initial,
        fees.amounts.covers,
    );
    push_minimum(&mut line, decimals, fees.minimum_line, receipt.minimum);
    line
}

/// The word of a way.
fn word_of(way: Way) -> &'static [u8]
    ensures text { result.now ≡ way_text way }
    ensures len { length result.now ≤ 8 }
{
    match way {
        Way::Distance => b"DISTANCE",
        Way::Time => b"TIME",
        Way::Both => b"BOTH",
    }
}

/// The line of a group.
#[tactic(auto, unfolding(crate::specs::ExplainedText::rate_text))]
pub fn rate_line(scale: &Scale, group: &Group) -> Line
    requires { IsScale scale.now }
    ensures { result.items ≡ rate_text scale.now group.now }
{
    let mut line = Line::new();
    push_bytes(&mut line, b"RATE ");
    push_number(&mut line, group.line as u128);
    push_bytes(&mut line, b" ");
    push_bytes(&mut line, word_of(group.way));
    push_bytes(&mut line, b" ");
    push_span(&mut line, scale, &group.sums);
    push_bytes(&mut line, b" ");
    push_charge(&mut line, scale, group.sums.charge);
    push_bytes(&mut line, b"\n");
    line
}

/// Appends the line of the intervals in Stopped, if there are any.
#[tactic(auto, unfolding(crate::specs::ExplainedText::stopped_text))]
fn push_stopped(line: &mut Line, scale: &Scale, sums: &Sums)
    requires { array_vec_len line.old + 94 ≤ line_size }
    ensures text { line.new.items ≡ line.old.items ++ stopped_text scale.now sums.now }
    ensures len { array_vec_len line.new ≤ array_vec_len line.old + 94 }
{
    if sums.ticks > 0 {
        push_bytes(line, b"STOPPED ");
        push_span(line, scale, sums);
        push_bytes(line, b"\n");
    }
}

/// Appends the line of the pulses that drops of the supply left, if there are any.
#[tactic(auto, unfolding(crate::specs::ExplainedText::dropped_text))]
fn push_dropped(line: &mut Line, scale: &Scale, pulses: u64)
    requires { array_vec_len line.old + 51 ≤ line_size }
    ensures text { line.new.items ≡ line.old.items ++ dropped_text scale.now pulses }
    ensures len { array_vec_len line.new ≤ array_vec_len line.old + 51 }
{
    if pulses > 0 {
        push_bytes(line, b"DROPPED ");
        push_distance(line, scale, pulses);
        push_bytes(line, b"\n");
    }
}

/// Appends the line of all charges.
#[tactic(auto, unfolding(crate::specs::ExplainedText::charged_text))]
fn push_charged(line: &mut Line, scale: &Scale, charge: u128)
    requires scale { IsScale scale.now }
    requires room { array_vec_len line.old + 138 ≤ line_size }
    ensures text { line.new.items ≡ line.old.items ++ charged_text scale.now charge }
    ensures len { array_vec_len line.new ≤ array_vec_len line.old + 138 }
{
    push_bytes(line, b"CHARGED ");
    push_charge(line, scale, charge);
    push_bytes(line, b" / ");
    push_number(line, scale.unit);
    push_bytes(line, b"\n");
}

/// The lines of a hiring from what was free to its fare.
#[tactic(auto, unfolding(crate::specs::ExplainedText::sum_text))]
pub fn sum_lines(scale: &Scale, explained: &Explained, receipt: &Receipt) -> Line
    requires scale { IsScale scale.now }
    requires decimals { receipt.now.decimals ≤ 3 }
    ensures { result.items ≡ sum_text scale.now (explanation_of explained.now) receipt.now }
{
    let mut line = Line::new();
    push_stopped(&mut line, scale, &explained.stopped);
    push_dropped(&mut line, scale, explained.dropped);
    push_charged(&mut line, scale, explained.whole.charge);
    push_calculation(&mut line, *receipt);
    push_fare(&mut line, *receipt);
    line
}

/// The line of a supplement that was taken.
#[tactic(auto, unfolding(crate::specs::ExplainedText::taken_text))]
pub fn taken_line(decimals: u8, taken: &Taken) -> Line
    requires { decimals ≤ 3 }
    ensures { result.items ≡ taken_text decimals taken.now }
{
    let mut line = Line::new();
    push_bytes(&mut line, b"SUPPLEMENT ");
    push_number(&mut line, taken.number as u128);
    push_bytes(&mut line, b" ");
    push_number(&mut line, taken.count as u128);
    push_bytes(&mut line, b" x ");
    push_money(&mut line, taken.amount as u128, decimals);
    push_bytes(&mut line, b"\n");
    line
}
