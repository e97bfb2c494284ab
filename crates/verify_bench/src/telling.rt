//! What a hiring that is closed comes to: its receipt, and why its fare is what it is.
ghost use Rattle.std.specs.Prelude.{ℕ, ◌++◌, ◌≡◌, ◌≤◌, IfOk, List, OnOk, Some};
ghost use Rattle.verify_bench.specs.Common.{Context, IsSecond, MeterTrip, Part, Setting, amount_in, amounts_of};
ghost use Rattle.verify_bench.specs.Common.{longest_trip, own_lines, receipt_of, sound_of, stamp_at, supplement_of};
ghost use Rattle.verify_bench.specs.{Common.{tree_of}, Groups.{group_if, groups_at, groups_from}};
ghost use Rattle.verify_bench.specs.{Gathered.{IsTableOf, all_ways}, Hirings.{IsHiringOf, IsWhole}};
ghost use Rattle.verify_bench.specs.Settings.{setting_under};
ghost use Rattle.verify_bench.specs.TripExplanations.{explanation, explanation_of, taken_if, taken_of};

use crate::clock::local_time;
use crate::explained::{Explained, Group, Sums, Taken, Way};
use crate::fares::{fare_shown, steps_shown};
use crate::hiring::Hiring;
use crate::sums::RateSums;
use drive_modes::millimetres;
use seal_record::Params;
use std::alloc::Global;
use tariff_check::{Checked, Choice, RateNumbers};
use taxi_units::{Kind, NoMemory, Receipt, Stamp};

/// How a hiring is closed: its kind, its second, the tariff position, and the store's number after the entry.
#[derive(Clone, Copy)]
pub(crate) struct Closing {
    pub(crate) kind: Kind,
    pub(crate) finish: u64,
    pub(crate) position: u8,
    pub(crate) number: u64,
}

/// A hiring that is closed, taken apart.
pub(crate) fn explained(
    alloc: Global,
    hiring: &Hiring,
    closing: Closing,
    checked: &Checked,
    params: &Params,
) -> Result<Explained, NoMemory>
    requires whole { IsWhole hiring.now }
    requires ticks { hiring.now.whole.ticks ≤ longest_trip }
    requires finish { IsSecond closing.finish }
    ensures { IfOk result (λ explained. (hired : Context) (trip : MeterTrip)
        → IsHiringOf (setting_under checked.now params.now) hired hiring.now trip → explanation_of explained
        ≡ explanation (setting_under checked.now params.now) hired (Some trip)
        (receipt_of (setting_under checked.now params.now)
        closing.kind closing.finish closing.position trip closing.number)) }
{
    let receipt = receipt(hiring, closing, checked, params);
    let groups = groups(alloc, checked.rates(), hiring.rates.as_slice())?;
    let taken = taken(alloc, hiring, checked)?;
    Ok(Explained {
        receipt,
        fees: hiring.fees,
        whole: hiring.whole,
        groups,
        stopped: hiring.stopped,
        dropped: hiring.dropped,
        taken,
    })
}

/// The receipt.
fn receipt(hiring: &Hiring, closing: Closing, checked: &Checked, params: &Params) -> Receipt
    requires whole { IsWhole hiring.now }
    requires ticks { hiring.now.whole.ticks ≤ longest_trip }
    requires finish { IsSecond closing.finish }
    ensures { (hired : Context) (trip : MeterTrip)
        → IsHiringOf (setting_under checked.now params.now) hired hiring.now trip
        → result ≡ receipt_of (setting_under checked.now params.now)
        closing.kind closing.finish closing.position trip closing.number }
{
    let (step, _) = checked.step();
    let fee = hiring.fees.amounts;
    let start = stamp(params, hiring.started);
    let finish = stamp(params, closing.finish);
    let hired_mm = millimetres(params.constant, hiring.whole.pulses);
    let shown = steps_shown(checked, params, fee, hiring.whole.charge);
    let fare = fare_shown(fee, step, shown);
    let sum = supplements(hiring, checked);
    Receipt {
        number: closing.number,
        kind: closing.kind,
        start,
        finish,
        position: closing.position,
        hired_mm,
        initial: fee.amount,
        minimum: fee.minimum,
        steps: shown.min(u64::MAX as u128) as u64,
        step,
        fare,
        supplements: sum,
        decimals: checked.decimals(),
    }
}

/// The local date and time at a second.
pub(crate) fn stamp(params: &Params, second: u64) -> Stamp
    requires { IsSecond second }
    ensures { (s : Setting) → s.offsets ≡ params.now.offsets → result ≡ stamp_at s second }
{
    let local = local_time(&params.offsets, second);
    Stamp {
        year: local.year,
        month: local.month,
        date: local.date,
        second: local.second,
    }
}

/// The groups of the rates, from a table of their sums.
fn groups(
    alloc: Global,
    rates: &[Choice<RateNumbers>],
    table: &[RateSums],
) -> Result<Vec<Group>, NoMemory>
    ensures { IfOk result (λ groups. (s : Setting) (parts : List Part) → IsTableOf s parts table.now
        → groups.items ≡ groups_from s parts 0 (own_lines rates.now)) }
{
    let mut groups = Vec::new(alloc);
    for (place, rate) in rates.iter().enumerate() {
        put_groups(&mut groups, rate.line, sums_at(table, place))?;
    }
    Ok(groups)
}

/// The sums of the rate at a place.
fn sums_at(table: &[RateSums], place: usize) -> RateSums
    ensures { (s : Setting) (parts : List Part) → IsTableOf s parts table.now → result ≡ all_ways s parts place }
{
    match table.get(place) {
        None => RateSums::new(),
        Some(sums) => *sums,
    }
}

/// Adds the groups of a rate line.
fn put_groups(groups: &mut Vec<Group>, line: u32, sums: RateSums) -> Result<(), NoMemory>
    ensures { OnOk result ((s : Setting) (parts : List Part) (place : ℕ) → sums ≡ all_ways s parts place
        → groups.new.items ≡ groups.old.items ++ groups_at s parts place line) }
{
    put_group(groups, line, Way::Distance, sums.distance)?;
    put_group(groups, line, Way::Time, sums.time)?;
    put_group(groups, line, Way::Both, sums.both)
}

/// Adds a group, if it has an interval.
fn put_group(groups: &mut Vec<Group>, line: u32, way: Way, sums: Sums) -> Result<(), NoMemory>
    ensures { OnOk result (groups.new.items ≡ groups.old.items ++ group_if line way sums) }
{
    if sums.ticks == 0 {
        return Ok(());
    }
    groups.push(Group { line, way, sums }).map_err(|_| NoMemory)
}

/// The supplements that were added, by their numbers.
fn taken(alloc: Global, hiring: &Hiring, checked: &Checked) -> Result<Vec<Taken>, NoMemory>
    requires { IsWhole hiring.now }
    ensures { IfOk result (λ taken. taken.items ≡ taken_of (sound_of (tree_of checked.now)) hiring.now.extras.items) }
{
    let mut taken = Vec::new(alloc);
    for number in 1..17u8 {
        put_taken(&mut taken, number, hiring, checked)?;
    }
    Ok(taken)
}

/// Adds the supplement of a number, if it was taken.
fn put_taken(
    taken: &mut Vec<Taken>,
    number: u8,
    hiring: &Hiring,
    checked: &Checked,
) -> Result<(), NoMemory>
    requires { IsWhole hiring.now }
    ensures { OnOk result (taken.new.items
        ≡ taken.old.items ++ taken_if (sound_of (tree_of checked.now)) hiring.now.extras.items number) }
{
    let count = hiring.times(number);
    if count == 0 {
        return Ok(());
    }
    let taken_now = Taken {
        number,
        count: count as u8,
        amount: amount_of(number, checked),
    };
    taken.push(taken_now).map_err(|_| NoMemory)
}

/// What a supplement costs, 0 if the tariff has none of its number.
fn amount_of(number: u8, checked: &Checked) -> u64
    ensures amount { result ≡ amount_in (supplement_of (tree_of checked.now).lines number) }
    ensures most { result ≤ 1000000 }
{
    match checked.supplement(number) {
        None => 0,
        Some(supplement) => supplement.amount,
    }
}

/// What the supplements cost together.
pub(crate) fn supplements(hiring: &Hiring, checked: &Checked) -> u64
    requires { IsWhole hiring.now }
    ensures { result ≡ amounts_of (sound_of (tree_of checked.now)) hiring.now.extras.items }
{
    let mut sum = 0;
    for number in 1..17u8 {
        sum += hiring.times(number) as u64 * amount_of(number, checked);
    }
    sum
}
