//! Copies of tariffs with other rates.
ghost use Rattle.std.specs.Prelude.{◌≡◌, IfOk, map, min};
ghost use Rattle.tariff_tree.specs.{Condition.{condition_if}, Tree.{entry_of}};
ghost use Rattle.near_commands.specs.{Common.{line_of, tree_of}, NearTariff.{with_rate, with_rates}};
ghost use Rattle.near_commands.specs.NearSteps.{MayChange, MayChangeAll, MayTell, changed, changed_tree};
ghost use Rattle.tariff_tree.specs.Tree as tree;

use crate::conditions::copy_if;
use crate::nearest::{Measures, near_rate};
use std::alloc::Global;
use tariff_tree::{
    InitialLine, Item, Lines, MinimumLine, RateLine, RateNumbers, Tariff, TariffLine,
};
use taxi_units::NoMemory;

/// How the rates of a copy are changed.
#[derive(Clone, Copy)]
pub enum Change {
    /// Each measure that isn't 0 is 1.
    Plain,
    /// They have the near amounts for these measures.
    Near(Measures),
}

/// A measure, made plain.
fn plain(measure: u64) -> u64
    ensures { result ≡ min measure 1 }
{
    if measure == 0 { 0 } else { 1 }
}

/// The numbers of a rate, changed.
fn changed(change: Change, rate: RateNumbers) -> RateNumbers
    requires { MayTell change rate }
    ensures { result ≡ changed change rate }
{
    match change {
        Change::Plain => RateNumbers {
            a: rate.a,
            b: plain(rate.b),
            c: rate.c,
            e: plain(rate.e),
        },
        Change::Near(measures) => near_rate(measures, rate),
    }
}

/// A rate, copied and changed.
fn copy_rate(alloc: Global, change: Change, rate: &RateLine) -> Result<Item, NoMemory>
    requires { MayChange change (entry_of (Item.Rate rate.now)) }
    ensures { IfOk result (λ copy. entry_of copy ≡ with_rate (changed change) (entry_of (Item.Rate rate.now))) }
{
    let numbers = RateNumbers {
        a: rate.a,
        b: rate.b,
        c: rate.c,
        e: rate.e,
    };
    let cond = copy_if(alloc, &rate.cond)?;
    let RateNumbers { a, b, c, e } = changed(change, numbers);
    Ok(Item::Rate(RateLine { a, b, c, e, cond }))
}

/// An initial hire fee, copied.
fn copy_initial(alloc: Global, initial: &InitialLine) -> Result<Item, NoMemory>
    ensures { IfOk result (λ copy. entry_of copy ≡ entry_of (Item.Initial initial.now)) }
{
    let cond = copy_if(alloc, &initial.cond)?;
    Ok(Item::Initial(InitialLine {
        amount: initial.amount,
        covers: initial.covers,
        cond,
    }))
}

/// A minimum fare, copied.
fn copy_minimum(alloc: Global, minimum: &MinimumLine) -> Result<Item, NoMemory>
    ensures { IfOk result (λ copy. entry_of copy ≡ entry_of (Item.Minimum minimum.now)) }
{
    let cond = copy_if(alloc, &minimum.cond)?;
    Ok(Item::Minimum(MinimumLine {
        amount: minimum.amount,
        cond,
    }))
}

/// What a line says, copied and, if it is a rate, changed.
fn copy_item(alloc: Global, change: Change, item: &Item) -> Result<Item, NoMemory>
    requires { MayChange change (entry_of item.now) }
    ensures { IfOk result (λ copy. entry_of copy ≡ with_rate (changed change) (entry_of item.now)) }
{
    match item {
        Item::Step { amount, rounding } => Ok(Item::Step {
            amount: *amount,
            rounding: *rounding,
        }),
        Item::Positions(number) => Ok(Item::Positions(*number)),
        Item::Zones(number) => Ok(Item::Zones(*number)),
        Item::Holiday { year, month, date } => Ok(Item::Holiday {
            year: *year,
            month: *month,
            date: *date,
        }),
        Item::Supplement {
            number,
            amount,
            max,
        } => {
            Ok(Item::Supplement {
                number: *number,
                amount: *amount,
                max: *max,
            })
        }
        Item::Initial(initial) => copy_initial(alloc, initial),
        Item::Rate(rate) => copy_rate(alloc, change, rate),
        Item::Minimum(minimum) => copy_minimum(alloc, minimum),
    }
}

/// Lines, copied, with their rates changed.
fn copy_lines(alloc: Global, change: Change, lines: &[TariffLine]) -> Result<Lines, NoMemory>
    requires { MayChangeAll change (map line_of lines.now) }
    ensures { IfOk result (λ copies. map line_of copies ≡ with_rates (changed change) (map line_of lines.now)) }
{
    let mut copies = Lines::new(alloc);
    for line in lines {
        let item = copy_item(alloc, change, &line.item)?;
        copies.push(TariffLine {
            line: line.line,
            item,
        })?;
    }
    Ok(copies)
}

/// A tariff, copied, with its rates changed.
pub(crate) fn copy_tariff(
    alloc: Global,
    change: Change,
    tariff: &Tariff,
) -> Result<Tariff, NoMemory>
    requires { MayChangeAll change (tree_of tariff.now).lines }
    ensures { IfOk result (λ copy. tree_of copy ≡ changed_tree change (tree_of tariff.now)) }
{
    let lines = copy_lines(alloc, change, tariff.lines.as_slice())?;
    Ok(Tariff {
        decimals: tariff.decimals,
        lines,
    })
}
