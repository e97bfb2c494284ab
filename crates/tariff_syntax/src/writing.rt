//! Writes the printed form of a tariff.
ghost use Rattle.std.specs.{Fmt.{decimal}, Prelude.{[], ◌++◌, ◌≡◌, ◌≤◌, IfOk, OnOk, codes, map}};
ghost use Rattle.tariff_tree.specs.{Condition.{condition_if}, Tree.{entry_of, without_when}};
ghost use Rattle.tariff_syntax.specs.{Appends.{Appends}, Common.{condition_of, line_of, money_text, tree_of}};
ghost use Rattle.tariff_syntax.specs.Printed.{entry_line, lines_text, number_line, printed_form, when_text};
ghost use Rattle.tariff_syntax.specs.PrintedCondition.{condition_text};
ghost use Rattle.tariff_tree.specs.Tree as tree;

use crate::printing::{push_money, push_per, push_rounding};
use crate::spelling::{push_condition, push_date, push_named, push_padded};
use drive_modes::Rounding;
use std::alloc::{AllocError, Global};
use tariff_tree::{Cond, InitialLine, Item, RateLine, Tariff, TariffLine};
use taxi_units::NoMemory;

/// The printed form of a tariff: the line of its decimals, then its lines in their order, with one blank between
/// tokens, but none before a comma, around `..`, after `(` and before `)`. Money has the tariff's decimals, 0 to 3, and
/// measures have one. Rounding words and covered amounts are always printed, and parentheses if they are needed.
/// `NoMemory`: memory runs out.
pub fn print(alloc: Global, tariff: &Tariff) -> Result<Vec<u8>, NoMemory>
    requires { tariff.now.decimals ≤ 3 }
    ensures { IfOk result (λ text. text.items ≡ printed_form (tree_of tariff.now)) }
{
    write_tariff(alloc, tariff).map_err(|_| NoMemory)
}

/// The printed form of a tariff; out of memory is the only error.
fn write_tariff(alloc: Global, tariff: &Tariff) -> Result<Vec<u8>, AllocError>
    requires { tariff.now.decimals ≤ 3 }
    ensures { IfOk result (λ text. text.items ≡ printed_form (tree_of tariff.now)) }
{
    let mut text = Vec::new(alloc);
    push_number(&mut text, b"decimals ", tariff.decimals)?;
    push_lines(&mut text, tariff.decimals, tariff.lines.as_slice())?;
    Ok(text)
}

/// The printed form of a line up to `when`, with an LF behind it: what the line says if its condition holds. Money has
/// `decimals` decimals, 0 to 3. `NoMemory`: memory runs out.
pub fn print_line(alloc: Global, decimals: u8, item: &Item) -> Result<Vec<u8>, NoMemory>
    requires { decimals ≤ 3 }
    ensures { IfOk result (λ text. text.items ≡ entry_line decimals (without_when (entry_of item.now)) []) }
{
    let mut text = Vec::new(alloc);
    match push_bare(&mut text, decimals, item) {
        Ok(()) => Ok(text),
        Err(_) => Err(NoMemory),
    }
}

/// A line without its condition.
fn push_bare(text: &mut Vec<u8>, decimals: u8, item: &Item) -> Result<(), AllocError>
    requires { decimals ≤ 3 }
    ensures { OnOk result (Appends text.old.items text.new.items
        (entry_line decimals (without_when (entry_of item.now)))) }
{
    match item {
        Item::Initial(initial) => push_initial(text, decimals, initial, &None),
        Item::Rate(rate) => push_rate(text, decimals, rate, &None),
        Item::Minimum(minimum) => push_minimum(text, decimals, minimum.amount, &None),
        item => push_item(text, decimals, item),
    }
}

/// Lines in their order.
fn push_lines(text: &mut Vec<u8>, decimals: u8, lines: &[TariffLine]) -> Result<(), AllocError>
    requires { decimals ≤ 3 }
    ensures { OnOk result (text.new.items ≡ text.old.items ++ lines_text decimals (map line_of lines.now)) }
{
    for line in lines {
        push_item(text, decimals, &line.item)?;
    }
    Ok(())
}

/// A line.
#[tactic(auto, unfolding(crate::specs::Printed::entry_line, crate::specs::Printed::number_line))]
fn push_item(text: &mut Vec<u8>, decimals: u8, item: &Item) -> Result<(), AllocError>
    requires { decimals ≤ 3 }
    ensures { OnOk result (Appends text.old.items text.new.items (entry_line decimals (entry_of item.now))) }
{
    match item {
        Item::Step { amount, rounding } => push_step(text, decimals, *amount, *rounding),
        Item::Positions(number) => push_number(text, b"positions ", *number),
        Item::Zones(number) => push_number(text, b"zones ", *number),
        Item::Holiday { year, month, date } => push_holiday(text, *year, *month, *date),
        Item::Supplement {
            number,
            amount,
            max,
        } => { push_supplement(text, decimals, *number, *amount, *max) }
        Item::Initial(initial) => push_initial(text, decimals, initial, &initial.cond),
        Item::Rate(rate) => push_rate(text, decimals, rate, &rate.cond),
        Item::Minimum(minimum) => push_minimum(text, decimals, minimum.amount, &minimum.cond),
    }
}

/// A line of a word and a number.
#[tactic(auto, unfolding(crate::specs::Printed::number_line))]
fn push_number(text: &mut Vec<u8>, name: &[u8], number: u8) -> Result<(), AllocError>
    ensures { OnOk result (Appends text.old.items text.new.items (number_line name.now number)) }
{
    text.extend_from_slice(name)?;
    push_money(text, number as u64, 0)?;
    text.push(b'\n')?;
    Ok(())
}

/// The line of a display step.
#[tactic(auto, unfolding(crate::specs::Printed::entry_line))]
fn push_step(
    text: &mut Vec<u8>,
    decimals: u8,
    amount: u64,
    rounding: Rounding,
) -> Result<(), AllocError>
    requires { decimals ≤ 3 }
    ensures { OnOk result (Appends text.old.items text.new.items (entry_line decimals (tree.step amount rounding))) }
{
    text.extend_from_slice(b"step ")?;
    push_money(text, amount, decimals)?;
    text.push(b' ')?;
    push_rounding(text, rounding)?;
    text.push(b'\n')?;
    Ok(())
}

/// The line of a holiday.
#[tactic(auto, unfolding(crate::specs::Printed::entry_line))]
fn push_holiday(text: &mut Vec<u8>, year: u16, month: u8, date: u8) -> Result<(), AllocError>
    ensures { OnOk result (Appends text.old.items text.new.items (entry_line 0 (tree.holiday year month date))) }
{
    text.extend_from_slice(b"holiday ")?;
    push_padded(text, year as u64, 4)?;
    text.push(b'-')?;
    push_date(text, month, date)?;
    text.push(b'\n')?;
    Ok(())
}

/// The line of a supplement.
#[tactic(auto, unfolding(crate::specs::Printed::entry_line))]
fn push_supplement(
    text: &mut Vec<u8>,
    decimals: u8,
    number: u8,
    amount: u64,
    max: u8,
) -> Result<(), AllocError>
    requires { decimals ≤ 3 }
    ensures { OnOk result (Appends text.old.items text.new.items
        (entry_line decimals (tree.supplement number amount max))) }
{
    push_named(text, b"supplement ", number)?;
    push_most(text, decimals, amount, max)
}

/// The amount of a supplement, and how often it may be had, at the end of its line.
fn push_most(text: &mut Vec<u8>, decimals: u8, amount: u64, max: u8) -> Result<(), AllocError>
    requires { decimals ≤ 3 }
    ensures { OnOk result (Appends text.old.items text.new.items
        (λ rest. codes " " ++ (money_text decimals amount
        ++ (codes " max " ++ (decimal max ++ (codes "\n" ++ rest)))))) }
{
    text.push(b' ')?;
    push_money(text, amount, decimals)?;
    text.extend_from_slice(b" max ")?;
    push_money(text, max as u64, 0)?;
    text.push(b'\n')?;
    Ok(())
}

/// The line of an initial hire fee, with a condition or none.
#[tactic(auto, unfolding(crate::specs::Printed::entry_line))]
fn push_initial(
    text: &mut Vec<u8>,
    decimals: u8,
    initial: &InitialLine,
    cond: &Option<Cond>,
) -> Result<(), AllocError>
    requires { decimals ≤ 3 }
    ensures { OnOk result (Appends text.old.items text.new.items
        (entry_line decimals (tree.initial initial.now.amount initial.now.covers (condition_if cond.now)))) }
{
    text.extend_from_slice(b"initial ")?;
    push_money(text, initial.amount, decimals)?;
    text.extend_from_slice(b" covers ")?;
    push_money(text, initial.covers, decimals)?;
    push_when(text, cond)
}

/// The line of a rate, with a condition or none.
#[tactic(auto, unfolding(crate::specs::Printed::entry_line))]
fn push_rate(
    text: &mut Vec<u8>,
    decimals: u8,
    rate: &RateLine,
    cond: &Option<Cond>,
) -> Result<(), AllocError>
    requires { decimals ≤ 3 }
    ensures { OnOk result (Appends text.old.items text.new.items
        (entry_line decimals (tree.rate rate.now.a rate.now.b rate.now.c rate.now.e (condition_if cond.now)))) }
{
    text.extend_from_slice(b"rate")?;
    push_per(text, decimals, rate.a, rate.b, b" m,")?;
    push_per(text, decimals, rate.c, rate.e, b" s")?;
    push_when(text, cond)
}

/// The line of a minimum fare, with a condition or none.
#[tactic(auto, unfolding(crate::specs::Printed::entry_line))]
fn push_minimum(
    text: &mut Vec<u8>,
    decimals: u8,
    amount: u64,
    cond: &Option<Cond>,
) -> Result<(), AllocError>
    requires { decimals ≤ 3 }
    ensures { OnOk result (Appends text.old.items text.new.items
        (entry_line decimals (tree.minimum amount (condition_if cond.now)))) }
{
    text.extend_from_slice(b"minimum ")?;
    push_money(text, amount, decimals)?;
    push_when(text, cond)
}

/// The end of a line that may have a condition.
fn push_when(text: &mut Vec<u8>, cond: &Option<Cond>) -> Result<(), AllocError>
    ensures { OnOk result (Appends text.old.items text.new.items
        (λ rest. when_text (condition_if cond.now) (codes "\n" ++ rest))) }
{
    match cond {
        None => {
            text.push(b'\n')?;
            Ok(())
        }
        Some(cond) => push_condition_line(text, cond),
    }
}

/// A condition at the end of a line.
#[tactic(auto, unfolding(crate::specs::PrintedCondition::condition_text))]
fn push_condition_line(text: &mut Vec<u8>, cond: &Cond) -> Result<(), AllocError>
    ensures { OnOk result (Appends text.old.items text.new.items
        (λ rest. codes " when " ++ condition_text (condition_of cond.now) (codes "\n" ++ rest))) }
{
    text.extend_from_slice(b" when ")?;
    push_condition(text, cond)?;
    text.push(b'\n')?;
    Ok(())
}
