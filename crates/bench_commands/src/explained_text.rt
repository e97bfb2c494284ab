//! The text by which hirings are explained.
ghost use Rattle.std.specs.Prelude.{◌++◌, ◌≡◌, ◌≤◌, IfOk, OnOk, flat_map, map};
ghost use Rattle.receipt_text.specs.Receipts.{supplements_text, total_text};
ghost use Rattle.{verify_bench.specs.Settings.{setting_under}, bench_commands.specs.ExplainSteps.{IsScale}};
ghost use Rattle.bench_commands.specs.{Common.{explanation_of}, ExplainedText.{scale_of, taken_text}};
ghost use Rattle.bench_commands.specs.ExplainedText.{explanations_text, hiring_text, numbered_texts, rate_text};

use crate::explained_lines::{Scale, fee_lines, heading_lines, rate_line, sum_lines, taken_line};
use receipt_text::{push_supplements, push_total};
use seal_record::Params;
use std::alloc::Global;
use tariff_check::Checked;
use taxi_units::{Line, NoMemory, Receipt};
use verify_bench::{Explained, Group, Taken};

/// The text by which hirings are explained, one after the other, under a tariff and parameters. `NoMemory`: memory ran
/// out.
pub fn text_of_explained(
    alloc: Global,
    checked: &Checked,
    params: &Params,
    explained: &[Explained],
) -> Result<Vec<u8>, NoMemory>
    ensures { IfOk result (λ text. text.items
        ≡ explanations_text (setting_under checked.now params.now) (map explanation_of explained.now)) }
{
    let scale = scale_by(checked, params);
    let mut text = Vec::new(alloc);
    push_hirings(&mut text, &scale, explained)?;
    Ok(text)
}

/// The scale of an explanation under a tariff and parameters.
fn scale_by(checked: &Checked, params: &Params) -> Scale
    ensures value { result ≡ scale_of (setting_under checked.now params.now) }
    ensures scale { IsScale result }
{
    Scale {
        decimals: checked.decimals(),
        constant: params.constant,
        unit: params.constant.get() as u128 * checked.measure() as u128,
    }
}

/// Appends the texts of hirings, which are numbered from 1.
fn push_hirings(text: &mut Vec<u8>, scale: &Scale, explained: &[Explained]) -> Result<(), NoMemory>
    requires { IsScale scale.now }
    ensures { OnOk result (text.new.items
        ≡ text.old.items ++ numbered_texts (hiring_text scale.now) 1 (map explanation_of explained.now)) }
{
    let mut number = 0u64;
    for hiring in explained {
        number += 1;
        push_hiring(text, scale, number, hiring)?;
    }
    Ok(())
}

/// Appends the text of a hiring.
#[tactic(auto, unfolding(crate::specs::ExplainedText::hiring_text))]
fn push_hiring(
    text: &mut Vec<u8>,
    scale: &Scale,
    number: u64,
    explained: &Explained,
) -> Result<(), NoMemory>
    requires { IsScale scale.now }
    ensures { OnOk result (text.new.items
        ≡ text.old.items ++ hiring_text scale.now number (explanation_of explained.now)) }
{
    let decimals = scale.decimals;
    let mut receipt = explained.receipt;
    receipt.decimals = decimals;
    push_line(
        text,
        heading_lines(number, &explained.receipt, explained.whole.ticks),
    )?;
    push_line(
        text,
        fee_lines(decimals, &explained.fees, &explained.receipt),
    )?;
    push_rates(text, scale, explained.groups.as_slice())?;
    push_line(text, sum_lines(scale, explained, &receipt))?;
    push_taken(text, decimals, explained.taken.as_slice())?;
    push_line(text, last_lines(&receipt))
}

/// Appends a line.
pub fn push_line(text: &mut Vec<u8>, line: Line) -> Result<(), NoMemory>
    ensures { OnOk result (text.new.items ≡ text.old.items ++ line.items) }
{
    text.extend_from_slice(line.as_slice())
        .map_err(|_| NoMemory)
}

/// Appends the lines of groups.
fn push_rates(text: &mut Vec<u8>, scale: &Scale, groups: &[Group]) -> Result<(), NoMemory>
    requires { IsScale scale.now }
    ensures { OnOk result (text.new.items ≡ text.old.items ++ flat_map (rate_text scale.now) groups.now) }
{
    for group in groups {
        push_line(text, rate_line(scale, group))?;
    }
    Ok(())
}

/// Appends the lines of supplements.
fn push_taken(text: &mut Vec<u8>, decimals: u8, taken: &[Taken]) -> Result<(), NoMemory>
    requires { decimals ≤ 3 }
    ensures { OnOk result (text.new.items ≡ text.old.items ++ flat_map (taken_text decimals) taken.now) }
{
    for supplement in taken {
        push_line(text, taken_line(decimals, supplement))?;
    }
    Ok(())
}

/// The last lines of a receipt.
fn last_lines(receipt: &Receipt) -> Line
    requires { receipt.now.decimals ≤ 3 }
    ensures { result.items ≡ supplements_text receipt.now ++ total_text receipt.now }
{
    let mut line = Line::new();
    push_supplements(&mut line, *receipt);
    push_total(&mut line, *receipt);
    line
}
