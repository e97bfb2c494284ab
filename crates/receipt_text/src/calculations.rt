//! The line of a receipt's calculation.
ghost use Rattle.std.specs.Prelude.{◌++◌, ◌+◌, ◌↔◌, ◌≡◌, ◌≤◌, IsOk, OnOk, length};
ghost use Rattle.{arrayvec.specs.ArrayVec.{array_vec_len}, receipt_text.specs.Receipts.{calculation_text}};
ghost use Rattle.receipt_text.specs.Common.{line_size};

use crate::fields::{put_amount, put_figure};
use taxi_units::{Line, LineFull, Receipt, put_bytes};

/// What this line says.
#[derive(Clone, Copy)]
pub struct Calculation {
    pub decimals: u8,
    pub initial: u64,
    pub steps: u64,
    pub step: u64,
}

/// Appends the line of the calculation.
#[tactic(auto, unfolding(crate::specs::Receipts::calculation_text))]
pub(crate) fn put_calculation(line: &mut Line, receipt: &Receipt) -> Result<(), LineFull>
    requires { receipt.now.decimals ≤ 3 }
    ensures variant { IsOk result ↔ (array_vec_len line.old + length (calculation_text receipt.now) ≤ line_size) }
    ensures ok { OnOk result (line.new.items ≡ line.old.items ++ calculation_text receipt.now) }
{
    let initial = receipt.initial as u128;
    put_amount(line, b"CALC ", initial, receipt.decimals)?;
    put_figure(line, b" + ", receipt.steps as u128)?;
    let step = receipt.step as u128;
    put_amount(line, b" x ", step, receipt.decimals)?;
    put_bytes(line, b"\n")
}
