//! The amounts of a receipt: their ranges, and their lines, written and read.
ghost use Rattle.std.specs.Prelude.{◌++◌, ◌+◌, ◌<◌, ◌^◌, ◌↔◌, ◌≡◌, ◌≤◌, IsOk, OnOk, length};
ghost use Rattle.{arrayvec.specs.ArrayVec.{array_vec_len}, receipt_text.specs.AmountLines.{total_of}};
ghost use Rattle.receipt_text.specs.Common.{line_size};
ghost use Rattle.receipt_text.specs.Receipts.{fare_text, last_text, optional_text, supplements_text, total_text};

use crate::fields::put_amount;
use taxi_units::{
    LARGEST_AMOUNT, LARGEST_DISPLAY_STEP, LARGEST_SUPPLEMENTS, Line, LineFull, Receipt, put_bytes,
    word,
};

/// What the optional lines say: 0 for each that isn't there.
#[derive(Clone, Copy)]
pub struct OptionalAmounts {
    pub minimum: u64,
}

/// What the lines of the fare and the supplements say.
#[derive(Clone, Copy)]
pub struct Sums {
    pub fare: u64,
    pub supplements: u64,
}

/// The total of a receipt.
#[tactic(auto, unfolding(crate::specs::AmountLines::total_of))]
fn total_of(receipt: &Receipt) -> u128
    ensures value { result ≡ total_of receipt.now }
    ensures below { total_of receipt.now < 10 ^ 20 }
{
    receipt.fare as u128 + receipt.supplements as u128
}

/// Appends the lines behind the calculation: the optional ones, those of the amounts, and the last line.
#[tactic(auto, unfolding(crate::specs::Receipts::last_text))]
pub(crate) fn put_last_lines(line: &mut Line, receipt: &Receipt) -> Result<(), LineFull>
    requires room { array_vec_len line.old ≤ line_size }
    requires decimals { receipt.now.decimals ≤ 3 }
    ensures variant { IsOk result ↔ (array_vec_len line.old + length (last_text receipt.now) ≤ line_size) }
    ensures ok { OnOk result (line.new.items ≡ line.old.items ++ last_text receipt.now) }
{
    put_optional(line, b"MINIMUM ", receipt.minimum, receipt.decimals)?;
    put_fare(line, receipt)?;
    put_supplements(line, receipt)?;
    put_total(line, receipt)
}

/// Appends an optional line, a word and an amount, if the amount is above 0.
#[tactic(auto, unfolding(crate::specs::Receipts::optional_text))]
fn put_optional(line: &mut Line, word: &[u8], amount: u64, decimals: u8) -> Result<(), LineFull>
    requires room { array_vec_len line.old ≤ line_size }
    requires decimals { decimals ≤ 3 }
    ensures variant { IsOk result
        ↔ (array_vec_len line.old + length (optional_text decimals word.now amount) ≤ line_size) }
    ensures ok { OnOk result (line.new.items ≡ line.old.items ++ optional_text decimals word.now amount) }
{
    if amount == 0 {
        return Ok(());
    }
    put_amount(line, word, amount as u128, decimals)?;
    put_bytes(line, b"\n")
}

/// Appends the line of the fare.
#[tactic(auto, unfolding(crate::specs::Receipts::fare_text))]
pub(crate) fn put_fare(line: &mut Line, receipt: &Receipt) -> Result<(), LineFull>
    requires { receipt.now.decimals ≤ 3 }
    ensures variant { IsOk result ↔ (array_vec_len line.old + length (fare_text receipt.now) ≤ line_size) }
    ensures ok { OnOk result (line.new.items ≡ line.old.items ++ fare_text receipt.now) }
{
    let fare = receipt.fare as u128;
    put_amount(line, b"FARE ", fare, receipt.decimals)?;
    put_bytes(line, b"\n")
}

/// Appends the line of the supplements.
#[tactic(auto, unfolding(crate::specs::Receipts::supplements_text))]
pub(crate) fn put_supplements(line: &mut Line, receipt: &Receipt) -> Result<(), LineFull>
    requires { receipt.now.decimals ≤ 3 }
    ensures variant { IsOk result ↔ (array_vec_len line.old + length (supplements_text receipt.now) ≤ line_size) }
    ensures ok { OnOk result (line.new.items ≡ line.old.items ++ supplements_text receipt.now) }
{
    let supplements = receipt.supplements as u128;
    put_amount(line, b"SUPPLEMENTS ", supplements, receipt.decimals)?;
    put_bytes(line, b"\n")
}

/// Appends the line of the total, and the last line.
#[tactic(auto, using(crate::proofs::Widths::total_fits), unfolding(crate::specs::Receipts::total_text))]
pub(crate) fn put_total(line: &mut Line, receipt: &Receipt) -> Result<(), LineFull>
    requires { receipt.now.decimals ≤ 3 }
    ensures variant { IsOk result ↔ (array_vec_len line.old + length (total_text receipt.now) ≤ line_size) }
    ensures ok { OnOk result (line.new.items ≡ line.old.items ++ total_text receipt.now) }
    ensures most { length (total_text receipt.now) ≤ 40 }
{
    put_amount(line, b"TOTAL ", total_of(receipt), receipt.decimals)?;
    put_bytes(line, b"\nEND\n")
}
