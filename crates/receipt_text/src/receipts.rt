//! Receipts.
ghost use Rattle.std.specs.Prelude.{◌++◌, ◌+◌, ◌↔◌, ◌≡◌, ◌≤◌, IsOk, OnErr, OnOk, length};
ghost use Rattle.{arrayvec.specs.ArrayVec.{array_vec_len}, receipt_text.specs.SealParts.{part_of_seal}};
ghost use Rattle.receipt_text.specs.{Common.{IsDay, IsReceipt, IsSeal, line_size}, Receipts.{body_text, receipt_text}};
ghost use Rattle.receipt_text.specs.Spelling.{IsSpelled};

use crate::calculations::put_calculation;
use crate::headings::put_heading;
use crate::parts::{SealPart, part_of_seal, put_part};
use crate::sums::put_last_lines;
use crate::trips::put_trip;
use seal_record::Seal;
use taxi_units::{Line, LineFull, Receipt, put_bytes};

/// Appends the text of a receipt: its number and kind, what it says of the meter's seal, the trip, the calculation of
/// the fare, and the amounts. What is appended is a receipt by the grammar.
///
/// `LineFull`: the text doesn't fit, and the line is unchanged. An empty line takes it, since it has at most 480 bytes.
/// MI-007 asks for the data of the trip; the form is this project's own.
pub fn put_receipt(line: &mut Line, receipt: &Receipt, seal: &Seal) -> Result<(), LineFull>
    requires receipt { IsReceipt receipt.now }
    requires seal { IsSeal seal.now }
    ensures variant { IsOk result
        ↔ (array_vec_len line.old + length (receipt_text receipt.now (part_of_seal seal.now)) ≤ line_size) }
    ensures ok { OnOk result (line.new.items ≡ line.old.items ++ receipt_text receipt.now (part_of_seal seal.now)) }
    ensures err { OnErr result (line.new ≡ line.old) }
    ensures grammar { IsSpelled (receipt_text receipt.now (part_of_seal seal.now)) receipt.now (part_of_seal seal.now) }
{
    let part = part_of_seal(seal);
    put_part_receipt(line, receipt, &part)
}

/// Appends the text of a receipt, and asks only that its amounts and its date can be written.
pub fn put_part_receipt(line: &mut Line, receipt: &Receipt, part: &SealPart) -> Result<(), LineFull>
    requires decimals { receipt.now.decimals ≤ 3 }
    requires secured { IsDay part.now.secured }
    ensures variant { IsOk result ↔ (array_vec_len line.old + length (receipt_text receipt.now part.now) ≤ line_size) }
    ensures ok { OnOk result (line.new.items ≡ line.old.items ++ receipt_text receipt.now part.now) }
    ensures err { OnErr result (line.new ≡ line.old) }
{
    let mut text = Line::new();
    put_lines(&mut text, receipt, part)?;
    put_bytes(line, text.as_slice())
}

/// Appends the lines.
#[tactic(auto, unfolding(crate::specs::Receipts::receipt_text))]
fn put_lines(line: &mut Line, receipt: &Receipt, part: &SealPart) -> Result<(), LineFull>
    requires decimals { receipt.now.decimals ≤ 3 }
    requires secured { IsDay part.now.secured }
    ensures variant { IsOk result ↔ (array_vec_len line.old + length (receipt_text receipt.now part.now) ≤ line_size) }
    ensures ok { OnOk result (line.new.items ≡ line.old.items ++ receipt_text receipt.now part.now) }
{
    put_heading(line, receipt.number, receipt.kind)?;
    put_part(line, part)?;
    put_body(line, receipt)
}

/// Appends the lines of the trip and of its fare.
#[tactic(auto, unfolding(crate::specs::Receipts::body_text))]
fn put_body(line: &mut Line, receipt: &Receipt) -> Result<(), LineFull>
    requires { receipt.now.decimals ≤ 3 }
    ensures variant { IsOk result ↔ (array_vec_len line.old + length (body_text receipt.now) ≤ line_size) }
    ensures ok { OnOk result (line.new.items ≡ line.old.items ++ body_text receipt.now) }
{
    put_trip(line, receipt)?;
    put_calculation(line, receipt)?;
    put_last_lines(line, receipt)
}
