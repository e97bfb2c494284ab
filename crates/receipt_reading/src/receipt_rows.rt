//! Receipts as rows of CSV.
ghost use Rattle.std.specs.Prelude.{◌++◌, ◌+◌, ◌<◌, ◌^◌, ◌∷◌, ◌≡◌, ◌≤◌, codes, decimal, length};
ghost use Rattle.{arrayvec.specs.ArrayVec.{array_vec_len}, taxi_units.specs.Line.{line_size}};
ghost use Rattle.receipt_text.specs.{AmountLines.{total_of}, Receipts.{stamp_text}};
ghost use Rattle.receipt_reading.specs.{Common.{IsPart, IsReceipt, Receipt, money_text}, ReceiptRows.{trip_fields}};
ghost use Rattle.receipt_reading.specs.{FieldTexts.{behind_commas}, Printed.{IsPrinted}};
ghost use Rattle.receipt_reading.specs.ReceiptRows.{amount_fields, heading, optional_field, part_fields, row_of};

use crate::printed_receipt::PrintedReceipt;
use receipt_text::{SealPart, push_hex, push_kind, push_stamp, put_day};
use taxi_units::{Line, Receipt, push_bytes, push_money, push_number, put_money, put_number};

/// The first line of rows, which names the columns.
pub fn heading() -> Line
    ensures { result.items ≡ heading }
{
    let mut line = Line::new();
    push_bytes(
        &mut line,
        b"receipt,kind,taxi,constant,secured,tariff,start,finish,position,distance,",
    );
    push_bytes(
        &mut line,
        b"initial,steps,step,minimum,fare,supplements,total\n",
    );
    line
}

/// The row of a receipt, as a line: its values with commas between them. The form is this project's own.
pub fn row_of(it: &PrintedReceipt) -> Line
    requires { IsPrinted it.now }
    ensures { result.items ≡ row_of it.now ++ codes "\n" }
{
    let mut line = Line::new();
    push_number(&mut line, it.receipt.number as u128);
    push_bytes(&mut line, b",");
    push_kind(&mut line, it.receipt.kind);
    push_part(&mut line, &it.part);
    push_trip(&mut line, &it.receipt);
    push_amounts(&mut line, &it.receipt);
    push_bytes(&mut line, b"\n");
    line
}

/// Appends a comma and a text.
fn push_text(line: &mut Line, text: &[u8])
    requires { array_vec_len line.old + 1 + length text.now ≤ line_size }
    ensures text { line.new.items ≡ line.old.items ++ 44 ∷ text.now }
    ensures len { array_vec_len line.new ≡ array_vec_len line.old + 1 + length text.now }
{
    push_bytes(line, b",");
    push_bytes(line, text);
}

/// Appends a comma and a number.
#[tactic(auto, using(crate::proofs::Fields::number_fits))]
fn push_figure(line: &mut Line, value: u64)
    requires { array_vec_len line.old + 21 ≤ line_size }
    ensures text { line.new.items ≡ line.old.items ++ 44 ∷ decimal value }
    ensures len { array_vec_len line.new ≤ array_vec_len line.old + 21 }
{
    push_bytes(line, b",");
    put_number(line, value as u128).unwrap();
}

/// Appends a comma and an amount of money.
#[tactic(auto, using(crate::proofs::Fields::amount_fits))]
fn push_amount(line: &mut Line, units: u64, decimals: u8)
    requires room { array_vec_len line.old + 22 ≤ line_size }
    requires decimals { decimals ≤ 3 }
    ensures text { line.new.items ≡ line.old.items ++ 44 ∷ money_text decimals units }
    ensures len { array_vec_len line.new ≤ array_vec_len line.old + 22 }
{
    push_bytes(line, b",");
    put_money(line, units as u128, decimals).unwrap();
}

/// Appends a comma and, if it is above 0, an amount of money.
fn push_optional(line: &mut Line, units: u64, decimals: u8)
    requires room { array_vec_len line.old + 22 ≤ line_size }
    requires decimals { decimals ≤ 3 }
    ensures text { line.new.items ≡ line.old.items ++ 44 ∷ optional_field decimals units }
    ensures len { array_vec_len line.new ≤ array_vec_len line.old + 22 }
{
    if units == 0 {
        push_bytes(line, b",");
    } else {
        push_amount(line, units, decimals);
    }
}

/// Appends the fields of the seal, each behind a comma.
fn push_part(line: &mut Line, part: &SealPart)
    requires room { array_vec_len line.old + 114 ≤ line_size }
    requires part { IsPart part.now }
    ensures text { line.new.items ≡ line.old.items ++ behind_commas (part_fields part.now) }
    ensures len { array_vec_len line.new ≤ array_vec_len line.old + 114 }
{
    push_text(line, part.taxi.as_slice());
    push_figure(line, part.constant as u64);
    push_bytes(line, b",");
    put_day(line, part.secured).unwrap();
    push_bytes(line, b",");
    push_hex(line, &part.digest);
}

/// Appends the fields of the trip, each behind a comma.
fn push_trip(line: &mut Line, receipt: &Receipt)
    requires { array_vec_len line.old + 118 ≤ line_size }
    ensures text { line.new.items ≡ line.old.items ++ behind_commas (trip_fields receipt.now) }
    ensures len { array_vec_len line.new ≤ array_vec_len line.old + 118 }
{
    push_bytes(line, b",");
    push_stamp(line, receipt.start);
    push_bytes(line, b",");
    push_stamp(line, receipt.finish);
    push_figure(line, receipt.position as u64);
    push_bytes(line, b",");
    push_money(line, receipt.hired_mm, 3);
}

/// Appends the fields of the fare, each behind a comma.
fn push_amounts(line: &mut Line, receipt: &Receipt)
    requires room { array_vec_len line.old + 172 ≤ line_size }
    requires decimals { receipt.now.decimals ≤ 3 }
    ensures text { line.new.items ≡ line.old.items ++ behind_commas (amount_fields receipt.now) }
    ensures len { array_vec_len line.new ≤ array_vec_len line.old + 172 }
{
    push_amount(line, receipt.initial, receipt.decimals);
    push_figure(line, receipt.steps);
    push_amount(line, receipt.step, receipt.decimals);
    push_optional(line, receipt.minimum, receipt.decimals);
    push_amount(line, receipt.fare, receipt.decimals);
    push_amount(line, receipt.supplements, receipt.decimals);
    push_bytes(line, b",");
    push_money(
        line,
        receipt.fare as u128 + receipt.supplements as u128,
        receipt.decimals,
    );
}
