//! Receipts that are read back.
ghost use Rattle.std.specs.Prelude.{ℕ, ◌↔◌, ◌≡◌, ◌≤◌, Some, length, take};
ghost use Rattle.{receipt_text.specs.Lines.{receipt_of}, receipt_reading.specs.Front.{IsInFront}};
ghost use Rattle.receipt_reading.specs.Common.{Gives, IsPart, IsReceipt, IsReceiptText, Part, Receipt};
ghost use Rattle.receipt_text.specs.Lines as spec;

use crate::calculations::calculation_at;
use crate::headings::heading_at;
use crate::parts::part_at;
use crate::ranges::{is_part, is_receipt};
use crate::sums::{optional_lines_at, sums_at};
use crate::trips::trip_at;
use receipt_text::{
    Calculation, Heading, OptionalAmounts, SealPart, Sums, TripLines, put_part_receipt,
};
use taxi_units::{Line, Receipt};

/// Reads the text of a receipt: what it says of the hiring, and what of the seal of the meter. `None` exactly if the
/// text isn't that of a receipt, byte for byte, with each number in its range. No memory is taken. The form is this
/// project's own.
pub fn read_receipt(text: &[u8]) -> Option<(Receipt, SealPart)>
    ensures { (receipt : Receipt) (part : Part)
        → (result ≡ Some (receipt, part)) ↔ IsReceiptText text.now receipt part }
{
    let (receipt, part, count) = receipt_in_front(text)?;
    if count == text.len() {
        Some((receipt, part))
    } else {
        None
    }
}

/// Reads the receipt at the front of a text, whatever follows it: what it says of the hiring, what of the seal of the
/// meter, and how many bytes it has, at most 480. `None` exactly if no beginning of the text is a receipt, byte for
/// byte, with each number in its range. At most one beginning is. No memory is taken. The form is this project's own.
pub fn receipt_in_front(text: &[u8]) -> Option<(Receipt, SealPart, usize)>
    ensures { (receipt : Receipt) (part : Part) (count : ℕ)
        → (result ≡ Some (receipt, part, count)) ↔ IsInFront text.now receipt part count }
{
    let (receipt, part) = receipt_at(text)?;
    let count = spelled_in_front(text, &receipt, &part)?;
    Some((receipt, part, count))
}

/// How many bytes the text of this receipt and this part has, if both are in their ranges and it is at the front.
fn spelled_in_front(text: &[u8], receipt: &Receipt, part: &SealPart) -> Option<usize>
    ensures { (count : ℕ) → (result ≡ Some count) ↔ IsInFront text.now receipt.now part.now count }
{
    if is_receipt(receipt) && is_part(part) {
        length_in_front(text, receipt, part)
    } else {
        None
    }
}

/// How many bytes the text of this receipt and this part has, if it is at the front.
#[tactic(auto, using(receipt_text::proofs::Laws::receipts_fit))]
fn length_in_front(text: &[u8], receipt: &Receipt, part: &SealPart) -> Option<usize>
    requires receipt { IsReceipt receipt.now }
    requires part { IsPart part.now }
    ensures { (count : ℕ) → (result ≡ Some count) ↔ IsInFront text.now receipt.now part.now count }
{
    let mut spelled = Line::new();
    match put_part_receipt(&mut spelled, receipt, part) {
        Ok(()) => length_of_front(text, spelled.as_slice()),
        Err(_) => None,
    }
}

/// The length of a part of a text, if the text begins with it.
fn length_of_front(text: &[u8], part: &[u8]) -> Option<usize>
    ensures { (count : ℕ) → (result ≡ Some count) ↔ ((count ≤ length text.now) × (take count text.now ≡ part.now)) }
{
    if part.len() > text.len() {
        return None;
    }
    let (front, _) = text.split_at(part.len());
    if front == part {
        Some(part.len())
    } else {
        None
    }
}

/// What the lines of a text say, down to the supplements.
#[tactic(auto, unfolding(receipt_text::specs::Lines::receipt_at))]
pub(crate) fn receipt_at(text: &[u8]) -> Option<(Receipt, SealPart)>
    ensures { Gives (λ x. (x.0, x.1)) result (spec.receipt_at text.now) }
{
    let (heading, text) = heading_at(text)?;
    let (part, text) = part_at(text)?;
    let (trip, text) = trip_at(text)?;
    let (calculation, text) = calculation_at(text)?;
    let (optional, text) = optional_lines_at(text)?;
    let (sums, _) = sums_at(text)?;
    let receipt = receipt_of(heading, trip, calculation, optional, sums);
    Some((receipt, part))
}

/// The receipt of what its lines say.
fn receipt_of(
    heading: Heading,
    trip: TripLines,
    calculation: Calculation,
    optional: OptionalAmounts,
    sums: Sums,
) -> Receipt
    ensures { result ≡ receipt_of heading trip calculation optional sums }
{
    Receipt {
        number: heading.number,
        kind: heading.kind,
        start: trip.start,
        finish: trip.finish,
        position: trip.position,
        hired_mm: trip.hired_mm,
        initial: calculation.initial,
        minimum: optional.minimum,
        steps: calculation.steps,
        step: calculation.step,
        fare: sums.fare,
        supplements: sums.supplements,
        decimals: calculation.decimals,
    }
}
