//! A receipt at the front of a part of a roll.
ghost use Rattle.std.specs.Prelude.{ℕ, ◌++◌, ◌<◌, ◌≡◌, ◌≢◌, ◌≤◌, IfNone, IfSome, drop, length, slice_index};
ghost use Rattle.receipt_reading.specs.{Printed.{IsPrinted}, Roll.{BeginsWithNone}};

use crate::printed_receipt::PrintedReceipt;
use crate::reading::receipt_in_front;
use arrayvec::ArrayVec;

/// How many bytes are in front of the first with which a receipt can begin: all if there is none.
pub(crate) fn before_letter(text: &[u8]) -> usize
    ensures within { result ≤ length text.now }
    ensures others { (k : ℕ) → k < result → slice_index text.now k ≢ 82 }
{
    text.iter()
        .position(|byte| *byte == b'R')
        .unwrap_or(text.len())
}

/// The receipt with which a text begins.
pub(crate) fn printed_in_front(text: &[u8]) -> Option<PrintedReceipt>
    ensures receipt { IfSome result IsPrinted }
    ensures front { IfSome result (λ r. text.now ≡ r.text ++ drop (length r.text) text.now) }
    ensures none { IfNone result (BeginsWithNone text.now) }
{
    let (receipt, part, count) = receipt_in_front(text)?;
    let (front, _) = text.split_at(count);
    let mut text = ArrayVec::new();
    text.try_extend_from_slice(front).unwrap();
    Some(PrintedReceipt {
        text,
        receipt,
        part,
    })
}
