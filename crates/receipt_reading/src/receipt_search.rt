//! Looks for a receipt in a part of a roll.
ghost use Rattle.std.specs.Prelude.{◌+◌, ◌<◌, ◌≡◌, ◌≤◌, IfNone, IfSome, IsTrue, false, length, option_to_list, true};
ghost use Rattle.receipt_reading.specs.{Printed.{IsPrinted}, ReceiptSearch.{IsReceiptSearch}};

use crate::front::{before_letter, printed_in_front};
use crate::printed_receipt::{LONGEST_RECEIPT, PrintedReceipt};

/// Looks for the first receipt of a text that is a part of a roll. Answers how many bytes are passed, those of the
/// receipt among them. If none is found, the bytes left are so few that bytes that follow may make a receipt of them;
/// none follow if the roll has ended.
pub(crate) fn find_receipt(text: &[u8], ended: bool) -> (usize, Option<PrintedReceipt>)
    ensures looks { IsReceiptSearch ended text.now result.0 (option_to_list result.1) }
    ensures receipt { IfSome result.1 IsPrinted }
    ensures few { IfNone result.1 (length text.now < result.0 + 480) }
    ensures all { IfNone result.1 (ended ≡ true → result.0 ≡ length text.now) }
{
    let mut at = 0;
    loop {
        at += before_letter(&text[at..]);
        let rest = &text[at..];
        if let Some(receipt) = printed_in_front(rest) {
            return (at + receipt.text.len(), Some(receipt));
        }
        if is_open(rest, ended) {
            return (at, None);
        }
        at += 1;
    }
}

/// Whether nothing is left, or so little that bytes that follow may make a receipt of it.
fn is_open(rest: &[u8], ended: bool) -> bool
    ensures open { IsTrue result → (length rest.now < 480) × (ended ≡ true → length rest.now ≡ 0) }
    ensures closed { result ≡ false → (0 < length rest.now) × (ended ≡ false → 480 ≤ length rest.now) }
{
    rest.is_empty() || (!ended && rest.len() < LONGEST_RECEIPT)
}
