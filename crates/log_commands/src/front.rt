//! A receipt at the front of a part of a roll.
ghost use Rattle.std.specs.Prelude.{ℕ, ◌++◌, ◌<◌, ◌≡◌, ◌≢◌, ◌≤◌, IfNone, IfSome, drop, length, slice_index};
ghost use Rattle.log_commands.specs.{Record.{IsRecord}, Roll.{BeginsWithNone}};

use crate::log_record::LogRecord;
use arrayvec::ArrayVec;
use receipt_reading::receipt_in_front;

/// How many bytes are in front of the first with which a receipt can begin: all if there is none.
pub(crate) fn before_letter(text: &[u8]) -> usize
    ensures within { result ≤ length text.now }
    ensures others { (k : ℕ) → k < result → slice_index text.now k ≢ 82 }
{
    text.iter()
        .position(|byte| *byte == b'R')
        .unwrap_or(text.len())
}

/// The receipt with which a text begins.
pub(crate) fn record_in_front(text: &[u8]) -> Option<LogRecord>
    ensures record { IfSome result IsRecord }
    ensures front { IfSome result (λ r. text.now ≡ r.text ++ drop (length r.text) text.now) }
    ensures none { IfNone result (BeginsWithNone text.now) }
{
    let (receipt, part, count) = receipt_in_front(text)?;
    let (front, _) = text.split_at(count);
    let mut text = ArrayVec::new();
    text.try_extend_from_slice(front).unwrap();
    Some(LogRecord {
        text,
        number: receipt.number,
        taxi: part.taxi,
    })
}
