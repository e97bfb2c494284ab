//! A record's bytes in its slot, behind the gate.
ghost use Rattle.std.specs.Prelude.{ℕ, ◌+◌, ◌↔◌, ◌≡◌, ◌≤◌, IsTrue, Some, drop, length, take};
ghost use Rattle.{arrayvec.specs.ArrayVec.{array_vec_len}, log_commands.specs.Slots.{IsRecordOf, Spells, spelling}};
ghost use Rattle.log_commands.specs.Record.{IsRecord, Record};

use crate::log_record::{LONGEST, LogRecord};
use arrayvec::ArrayVec;
use receipt_reading::read_receipt;
use slot_bodies::{Spelled, eight_at, put_bytes, put_zeros, two_at};

/// The bytes of a record at a place in the log.
pub(crate) fn spelled(place: u64, text: &[u8]) -> Spelled
    requires { length text.now ≤ 480 }
    ensures items { result.items ≡ spelling place text.now }
    ensures len { array_vec_len result ≡ 511 }
{
    let mut out = Spelled::new();
    put_bytes(&mut out, &place.to_be_bytes());
    put_bytes(&mut out, &(text.len() as u16).to_be_bytes());
    put_bytes(&mut out, text);
    put_zeros(&mut out, 500 - text.len());
    put_bytes(&mut out, &[1]);
    out
}

/// The record whose text this is.
pub(crate) fn record_of(text: &[u8]) -> Option<LogRecord>
    ensures { (it : Record) → (result ≡ Some it) ↔ IsRecordOf text.now it }
{
    let (receipt, part) = read_receipt(text)?;
    let mut copy = ArrayVec::new();
    copy.try_extend_from_slice(text).unwrap();
    Some(LogRecord {
        text: copy,
        number: receipt.number,
        taxi: part.taxi,
    })
}

/// Whether the bytes behind a slot's gate are this record's, at this place in the log.
fn spells(bytes: &[u8], place: u64, it: &LogRecord) -> bool
    requires { IsRecord it.now }
    ensures { IsTrue result ↔ Spells bytes.now place it.now }
{
    if place == 0 || place > it.number {
        return false;
    }
    spelled(place, it.text.as_slice()).as_slice() == bytes
}

/// The place in the log and the record that the bytes behind a slot's gate are. `None` exactly if they are none.
pub(crate) fn record_in(bytes: &[u8]) -> Option<(u64, LogRecord)>
    requires { length bytes.now ≡ 511 }
    ensures { (place : ℕ) (it : Record) → (result ≡ Some (place, it)) ↔ Spells bytes.now place it }
{
    let place = eight_at(bytes, 0);
    let count = two_at(bytes, 8) as usize;
    if count > LONGEST {
        return None;
    }
    let record = record_of(text_in(bytes, count))?;
    if !spells(bytes, place, &record) {
        return None;
    }
    Some((place, record))
}

/// The text of a record's bytes.
fn text_in(bytes: &[u8], count: usize) -> &[u8]
    requires { 10 + count ≤ length bytes.now }
    ensures { result.now ≡ take count (drop 10 bytes.now) }
{
    &bytes[10..10 + count]
}
