//! Writes the line of one event.
ghost use Rattle.std.specs.Prelude.{◌++◌, ◌+◌, ◌<◌, ◌^◌, ◌↔◌, ◌≡◌, ◌≤◌, IsOk, OnErr, OnOk, decimal, length};
ghost use Rattle.{arrayvec.specs.ArrayVec.{array_vec_len}, taxi_units.specs.Line.{line_size}};
ghost use Rattle.drive_text.specs.{Ranges.{IsInRange}, Written.{event_fields, event_text}};

use crate::keys::put_key;
use taxi_units::{Event, Line, LineFull, put_bytes, put_number};

/// Appends the line of an event: its fields without leading zeros, with one blank between them, and an LF. A reader
/// reads that event from it.
///
/// `LineFull` if it doesn't fit; the line is then unchanged. The event's numbers are in the ranges of a drive: seconds
/// are 946,684,800 to 7,258,118,399, pulses 1 to 65,535, keys' numbers 0 to 99.
pub fn put_event(line: &mut Line, event: Event) -> Result<(), LineFull>
    requires { IsInRange event }
    ensures variant { IsOk result ↔ (array_vec_len line.old + length (event_text event) ≤ line_size) }
    ensures ok { OnOk result (line.new.items ≡ line.old.items ++ event_text event) }
    ensures err { OnErr result (line.new ≡ line.old) }
{
    let mut draft = Line::new();
    put_fields(&mut draft, event)?;
    put_bytes(&mut draft, b"\n")?;
    put_bytes(line, draft.as_slice())
}

/// Appends the fields of an event.
#[tactic(auto, unfolding(crate::specs::Written::event_fields))]
fn put_fields(draft: &mut Line, event: Event) -> Result<(), LineFull>
    requires range { IsInRange event }
    requires room { array_vec_len draft.old ≤ 400 }
    ensures always { IsOk result }
    ensures fields { draft.new.items ≡ draft.old.items ++ event_fields event }
    ensures len { array_vec_len draft.new ≤ array_vec_len draft.old + 20 }
{
    match event {
        Event::Up(second) => put_numbered(draft, b"U ", second),
        Event::Down => put_bytes(draft, b"D"),
        Event::Pulses(pulses) => put_numbered(draft, b"P ", pulses as u64),
        Event::Tick => put_bytes(draft, b"T"),
        Event::Clock(second) => put_numbered(draft, b"C ", second),
        Event::Key(key) => {
            put_bytes(draft, b"K ")?;
            put_key(draft, key)
        }
    }
}

/// Appends a name and its blank, and a number.
pub(crate) fn put_numbered(draft: &mut Line, name: &[u8], number: u64) -> Result<(), LineFull>
    requires name { length name.now ≤ 2 }
    requires number { number < 10 ^ 12 }
    requires room { array_vec_len draft.old ≤ 402 }
    ensures always { IsOk result }
    ensures fields { draft.new.items ≡ draft.old.items ++ (name.now ++ decimal number) }
    ensures len { array_vec_len draft.new ≤ array_vec_len draft.old + 14 }
{
    put_bytes(draft, name)?;
    put_number(draft, number as u128)
}
