//! The lines of a receipt's trip.
ghost use Rattle.std.specs.Prelude.{◌++◌, ◌+◌, ◌↔◌, ◌≡◌, ◌≤◌, IsOk, OnOk, length};
ghost use Rattle.arrayvec.specs.ArrayVec.{array_vec_len};
ghost use Rattle.receipt_text.specs.{Common.{line_size}, Receipts.{course_text, stamp_text, trip_text}};

use crate::fields::{put_amount, put_figure};
use crate::stamps::put_stamp;
use taxi_units::{Line, LineFull, Receipt, Stamp, put_bytes, word};

/// What the lines of a trip say.
#[derive(Clone, Copy)]
pub struct TripLines {
    pub start: Stamp,
    pub finish: Stamp,
    pub position: u8,
    pub hired_mm: u128,
}

/// Appends the lines of the trip.
#[tactic(auto, unfolding(crate::specs::Receipts::trip_text))]
pub(crate) fn put_trip(line: &mut Line, receipt: &Receipt) -> Result<(), LineFull>
    ensures variant { IsOk result ↔ (array_vec_len line.old + length (trip_text receipt.now) ≤ line_size) }
    ensures ok { OnOk result (line.new.items ≡ line.old.items ++ trip_text receipt.now) }
{
    put_course(line, receipt)?;
    put_bytes(line, b"\n")
}

/// Appends the lines of the trip, without the end of the last.
#[tactic(auto, unfolding(crate::specs::Receipts::course_text))]
pub(crate) fn put_course(line: &mut Line, receipt: &Receipt) -> Result<(), LineFull>
    ensures variant { IsOk result ↔ (array_vec_len line.old + length (course_text receipt.now) ≤ line_size) }
    ensures ok { OnOk result (line.new.items ≡ line.old.items ++ course_text receipt.now) }
{
    put_time(line, b"START ", &receipt.start)?;
    put_time(line, b"\nFINISH ", &receipt.finish)?;
    put_figure(line, b"\nPOSITION ", receipt.position as u128)?;
    put_amount(line, b"\nDISTANCE ", receipt.hired_mm, 3)?;
    put_bytes(line, b" m")
}

/// Appends a word and a local date and time.
fn put_time(line: &mut Line, word: &[u8], stamp: &Stamp) -> Result<(), LineFull>
    ensures variant { IsOk result
        ↔ (array_vec_len line.old + length word.now + length (stamp_text stamp.now) ≤ line_size) }
    ensures ok { OnOk result (line.new.items ≡ line.old.items ++ (word.now ++ stamp_text stamp.now)) }
{
    put_bytes(line, word)?;
    put_stamp(line, stamp)
}
