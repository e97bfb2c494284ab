//! The lines of a receipt's number and kind.
ghost use Rattle.std.specs.Prelude.{◌++◌, ◌+◌, ◌↔◌, ◌≡◌, ◌≤◌, IsOk, OnOk, length};
ghost use Rattle.{arrayvec.specs.ArrayVec.{array_vec_len}, receipt_text.specs.Receipts.{heading_text, kind_text}};
ghost use Rattle.receipt_text.specs.Common.{line_size};

use crate::fields::put_figure;
use taxi_units::{Kind, Line, LineFull, put_bytes};

/// What these lines say.
#[derive(Clone, Copy)]
pub struct Heading {
    pub number: u64,
    pub kind: Kind,
}

/// Appends the lines of the number and the kind.
#[tactic(auto, unfolding(crate::specs::Receipts::heading_text))]
pub(crate) fn put_heading(line: &mut Line, number: u64, kind: Kind) -> Result<(), LineFull>
    ensures variant { IsOk result ↔ (array_vec_len line.old + length (heading_text number kind) ≤ line_size) }
    ensures ok { OnOk result (line.new.items ≡ line.old.items ++ heading_text number kind) }
{
    put_figure(line, b"RECEIPT ", number as u128)?;
    put_bytes(line, b"\nKIND ")?;
    put_kind(line, kind)?;
    put_bytes(line, b"\n")
}

/// Appends how a hiring ended.
pub(crate) fn put_kind(line: &mut Line, kind: Kind) -> Result<(), LineFull>
    ensures variant { IsOk result ↔ (array_vec_len line.old + length (kind_text kind) ≤ line_size) }
    ensures ok { OnOk result (line.new.items ≡ line.old.items ++ kind_text kind) }
{
    match kind {
        Kind::Closed => put_bytes(line, b"CLOSED"),
        Kind::Aborted => put_bytes(line, b"ABORTED"),
        Kind::Expired => put_bytes(line, b"EXPIRED"),
        Kind::Roam => put_bytes(line, b""),
    }
}
