//! What a receipt says of the meter's seal, and its lines.
ghost use Rattle.std.specs.Prelude.{◌++◌, ◌+◌, ◌↔◌, ◌≡◌, ◌≤◌, IsOk, OnOk, codes, length};
ghost use Rattle.{arrayvec.specs.ArrayVec.{array_vec_len}, receipt_text.specs.Common.{IsDay, IsSeal, line_size}};
ghost use Rattle.receipt_text.specs.{Part.{IsDigest, IsPart}, Receipts.{day_text, part_text}, SealParts.{part_of_seal}};

use crate::digest::hex_of;
use crate::fields::{put_figure, put_text};
use crate::stamps::put_day;
use arrayvec::ArrayVec;
use seal_record::Seal;
use std::marker::Model;
use taxi_units::{Line, LineFull, put_bytes};

/// What a receipt says of the seal of the meter that wrote it.
#[derive(Drop)]
pub struct SealPart {
    /// The taxi identifier: 1 to 16 characters of A to Z, 0 to 9 and `-`.
    pub taxi: ArrayVec<u8, 16>,
    /// The constant of the distance signal generator, in pulses per kilometre: 500 to 200,000.
    pub constant: u32,
    /// The day number of the date of securing, of the years 2000 to 2199: 10,957 to 84,005.
    pub secured: i32,
    /// The SHA-256 of the tariff's text.
    pub digest: [u8; 32],
}

impl Model for SealPart {
    ghost use Rattle.receipt_text.specs.Part.{Part};

    ghost Value = { Part };

    ghost view = { λ p. record { taxi = p.taxi.items; constant = p.constant; secured = p.secured; digest = p.digest } };
}

/// What a receipt says of a seal.
#[tactic(auto, using(crate::proofs::Sealed::sealed_part))]
pub(crate) fn part_of_seal(seal: &Seal) -> SealPart
    requires { IsSeal seal.now }
    ensures part { result ≡ part_of_seal seal.now }
    ensures range { IsPart result }
{
    recall(&seal.digest);
    let mut taxi = ArrayVec::new();
    taxi.try_extend_from_slice(seal.params.taxi.as_slice())
        .unwrap();
    SealPart {
        taxi,
        constant: seal.params.constant.get(),
        secured: seal.params.secured,
        digest: seal.digest,
    }
}

/// Tells the prover that each of 32 bytes is below 256. It does nothing at run time.
fn recall(bytes: &[u8])
    requires { length bytes.now ≡ 32 }
    ensures { IsDigest bytes.now }
{}

/// Appends the lines of the seal.
#[tactic(auto, unfolding(crate::specs::Receipts::part_text))]
pub(crate) fn put_part(line: &mut Line, part: &SealPart) -> Result<(), LineFull>
    requires { IsDay part.now.secured }
    ensures variant { IsOk result ↔ (array_vec_len line.old + length (part_text part.now) ≤ line_size) }
    ensures ok { OnOk result (line.new.items ≡ line.old.items ++ part_text part.now) }
{
    put_text(line, b"TAXI ", part.taxi.as_slice())?;
    put_figure(line, b"\nCONSTANT ", part.constant as u128)?;
    put_secured(line, part.secured)?;
    put_text(line, b"\nTARIFF ", hex_of(&part.digest).as_slice())?;
    put_bytes(line, b"\n")
}

/// Appends the word of the date of securing, and the date of its day number.
fn put_secured(line: &mut Line, secured: i32) -> Result<(), LineFull>
    requires { IsDay secured }
    ensures variant { IsOk result ↔ (array_vec_len line.old + 9 + length (day_text secured) ≤ line_size) }
    ensures ok { OnOk result (line.new.items ≡ line.old.items ++ (codes "\nSECURED " ++ day_text secured)) }
{
    put_bytes(line, b"\nSECURED ")?;
    put_day(line, secured)
}
