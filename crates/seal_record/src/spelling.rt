//! The bytes of a seal.
ghost use Rattle.std.specs.Prelude.{[], ◌*◌, ◌++◌, ◌+◌, ◌≡◌, ◌≤◌, flat_map, length};
ghost use Rattle.{arrayvec.specs.ArrayVec.{array_vec_len}, slot_bodies.specs.Bodies.{body_size}};
ghost use Rattle.seal_record.specs.{Common.{IsOffset, IsOffsetList}, Spelling.{settings_bytes, spelling}};
ghost use Rattle.seal_record.specs.{Limits.{longest_taxi}, Ranges.{IsSeal}};
ghost use Rattle.seal_record.specs.Spelling.{mode_byte, offset_bytes, offset_size, offsets_size, padded, pair_bytes};

use crate::params::LONGEST_TAXI;
use crate::{Params, Seal};
use drive_modes::Mode;
use slot_bodies::{Spelled, put_bytes, put_zeros};

/// How many bytes a pair of a list of offsets has.
pub(crate) const OFFSET_SIZE: usize = 12;

/// How many bytes the longest list of offsets has.
const OFFSETS_SIZE: usize = 384;

/// How many bytes between the decimals and the layout are spare.
const SPARE_SIZE: usize = 57;

/// The layout of a seal.
const LAYOUT: u8 = 1;

/// The byte of a mode, in a seal's body and in a reply of the data port: 0 for Single, 1 for Double. It is
/// this project's own.
pub fn mode_byte(mode: Mode) -> u8
    ensures { result ≡ mode_byte mode }
{
    match mode {
        Mode::Single => 0,
        Mode::Double => 1,
    }
}

/// Appends a pair of a list of offsets.
fn put_pair(out: &mut Spelled, pair: (u64, i32))
    requires room { array_vec_len out.old + offset_size ≤ body_size }
    requires offset { IsOffset pair.1 }
    ensures items { out.new.items ≡ out.old.items ++ pair_bytes pair }
    ensures len { array_vec_len out.new ≡ array_vec_len out.old + offset_size }
{
    put_bytes(out, &pair.0.to_be_bytes());
    put_bytes(out, &pair.1.to_be_bytes());
}

/// Appends the pairs of a list of offsets.
#[tactic(auto, using(crate::proofs::Pairs::one_more_pair))]
fn put_pairs(out: &mut Spelled, pairs: &[(u64, i32)])
    requires lawful { IsOffsetList pairs.now }
    requires room { array_vec_len out.old + offsets_size ≤ body_size }
    ensures items { out.new.items ≡ out.old.items ++ flat_map pair_bytes pairs.now }
    ensures len { array_vec_len out.new ≡ array_vec_len out.old + offset_size * length pairs.now }
{
    for pair in pairs {
        put_pair(out, *pair);
    }
}

/// Appends a taxi identifier, with zeros behind it up to 16 bytes.
fn put_taxi(out: &mut Spelled, taxi: &[u8])
    requires few { length taxi.now ≤ longest_taxi }
    requires room { array_vec_len out.old + longest_taxi ≤ body_size }
    ensures items { out.new.items ≡ out.old.items ++ padded longest_taxi taxi.now }
    ensures len { array_vec_len out.new ≡ array_vec_len out.old + longest_taxi }
{
    put_bytes(out, taxi);
    put_zeros(out, LONGEST_TAXI - taxi.len());
}

/// Appends the bytes of a list of offsets.
fn put_offsets(out: &mut Spelled, pairs: &[(u64, i32)])
    requires lawful { IsOffsetList pairs.now }
    requires room { array_vec_len out.old + 385 ≤ body_size }
    ensures items { out.new.items ≡ out.old.items ++ offset_bytes pairs.now [] }
    ensures len { array_vec_len out.new ≡ array_vec_len out.old + 385 }
{
    put_bytes(out, &[pairs.len() as u8]);
    put_pairs(out, pairs);
    put_zeros(out, OFFSETS_SIZE - OFFSET_SIZE * pairs.len());
}

/// Appends the settings: the constant, the mode and the hold time.
fn put_settings(out: &mut Spelled, params: &Params)
    requires { array_vec_len out.old + 7 ≤ body_size }
    ensures items { out.new.items ≡ out.old.items ++ settings_bytes params.now }
    ensures len { array_vec_len out.new ≡ array_vec_len out.old + 7 }
{
    put_bytes(out, &params.constant.get().to_be_bytes());
    put_bytes(out, &[mode_byte(params.mode)]);
    put_bytes(out, &params.hold_time.to_be_bytes());
}

/// The bytes of a seal in its ranges.
pub(crate) fn spell(seal: &Seal) -> Spelled
    requires { IsSeal seal.now }
    ensures { result.items ≡ spelling seal.now }
{
    let params = &seal.params;
    let mut out = Spelled::new();
    put_bytes(&mut out, &seal.seal_number.to_be_bytes());
    put_taxi(&mut out, params.taxi.as_slice());
    put_settings(&mut out, params);
    put_bytes(&mut out, &seal.digest);
    put_bytes(&mut out, &params.secured.to_be_bytes());
    put_offsets(&mut out, params.offsets.pairs());
    put_bytes(&mut out, &[seal.decimals]);
    put_zeros(&mut out, SPARE_SIZE);
    put_bytes(&mut out, &[LAYOUT]);
    out
}
