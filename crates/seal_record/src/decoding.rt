//! The fields of a seal at their places in bytes.
ghost use Rattle.std.specs.{Int.{w32}, Prelude.{◌+◌, ◌≡◌, ◌≤◌, FitsSigned, MatchOption, length}};
ghost use Rattle.seal_record.specs.{Common.{IsOffsetList, read_row}, Limits.{most_offsets}};
ghost use Rattle.seal_record.specs.{Decoding.{decoded, pair_table, signed_at}, Ranges.{IsParams, IsSeal, IsTaxi}};
ghost use Rattle.seal_record.specs.Decoding as spec;

use crate::lines::before;
use crate::offset_list::offsets_of;
use crate::params::{FIRST_DAY, LAST_DAY, LONGEST_HOLD, LONGEST_TAXI, MOST_OFFSETS};
use crate::seal::DIGEST_SIZE;
use crate::spelling::OFFSET_SIZE;
use crate::{Params, Seal, values};
use arrayvec::ArrayVec;
use drive_modes::{Constant, Mode};
use interval_clock::Offsets;
use slot_bodies::{BODY_SIZE, eight_at, four_at, two_at};

/// The number of the last seal that a store may have.
pub const LAST_SEAL_NUMBER: u64 = 1_000_000_000_000_000;

/// How many decimals a tariff's money has at most.
const MOST_DECIMALS: u8 = 3;

/// The signed number in the four bytes from a place on.
fn signed_at(bytes: &[u8], at: usize) -> i32
    requires { at + 4 ≤ length bytes.now }
    ensures value { result ≡ signed_at bytes.now at }
    ensures fits { FitsSigned w32 result }
{
    let mut part = [0; 4];
    part.copy_from_slice(&bytes[at..at + 4]);
    i32::from_be_bytes(part)
}

/// The mode of a byte.
fn mode_in(byte: u8) -> Mode
    ensures { result ≡ spec.mode_in byte }
{
    if byte == 1 {
        Mode::Double
    } else {
        Mode::Single
    }
}

/// The pairs of the list of offsets, `count` of them.
fn pairs_in(count: usize, bytes: &[u8; BODY_SIZE]) -> ArrayVec<(u64, i32), MOST_OFFSETS>
    requires { count ≤ most_offsets }
    ensures { result.items ≡ read_row pair_table count bytes.now 68 }
{
    let mut pairs = ArrayVec::new();
    for i in 0..count {
        pairs.push((
            eight_at(bytes, 68 + OFFSET_SIZE * i),
            signed_at(bytes, 68 + OFFSET_SIZE * i + 8),
        ));
    }
    pairs
}

/// The offsets, if they are lawful.
fn offsets_in(bytes: &[u8; BODY_SIZE]) -> Option<Offsets>
    ensures { MatchOption result (¬ IsOffsetList (spec.params_in bytes.now).offsets)
        (λ offsets. (offsets ≡ (spec.params_in bytes.now).offsets) × IsOffsetList offsets) }
{
    let count = bytes[67] as usize;
    if count > MOST_OFFSETS {
        return None;
    }
    offsets_of(pairs_in(count, bytes).as_slice())
}

/// The taxi identifier, if it is one.
fn taxi_in(bytes: &[u8; BODY_SIZE]) -> Option<ArrayVec<u8, LONGEST_TAXI>>
    ensures { MatchOption result (¬ IsTaxi (spec.params_in bytes.now).taxi.items)
        (λ taxi. (taxi.items ≡ (spec.params_in bytes.now).taxi.items) × IsTaxi taxi.items) }
{
    values::taxi(before(&bytes[8..24], 0))
}

/// The parameters, if they are in their ranges.
fn params_in(bytes: &[u8; BODY_SIZE]) -> Option<Params>
    ensures { MatchOption result (¬ IsParams (spec.params_in bytes.now))
        (λ params. (params ≡ spec.params_in bytes.now) × IsParams params) }
{
    let taxi = taxi_in(bytes)?;
    let Ok(constant) = Constant::new(four_at(bytes, 24)) else {
        return None;
    };
    let hold_time = two_at(bytes, 29);
    if hold_time > LONGEST_HOLD {
        return None;
    }
    let secured = signed_at(bytes, 63);
    if secured < FIRST_DAY || secured > LAST_DAY {
        return None;
    }
    let offsets = offsets_in(bytes)?;
    Some(Params {
        taxi,
        constant,
        mode: mode_in(bytes[28]),
        hold_time,
        offsets,
        secured,
    })
}

/// The seal, if it is in its ranges.
pub(crate) fn seal_in(bytes: &[u8; BODY_SIZE]) -> Option<Seal>
    ensures { MatchOption result (¬ IsSeal (decoded bytes.now))
        (λ seal. (seal ≡ decoded bytes.now) × IsSeal seal) }
{
    let seal_number = eight_at(bytes, 0);
    if seal_number < 1 || seal_number > LAST_SEAL_NUMBER {
        return None;
    }
    let params = params_in(bytes)?;
    let decimals = bytes[452];
    if decimals > MOST_DECIMALS {
        return None;
    }
    let mut digest = [0; DIGEST_SIZE];
    digest.copy_from_slice(&bytes[31..63]);
    Some(Seal {
        seal_number,
        params,
        digest,
        decimals,
    })
}
