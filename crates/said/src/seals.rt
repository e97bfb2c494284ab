//! What the warnings behind a sealing and a run go by: the seal that was found, and the one that there is.
use outside::SEALS_SIZE;
use seal_record::Seal;
use slot_bodies::{BODY_SIZE, Body};

/// The gate of a slot that is open.
const OPEN: u8 = 0xA5;

/// The seal in a slot, if it is open and its body is read.
fn seal_in(slot: &[u8]) -> Option<Seal> {
    let (gate, body) = slot.split_first()?;
    if *gate != OPEN {
        return None;
    }
    let body: &[u8; BODY_SIZE] = body.try_into().ok()?;
    Seal::get(body)
}

/// The later of two seals.
fn later(one: Option<Seal>, other: Option<Seal>) -> Option<Seal> {
    match (one, other) {
        (Some(one), Some(other)) => {
            if one.seal_number > other.seal_number {
                Some(one)
            } else {
                Some(other)
            }
        }
        (None, other) => other,
        (one, None) => one,
    }
}

/// The seal for which the bytes of both slots stand.
pub(crate) fn seal_of(bytes: &[u8; SEALS_SIZE]) -> Option<Seal> {
    let (first, second) = bytes.split_at(SEALS_SIZE / 2);
    later(seal_in(first), seal_in(second))
}
