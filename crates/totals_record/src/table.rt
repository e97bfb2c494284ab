//! The table of a durable state: its bytes, one field behind the other, and the fields at their places in
//! bytes, each place one less than in the slot.
ghost use Rattle.std.specs.Prelude.{◌++◌, ◌+◌, ◌≡◌, ◌≤◌, drop, length, take};
ghost use Rattle.{arrayvec.specs.ArrayVec.{array_vec_len}, slot_bodies.specs.BytesAt.{eight_at, sixteen_at}};
ghost use Rattle.slot_bodies.specs.Codec.{optional, row};
ghost use Rattle.totals_record.specs.Common.{body_size, byte_at, largest_amount};
ghost use Rattle.totals_record.specs.{Ranges.{IsDurable}, Spelling.{shared_bytes, spelling, trip_bytes}};
ghost use Rattle.totals_record.specs.{Reading.{decoded}, Table.{found_before, meterage_table, share_table, trip_table}};
ghost use Rattle.totals_record.specs.Spelling.{course_bytes, head_bytes, held_bytes, meterage_bytes, share_bytes};

use crate::bytes::{bit_of, put_eight, put_four, put_sixteen, sixteen_at};
use crate::{Durable, Share, Totals, Trip};
use drive_modes::Meterage;
use slot_bodies::{BODY_SIZE, Spelled, eight_at, four_at, put_bytes};

/// The bytes of a state.
pub fn spell(durable: &Durable) -> [u8; BODY_SIZE]
    requires { IsDurable durable.now }
    ensures { result ≡ spelling durable.now }
{
    let mut out = Spelled::new();
    put_head(&mut out, durable.number, &durable.totals);
    put_held(&mut out, durable);
    put_shared(&mut out, durable.layout, &durable.totals);
    put_bytes(&mut out, &[durable.layout]);
    let mut bytes = [0; BODY_SIZE];
    bytes.copy_from_slice(out.as_slice());
    bytes
}

/// Appends the number and the five totals.
fn put_head(out: &mut Spelled, number: u64, totals: &Totals)
    requires { array_vec_len out.old + 80 ≤ body_size }
    ensures items { out.new.items ≡ out.old.items ++ head_bytes number totals.now }
    ensures len { array_vec_len out.new ≡ array_vec_len out.old + 80 }
{
    put_eight(out, number);
    put_sixteen(out, totals.distance_mm);
    put_sixteen(out, totals.hired_mm);
    put_eight(out, totals.hirings);
    put_sixteen(out, totals.supplements);
    put_sixteen(out, totals.fare);
}

/// Appends whether a trip is held, and the trip, or zeros.
fn put_held(out: &mut Spelled, durable: &Durable)
    requires room { array_vec_len out.old + 108 ≤ body_size }
    requires durable { IsDurable durable.now }
    ensures items { out.new.items ≡ out.old.items ++ held_bytes durable.now.hold }
    ensures len { array_vec_len out.new ≡ array_vec_len out.old + 108 }
{
    match &durable.hold {
        Some(trip) => {
            put_bytes(out, &[1]);
            put_trip(out, trip);
        }
        None => put_bytes(out, &[0; 108]),
    }
}

/// Appends how far a trip has come.
fn put_course(out: &mut Spelled, trip: &Trip)
    requires room { array_vec_len out.old + 39 ≤ body_size }
    requires initial { trip.now.initial ≤ largest_amount }
    ensures items { out.new.items ≡ out.old.items ++ course_bytes trip.now }
    ensures len { array_vec_len out.new ≡ array_vec_len out.old + 39 }
{
    put_eight(out, trip.started);
    put_eight(out, trip.saved);
    put_bytes(out, &[bit_of(trip.stopped)]);
    put_bytes(out, &[trip.position]);
    put_bytes(out, &[trip.zone]);
    put_four(out, trip.roam);
    put_eight(out, trip.pulses);
    put_four(out, trip.ticks);
    put_four(out, trip.initial as u32);
}

/// Appends what the charges of a trip have come to.
fn put_meterage(out: &mut Spelled, meterage: &Meterage)
    requires { array_vec_len out.old + 40 ≤ body_size }
    ensures items { out.new.items ≡ out.old.items ++ meterage_bytes meterage.now }
    ensures len { array_vec_len out.new ≡ array_vec_len out.old + 40 }
{
    put_sixteen(out, meterage.cover_left);
    put_eight(out, meterage.steps_full);
    put_sixteen(out, meterage.rest);
}

/// Appends a trip.
fn put_trip(out: &mut Spelled, trip: &Trip)
    requires room { array_vec_len out.old + 107 ≤ body_size }
    requires initial { trip.now.initial ≤ largest_amount }
    requires minimum { trip.now.minimum ≤ largest_amount }
    ensures items { out.new.items ≡ out.old.items ++ trip_bytes trip.now }
    ensures len { array_vec_len out.new ≡ array_vec_len out.old + 107 }
{
    put_course(out, trip);
    put_meterage(out, &trip.meterage);
    put_bytes(out, &trip.extras);
    put_eight(out, trip.extras_sum);
    put_four(out, trip.minimum as u32);
}

/// Appends the shares and what was counted before, or in layout 1 zeros.
fn put_shared(out: &mut Spelled, layout: u8, totals: &Totals)
    requires { array_vec_len out.old + 322 ≤ body_size }
    ensures items { out.new.items ≡ out.old.items ++ shared_bytes layout totals.now }
    ensures len { array_vec_len out.new ≡ array_vec_len out.old + 322 }
{
    if layout == 1 {
        put_bytes(out, &[0; 322]);
        return;
    }
    for share in &totals.shares {
        put_share(out, share);
    }
    put_share(out, &totals.before);
    put_bytes(out, &[0; 82]);
}

/// Appends a share.
fn put_share(out: &mut Spelled, share: &Share)
    requires { array_vec_len out.old + 24 ≤ body_size }
    ensures items { out.new.items ≡ out.old.items ++ share_bytes share.now }
    ensures len { array_vec_len out.new ≡ array_vec_len out.old + 24 }
{
    put_eight(out, share.hirings);
    put_sixteen(out, share.fare);
}

/// The state whose fields have these bytes, whatever they are.
pub fn decode(bytes: &[u8; BODY_SIZE]) -> Durable
    ensures { result ≡ decoded bytes.now }
{
    Durable {
        number: eight_at(bytes, 0),
        totals: Totals {
            distance_mm: sixteen_at(bytes, 8),
            hired_mm: sixteen_at(bytes, 24),
            hirings: eight_at(bytes, 40),
            supplements: sixteen_at(bytes, 48),
            fare: sixteen_at(bytes, 64),
            shares: shares_in(bytes),
            before: before_in(bytes),
        },
        hold: held_in(bytes),
        layout: bytes[510],
    }
}

/// What was counted before there were shares: in layout 1 all hirings and all fares.
fn before_in(bytes: &[u8; BODY_SIZE]) -> Share
    ensures { result ≡ found_before (byte_at bytes.now 510) (eight_at bytes.now 40) (sixteen_at bytes.now 64)
        (share_table.read bytes.now 404) }
{
    if bytes[510] == 1 {
        Share {
            hirings: eight_at(bytes, 40),
            fare: sixteen_at(bytes, 64),
        }
    } else {
        share_at(bytes, 404)
    }
}

/// The nine shares.
fn shares_in(bytes: &[u8; BODY_SIZE]) -> [Share; 9]
    ensures { result ≡ (row 9 share_table).read bytes.now 188 }
{
    [
        share_at(bytes, 188),
        share_at(bytes, 212),
        share_at(bytes, 236),
        share_at(bytes, 260),
        share_at(bytes, 284),
        share_at(bytes, 308),
        share_at(bytes, 332),
        share_at(bytes, 356),
        share_at(bytes, 380),
    ]
}

/// The share that begins at a place.
fn share_at(bytes: &[u8], at: usize) -> Share
    requires { at + 24 ≤ length bytes.now }
    ensures { result ≡ share_table.read bytes.now at }
{
    Share {
        hirings: eight_at(bytes, at),
        fare: sixteen_at(bytes, at + 8),
    }
}

/// The held trip, if there is one.
fn held_in(bytes: &[u8; BODY_SIZE]) -> Option<Trip>
    ensures { result ≡ (optional trip_table).read bytes.now 80 }
{
    if bytes[80] == 1 {
        Some(trip_in(bytes))
    } else {
        None
    }
}

/// The trip.
fn trip_in(bytes: &[u8; BODY_SIZE]) -> Trip
    ensures { result ≡ trip_table.read bytes.now 81 }
{
    Trip {
        started: eight_at(bytes, 81),
        saved: eight_at(bytes, 89),
        stopped: bytes[97] == 1,
        position: bytes[98],
        zone: bytes[99],
        roam: four_at(bytes, 100),
        pulses: eight_at(bytes, 104),
        ticks: four_at(bytes, 112),
        initial: four_at(bytes, 116) as u64,
        minimum: four_at(bytes, 184) as u64,
        meterage: meterage_in(bytes),
        extras: extras_in(bytes),
        extras_sum: eight_at(bytes, 176),
    }
}

/// What the charges of the trip have come to.
fn meterage_in(bytes: &[u8; BODY_SIZE]) -> Meterage
    ensures { result ≡ meterage_table.read bytes.now 120 }
{
    Meterage {
        cover_left: sixteen_at(bytes, 120),
        steps_full: eight_at(bytes, 136),
        rest: sixteen_at(bytes, 144),
    }
}

/// How often each supplement of the trip was taken.
fn extras_in(bytes: &[u8; BODY_SIZE]) -> [u8; 16]
    ensures { result ≡ take 16 (drop 160 bytes.now) }
{
    let mut extras = [0; 16];
    extras.copy_from_slice(&bytes[160..176]);
    extras
}
