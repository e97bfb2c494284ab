//! The contents of the items.
ghost use Rattle.std.specs.Prelude.{◌++◌, ◌+◌, ◌≡◌, ◌≤◌, length, replicate};
ghost use Rattle.{arrayvec.specs.ArrayVec.{array_vec_len}, taxi_units.specs.Money.{largest_amount}};
ghost use Rattle.data_port.specs.Common.{IsDurable, IsSeal, eight, four, line_size, padded, share_bytes, sixteen};
ghost use Rattle.data_port.specs.Items.{content, held_content, held_trip, held_values, item_count, shares_content};
ghost use Rattle.data_port.specs.Items.{size_of, trip_content};

use drive_modes::{Constant, millimetres};
use seal_record::{Seal, mode_byte};
use taxi_units::{Line, push_bytes};
use totals_record::{Durable, Share, Totals, Trip};

/// Appends a number in four bytes.
fn put_four(line: &mut Line, n: u32)
    requires { array_vec_len line.old + 4 ≤ line_size }
    ensures items { line.new.items ≡ line.old.items ++ four n }
    ensures len { array_vec_len line.new ≡ array_vec_len line.old + 4 }
{
    push_bytes(line, &n.to_be_bytes());
}

/// Appends a number in eight bytes.
fn put_eight(line: &mut Line, n: u64)
    requires { array_vec_len line.old + 8 ≤ line_size }
    ensures items { line.new.items ≡ line.old.items ++ eight n }
    ensures len { array_vec_len line.new ≡ array_vec_len line.old + 8 }
{
    push_bytes(line, &n.to_be_bytes());
}

/// Two to the 64.
const HALF: u128 = 1 << 64;

/// Appends a number in sixteen bytes.
fn put_sixteen(line: &mut Line, n: u128)
    requires { array_vec_len line.old + 16 ≤ line_size }
    ensures items { line.new.items ≡ line.old.items ++ sixteen n }
    ensures len { array_vec_len line.new ≡ array_vec_len line.old + 16 }
{
    put_eight(line, (n / HALF) as u64);
    put_eight(line, (n % HALF) as u64);
}

/// Appends zeros.
fn put_zeros(line: &mut Line, count: usize)
    requires { array_vec_len line.old + count ≤ line_size }
    ensures items { line.new.items ≡ line.old.items ++ replicate count 0 }
    ensures len { array_vec_len line.new ≡ array_vec_len line.old + count }
{
    for _i in 0..count {
        push_bytes(line, &[0]);
    }
}

/// Appends a taxi identifier, with zeros behind it up to 16 bytes.
fn put_taxi(line: &mut Line, taxi: &[u8])
    requires few { length taxi.now ≤ 16 }
    requires room { array_vec_len line.old + 16 ≤ line_size }
    ensures items { line.new.items ≡ line.old.items ++ padded 16 taxi.now }
    ensures len { array_vec_len line.new ≡ array_vec_len line.old + 16 }
{
    push_bytes(line, taxi);
    put_zeros(line, 16 - taxi.len());
}

/// Appends what is told of a held trip.
fn put_trip(line: &mut Line, constant: Constant, trip: &Trip)
    requires room { array_vec_len line.old + 56 ≤ line_size }
    requires initial { trip.now.initial ≤ largest_amount }
    ensures items { line.new.items ≡ line.old.items ++ trip_content (held_trip constant trip.now) }
    ensures len { array_vec_len line.new ≡ array_vec_len line.old + 56 }
{
    put_eight(line, trip.started);
    put_eight(line, trip.saved);
    put_sixteen(line, millimetres(constant, trip.pulses));
    put_four(line, trip.ticks);
    put_eight(line, trip.extras_sum);
    put_four(line, trip.initial as u32);
    put_eight(line, trip.meterage.steps_full);
}

/// Appends whether a trip is held, and what is told of it, or zeros.
fn put_held(line: &mut Line, constant: Constant, durable: &Durable)
    requires room { array_vec_len line.old + 57 ≤ line_size }
    requires durable { IsDurable durable.now }
    ensures items { line.new.items ≡ line.old.items ++ held_content (held_values constant durable.now.hold) }
    ensures len { array_vec_len line.new ≡ array_vec_len line.old + 57 }
{
    match &durable.hold {
        Some(trip) => {
            push_bytes(line, &[1]);
            put_trip(line, constant, trip);
        }
        None => push_bytes(line, &[0; 57]),
    }
}

/// Appends a share.
fn put_share(line: &mut Line, share: &Share)
    requires { array_vec_len line.old + 24 ≤ line_size }
    ensures items { line.new.items ≡ line.old.items ++ share_bytes share.now }
    ensures len { array_vec_len line.new ≡ array_vec_len line.old + 24 }
{
    put_eight(line, share.hirings);
    put_sixteen(line, share.fare);
}

/// Appends the shares of the nine tariff positions, and what was counted before there were shares.
#[tactic(auto, using(crate::proofs::Parts::one_more))]
fn put_shares(line: &mut Line, totals: &Totals)
    requires nine { length totals.now.shares ≡ 9 }
    requires room { array_vec_len line.old + 240 ≤ line_size }
    ensures items { line.new.items ≡ line.old.items ++ shares_content totals.now }
{
    for share in &totals.shares {
        put_share(line, share);
    }
    put_share(line, &totals.before);
}

/// How many items there are; their codes count from 1.
pub(crate) const ITEM_COUNT: usize = 13;

/// Appends the content of an item.
pub(crate) fn put_content(line: &mut Line, code: u8, durable: &Durable, seal: &Seal)
    requires code { (1 ≤ code) × (code ≤ item_count) }
    requires room { array_vec_len line.old + size_of code ≤ line_size }
    requires durable { IsDurable durable.now }
    requires seal { IsSeal seal.now }
    ensures { line.new.items ≡ line.old.items ++ content durable.now seal.now code }
{
    let params = &seal.params;
    let totals = &durable.totals;
    match code {
        1 => put_taxi(line, params.taxi.as_slice()),
        2 => put_four(line, params.constant.get()),
        3 => push_bytes(line, &params.secured.to_be_bytes()),
        4 => push_bytes(line, &seal.digest),
        5 => push_bytes(line, &[mode_byte(params.mode)]),
        6 => put_eight(line, durable.number),
        7 => put_sixteen(line, totals.distance_mm),
        8 => put_sixteen(line, totals.hired_mm),
        9 => put_eight(line, totals.hirings),
        10 => put_sixteen(line, totals.supplements),
        11 => put_sixteen(line, totals.fare),
        12 => put_held(line, params.constant, durable),
        _ => put_shares(line, totals),
    }
}
