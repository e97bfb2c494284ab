//! Numbers in bytes, the greatest byte first.
ghost use Rattle.std.specs.Prelude.{◌++◌, ◌+◌, ◌≡◌, ◌≤◌, length};
ghost use Rattle.{arrayvec.specs.ArrayVec.{array_vec_len}, slot_bodies.specs.BytesAt.{sixteen_at}};
ghost use Rattle.totals_record.specs.{Bytes.{bit, eight, four, sixteen}, Common.{body_size}};

use slot_bodies::{Spelled, eight_at, put_bytes};

/// Appends a number in four bytes.
pub fn put_four(out: &mut Spelled, n: u32)
    requires { array_vec_len out.old + 4 ≤ body_size }
    ensures items { out.new.items ≡ out.old.items ++ four n }
    ensures len { array_vec_len out.new ≡ array_vec_len out.old + 4 }
{
    put_bytes(out, &n.to_be_bytes());
}

/// Appends a number in eight bytes.
pub fn put_eight(out: &mut Spelled, n: u64)
    requires { array_vec_len out.old + 8 ≤ body_size }
    ensures items { out.new.items ≡ out.old.items ++ eight n }
    ensures len { array_vec_len out.new ≡ array_vec_len out.old + 8 }
{
    put_bytes(out, &n.to_be_bytes());
}

/// Two to the 64.
const HALF: u128 = 1 << 64;

/// Appends a number in sixteen bytes.
pub fn put_sixteen(out: &mut Spelled, n: u128)
    requires { array_vec_len out.old + 16 ≤ body_size }
    ensures items { out.new.items ≡ out.old.items ++ sixteen n }
    ensures len { array_vec_len out.new ≡ array_vec_len out.old + 16 }
{
    put_eight(out, (n / HALF) as u64);
    put_eight(out, (n % HALF) as u64);
}

/// Yes as 1, no as 0.
pub fn bit_of(yes: bool) -> u8
    ensures { result ≡ bit yes }
{
    if yes { 1 } else { 0 }
}

/// The number in the sixteen bytes from a place on.
pub fn sixteen_at(bytes: &[u8], at: usize) -> u128
    requires { at + 16 ≤ length bytes.now }
    ensures { result ≡ sixteen_at bytes.now at }
{
    let high = eight_at(bytes, at);
    let low = eight_at(bytes, at + 8);
    u128::from(high) * HALF + u128::from(low)
}
