//! The bytes of a body, one field after another. Numbers have their greatest byte first.
ghost use Rattle.std.specs.Prelude.{◌++◌, ◌+◌, ◌≡◌, ◌≤◌, length, replicate};
ghost use Rattle.{arrayvec.specs.ArrayVec.{array_vec_len}, slot_bodies.specs.BytesAt.{eight_at, four_at, two_at}};
ghost use Rattle.slot_bodies.specs.Bodies.{body_size};

use crate::body::BODY_SIZE;
use arrayvec::ArrayVec;

/// A body that is being spelled.
pub type Spelled = ArrayVec<u8, BODY_SIZE>;

/// Appends bytes, for which there is room.
pub fn put_bytes(out: &mut Spelled, bytes: &[u8])
    requires { array_vec_len out.old + length bytes.now ≤ body_size }
    ensures items { out.new.items ≡ out.old.items ++ bytes.now }
    ensures len { array_vec_len out.new ≡ array_vec_len out.old + length bytes.now }
{
    let _ = out.try_extend_from_slice(bytes);
}

/// Appends zeros, for which there is room.
pub fn put_zeros(out: &mut Spelled, count: usize)
    requires { array_vec_len out.old + count ≤ body_size }
    ensures items { out.new.items ≡ out.old.items ++ replicate count 0 }
    ensures len { array_vec_len out.new ≡ array_vec_len out.old + count }
{
    for _i in 0..count {
        put_bytes(out, &[0]);
    }
}

/// The number in the two bytes from a place on.
pub fn two_at(bytes: &[u8], at: usize) -> u16
    requires { at + 2 ≤ length bytes.now }
    ensures { result ≡ two_at bytes.now at }
{
    let mut part = [0; 2];
    part.copy_from_slice(&bytes[at..at + 2]);
    u16::from_be_bytes(part)
}

/// The number in the four bytes from a place on.
pub fn four_at(bytes: &[u8], at: usize) -> u32
    requires { at + 4 ≤ length bytes.now }
    ensures { result ≡ four_at bytes.now at }
{
    let mut part = [0; 4];
    part.copy_from_slice(&bytes[at..at + 4]);
    u32::from_be_bytes(part)
}

/// The number in the eight bytes from a place on.
pub fn eight_at(bytes: &[u8], at: usize) -> u64
    requires { at + 8 ≤ length bytes.now }
    ensures { result ≡ eight_at bytes.now at }
{
    let mut part = [0; 8];
    part.copy_from_slice(&bytes[at..at + 8]);
    u64::from_be_bytes(part)
}
