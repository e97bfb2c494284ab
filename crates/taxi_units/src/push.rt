//! Texts that are appended to a line with room for them.
ghost use Rattle.std.specs.{Fmt.{decimal}, Prelude.{◌++◌, ◌+◌, ◌≡◌, ◌≤◌, length}};
ghost use Rattle.{arrayvec.specs.ArrayVec.{array_vec_len}, taxi_units.specs.{Line.{line_size}, Number.{money_text}}};

use crate::line::{Line, put_bytes, put_money, put_number};

/// Appends bytes for which a line has room.
pub fn push_bytes(line: &mut Line, bytes: &[u8])
    requires { array_vec_len line.old + length bytes.now ≤ line_size }
    ensures text { line.new.items ≡ line.old.items ++ bytes.now }
    ensures len { array_vec_len line.new ≡ array_vec_len line.old + length bytes.now }
{
    put_bytes(line, bytes).unwrap();
}

/// Appends a number in decimal, without leading zeros, to a line with room for the longest, which has
/// 39 digits.
#[tactic(auto, using(crate::proofs::Lengths::numbers_fit))]
pub fn push_number(line: &mut Line, value: u128)
    requires { array_vec_len line.old + 39 ≤ line_size }
    ensures text { line.new.items ≡ line.old.items ++ decimal value }
    ensures len { array_vec_len line.new ≡ array_vec_len line.old + length (decimal value) }
    ensures most { length (decimal value) ≤ 39 }
{
    put_number(line, value).unwrap();
}

/// Appends an amount of money, counted in units of the last of its 0 to 3 decimals, to a line with room
/// for the longest, which has 39 digits and a point.
#[tactic(auto, using(crate::proofs::Lengths::amounts_fit))]
pub fn push_money(line: &mut Line, units: u128, decimals: u8)
    requires room { array_vec_len line.old + 40 ≤ line_size }
    requires decimals { decimals ≤ 3 }
    ensures text { line.new.items ≡ line.old.items ++ money_text decimals units }
    ensures len { array_vec_len line.new ≡ array_vec_len line.old + length (money_text decimals units) }
    ensures most { length (money_text decimals units) ≤ 40 }
{
    put_money(line, units, decimals).unwrap();
}
