//! Lines of a name and a number.
ghost use Rattle.std.specs.Prelude.{◌++◌, ◌+◌, ◌≡◌, ◌≤◌, length};
ghost use Rattle.{arrayvec.specs.ArrayVec.{array_vec_len}, taxi_units.specs.Line.{line_size}};
ghost use Rattle.call_ends.specs.NumberLine.{number_line};

use taxi_units::{Line, push_bytes, push_number};

/// Appends a line of a name and a number.
pub fn push_number_line(line: &mut Line, name: &[u8], number: u64)
    requires { array_vec_len line.old + length name.now + 40 ≤ line_size }
    ensures text { line.new.items ≡ line.old.items ++ number_line name.now number }
    ensures len { array_vec_len line.new ≤ array_vec_len line.old + length name.now + 40 }
{
    push_bytes(line, name);
    push_number(line, number as u128);
    push_bytes(line, b"\n");
}
