//! The lines of a list of offsets.
ghost use Rattle.std.specs.Prelude.{◌++◌, ◌+◌, ◌↔◌, ◌≡◌, ◌≤◌, IsOk, OnErr, OnOk, length};
ghost use Rattle.{arrayvec.specs.ArrayVec.{array_vec_len}, taxi_units.specs.Line.{line_size}};
ghost use Rattle.offset_rules.specs.Texts.{offset_line, offset_text};

use taxi_units::{Line, LineFull, push_bytes, push_number, put_bytes};

/// Appends the line of a pair of a list of offsets as a text of parameters has it: the word `offset`, the
/// second, and the offset in seconds from then on.
///
/// `LineFull`: the text doesn't fit. The line is then unchanged. The text fits if there is room for 90 bytes.
/// The form is this project's own.
pub fn put_offset(line: &mut Line, pair: (u64, i32)) -> Result<(), LineFull>
    ensures variant { IsOk result ↔ (array_vec_len line.old + length (offset_line pair) ≤ line_size) }
    ensures ok { OnOk result (line.new.items ≡ line.old.items ++ offset_line pair) }
    ensures err { OnErr result (line.new ≡ line.old) }
    ensures room { array_vec_len line.old + 90 ≤ line_size → IsOk result }
{
    let (second, offset) = pair;
    let mut text = Line::new();
    push_bytes(&mut text, b"offset ");
    push_number(&mut text, second as u128);
    push_bytes(&mut text, b" ");
    push_offset(&mut text, offset);
    push_bytes(&mut text, b"\n");
    put_bytes(line, text.as_slice())
}

/// Appends an offset.
fn push_offset(line: &mut Line, offset: i32)
    requires { array_vec_len line.old + 40 ≤ line_size }
    ensures text { line.new.items ≡ line.old.items ++ offset_text offset }
    ensures len { array_vec_len line.new ≤ array_vec_len line.old + 40 }
{
    if offset < 0 {
        push_bytes(line, b"-");
    }
    push_number(line, offset.unsigned_abs() as u128);
}
