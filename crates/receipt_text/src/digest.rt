//! Digests, in hexadecimal digits.
ghost use Rattle.std.specs.Prelude.{◌*◌, ◌++◌, ◌+◌, ◌<◌, ◌≡◌, ◌≤◌, length};
ghost use Rattle.{arrayvec.specs.ArrayVec.{array_vec_len}, receipt_text.specs.Receipts.{hex_digit, hex_text}};
ghost use Rattle.receipt_text.specs.Common.{line_size};

use taxi_units::{Line, push_bytes};

/// The lower-case hexadecimal digits of a digest.
pub(crate) fn hex_of(digest: &[u8; 32]) -> Line
    ensures { result.items ≡ hex_text digest.now }
{
    let mut line = Line::new();
    push_hex(&mut line, digest);
    line
}

/// Appends the lower-case hexadecimal digits of bytes, two for each, to a line with room for them.
#[tactic(auto, unfolding(crate::specs::Receipts::hex_text))]
pub fn push_hex(line: &mut Line, bytes: &[u8])
    requires { array_vec_len line.old + 2 * length bytes.now ≤ line_size }
    ensures text { line.new.items ≡ line.old.items ++ hex_text bytes.now }
    ensures len { array_vec_len line.new ≡ array_vec_len line.old + 2 * length bytes.now }
{
    if let Some((byte, bytes)) = bytes.split_first() {
        push_bytes(line, &[hex_digit(*byte / 16), hex_digit(*byte % 16)]);
        push_hex(line, bytes);
    }
}

/// The lower-case hexadecimal digit of a number below 16.
fn hex_digit(number: u8) -> u8
    requires { number < 16 }
    ensures { result ≡ hex_digit number }
{
    if number < 10 {
        b'0' + number
    } else {
        b'a' + (number - 10)
    }
}
