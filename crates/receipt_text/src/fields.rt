//! A word and the text behind it, put into a line.
ghost use Rattle.std.specs.Prelude.{◌++◌, ◌+◌, ◌↔◌, ◌≡◌, ◌≤◌, IsOk, OnOk, decimal, length};
ghost use Rattle.{arrayvec.specs.ArrayVec.{array_vec_len}, receipt_text.specs.Common.{line_size, money_text}};

use taxi_units::{Line, LineFull, put_bytes, put_money, put_number};

/// Appends a word and a text.
pub(crate) fn put_text(line: &mut Line, word: &[u8], text: &[u8]) -> Result<(), LineFull>
    ensures variant { IsOk result ↔ (array_vec_len line.old + length word.now + length text.now ≤ line_size) }
    ensures ok { OnOk result (line.new.items ≡ line.old.items ++ (word.now ++ text.now)) }
{
    put_bytes(line, word)?;
    put_bytes(line, text)
}

/// Appends a word and a number.
pub(crate) fn put_figure(line: &mut Line, word: &[u8], number: u128) -> Result<(), LineFull>
    ensures variant { IsOk result ↔ (array_vec_len line.old + length word.now + length (decimal number) ≤ line_size) }
    ensures ok { OnOk result (line.new.items ≡ line.old.items ++ (word.now ++ decimal number)) }
{
    put_bytes(line, word)?;
    put_number(line, number)
}

/// Appends a word and an amount of these decimals.
pub(crate) fn put_amount(
    line: &mut Line,
    word: &[u8],
    units: u128,
    decimals: u8,
) -> Result<(), LineFull>
    requires { decimals ≤ 3 }
    ensures variant { IsOk result
        ↔ (array_vec_len line.old + length word.now + length (money_text decimals units) ≤ line_size) }
    ensures ok { OnOk result (line.new.items ≡ line.old.items ++ (word.now ++ money_text decimals units)) }
{
    put_bytes(line, word)?;
    put_money(line, units, decimals)
}
