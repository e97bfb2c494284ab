//! Lines of text, and what is put into them: bytes, numbers and amounts of money.
//!
//! Each call appends its text whole, or leaves the line as it was.
ghost use Rattle.std.specs.{Fmt.{decimal}, Prelude.{◌++◌, ◌+◌, ◌↔◌, ◌≡◌, ◌≤◌, IsOk, OnErr, OnOk, length}};
ghost use Rattle.{arrayvec.specs.ArrayVec.{array_vec_len}, taxi_units.specs.Number.{money_text, padded_text}};
ghost use Rattle.taxi_units.specs.Line.{line_size};

use arrayvec::ArrayVec;

/// How many bytes a line has room for.
pub const LINE_SIZE: usize = 512;

/// A line of text, of at most 512 bytes.
pub type Line = ArrayVec<u8, LINE_SIZE>;

/// The text doesn't fit into what is left of the line.
#[derive(Clone, Copy)]
pub struct LineFull;

/// A text before it is appended. The longest has 255 bytes.
type Draft = ArrayVec<u8, 256>;

/// Appends bytes.
///
/// `LineFull`: they don't fit. The line is then unchanged.
pub fn put_bytes(line: &mut Line, bytes: &[u8]) -> Result<(), LineFull>
    ensures variant { IsOk result ↔ (array_vec_len line.old + length bytes.now ≤ line_size) }
    ensures ok { OnOk result (line.new.items ≡ line.old.items ++ bytes.now) }
    ensures err { OnErr result (line.new ≡ line.old) }
{
    line.try_extend_from_slice(bytes).map_err(|_| LineFull)
}

/// Appends a number in decimal, without leading zeros.
///
/// `LineFull`: it doesn't fit. The line is then unchanged.
#[tactic(auto, using(crate::proofs::Written::decimal_short))]
pub fn put_number(line: &mut Line, value: u128) -> Result<(), LineFull>
    ensures variant { IsOk result ↔ (array_vec_len line.old + length (decimal value) ≤ line_size) }
    ensures ok { OnOk result (line.new.items ≡ line.old.items ++ decimal value) }
    ensures err { OnErr result (line.new ≡ line.old) }
{
    let mut draft = Draft::new();
    push_number(&mut draft, value);
    put_bytes(line, draft.as_slice())
}

/// Appends a number in decimal, with zeros in front up to the width. A longer number is written
/// whole.
///
/// `LineFull`: it doesn't fit. The line is then unchanged.
#[tactic(auto, using(crate::proofs::Written::padded_short))]
pub fn put_padded(line: &mut Line, value: u64, width: u8) -> Result<(), LineFull>
    ensures variant { IsOk result ↔ (array_vec_len line.old + length (padded_text width value) ≤ line_size) }
    ensures ok { OnOk result (line.new.items ≡ line.old.items ++ padded_text width value) }
    ensures err { OnErr result (line.new ≡ line.old) }
{
    let mut draft = Draft::new();
    push_padded(&mut draft, value, width);
    put_bytes(line, draft.as_slice())
}

/// Appends an amount of money, counted in units of the last of its 0 to 3 decimals: one or more
/// digits, and if it has decimals a point and that many digits. The form is this project's own.
///
/// `LineFull`: it doesn't fit. The line is then unchanged.
#[tactic(auto, using(crate::proofs::Written::amounts_are_short))]
pub fn put_money(line: &mut Line, units: u128, decimals: u8) -> Result<(), LineFull>
    requires { decimals ≤ 3 }
    ensures variant { IsOk result ↔ (array_vec_len line.old + length (money_text decimals units) ≤ line_size) }
    ensures ok { OnOk result (line.new.items ≡ line.old.items ++ money_text decimals units) }
    ensures err { OnErr result (line.new ≡ line.old) }
{
    if decimals == 0 {
        return put_number(line, units);
    }
    let one = 10u128.pow(decimals as u32);
    let mut draft = Draft::new();
    push_number(&mut draft, units / one);
    draft.push(b'.');
    push_padded(&mut draft, (units % one) as u64, decimals);
    put_bytes(line, draft.as_slice())
}

/// Appends a number in decimal.
#[tactic(auto, using(crate::proofs::Written::number_digit_by_digit))]
fn push_number(draft: &mut Draft, value: u128)
    requires { array_vec_len draft.old + length (decimal value) ≤ 256 }
    ensures items { draft.new.items ≡ draft.old.items ++ decimal value }
    ensures len { array_vec_len draft.new ≡ array_vec_len draft.old + length (decimal value) }
{
    if value < 10 {
        draft.push(b'0' + value as u8);
    } else {
        push_number(draft, value / 10);
        draft.push(b'0' + (value % 10) as u8);
    }
}

/// Appends a number in decimal, with zeros in front up to the width.
#[tactic(auto, using(crate::proofs::Written::padded_digit_by_digit))]
fn push_padded(draft: &mut Draft, value: u64, width: u8)
    requires { array_vec_len draft.old + length (padded_text width value) ≤ 256 }
    ensures items { draft.new.items ≡ draft.old.items ++ padded_text width value }
    ensures len { array_vec_len draft.new ≡ array_vec_len draft.old + length (padded_text width value) }
{
    if width < 2 {
        push_number(draft, value as u128);
    } else {
        push_padded(draft, value / 10, width - 1);
        draft.push(b'0' + (value % 10) as u8);
    }
}
