//! The text of what a store was sealed with.
ghost use Rattle.std.specs.Prelude.{[], ◌++◌, ◌+◌, ◌<◌, ◌∷◌, ◌≡◌, ◌≤◌, codes, map};
ghost use Rattle.arrayvec.specs.ArrayVec.{array_vec_len};
ghost use Rattle.seal_record.specs.{PlainText.{line_of, mode_text, settings_lines}, Ranges.{IsDay}};
ghost use Rattle.store_commands.specs.{Common.{comment_line, ended_text, line_size}, SealedText.{seal_comments}};
ghost use Rattle.seal_record.specs.PlainText as spec;

use call_ends::push_number_line;
use drive_modes::Mode;
use receipt_text::{push_hex, put_day};
use seal_record::{Params, Seal};
use taxi_units::{Line, push_bytes};

/// Appends the comments of a seal.
fn push_comments(line: &mut Line, seal: &Seal)
    requires { array_vec_len line.old + 172 ≤ line_size }
    ensures text { line.new.items ≡ line.old.items ++ ended_text (map comment_line (seal_comments seal.now)) }
    ensures len { array_vec_len line.new ≤ array_vec_len line.old + 172 }
{
    push_number_line(line, b"# SEAL ", seal.seal_number);
    push_number_line(line, b"# DECIMALS ", seal.decimals as u64);
    push_bytes(line, b"# TARIFF ");
    push_hex(line, &seal.digest);
    push_bytes(line, b"\n");
}

/// Appends the line of a mode.
fn push_mode(line: &mut Line, mode: Mode)
    requires { array_vec_len line.old + 12 ≤ line_size }
    ensures text { line.new.items ≡ line.old.items ++ (line_of (codes "mode") (mode_text mode) ++ codes "\n") }
    ensures len { array_vec_len line.new ≤ array_vec_len line.old + 12 }
{
    match mode {
        Mode::Single => push_bytes(line, b"mode single\n"),
        Mode::Double => push_bytes(line, b"mode double\n"),
    }
}

/// Appends the lines of the settings: the taxi, the constant, the mode and how long a trip is held.
fn push_settings(line: &mut Line, params: &Params)
    requires { array_vec_len line.old + 128 ≤ line_size }
    ensures text { line.new.items ≡ line.old.items ++ ended_text (settings_lines params.now) }
    ensures len { array_vec_len line.new ≤ array_vec_len line.old + 128 }
{
    push_bytes(line, b"taxi ");
    push_bytes(line, params.taxi.as_slice());
    push_bytes(line, b"\n");
    push_number_line(line, b"constant ", params.constant.get() as u64);
    push_mode(line, params.mode);
    push_number_line(line, b"hold ", params.hold_time as u64);
}

/// The lines of what a store was sealed with, in front of those of the offsets.
pub fn sealed_heading(seal: &Seal) -> Line
    ensures text { result.items
        ≡ ended_text (map comment_line (seal_comments seal.now)) ++ ended_text (settings_lines seal.now.params) }
    ensures some { 0 < array_vec_len result }
    ensures few { array_vec_len result ≤ line_size }
{
    let mut line = Line::new();
    push_comments(&mut line, seal);
    push_settings(&mut line, &seal.params);
    line
}

/// The line of the date of securing.
pub fn secured_line(day: i32) -> Line
    requires { IsDay day }
    ensures text { result.items ≡ ended_text (spec.secured_line day ∷ []) }
    ensures some { 0 < array_vec_len result }
    ensures few { array_vec_len result ≤ line_size }
{
    let mut line = Line::new();
    push_bytes(&mut line, b"secured ");
    put_day(&mut line, day).unwrap();
    push_bytes(&mut line, b"\n");
    line
}
