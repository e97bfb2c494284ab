//! Displays.
ghost use Rattle.std.specs.Prelude.{◌++◌, ◌+◌, ◌↔◌, ◌≡◌, ◌≤◌, IsOk, OnErr, OnOk, length};
ghost use Rattle.{arrayvec.specs.ArrayVec.{array_vec_len}, receipt_text.specs.Common.{IsShown, line_size}};
ghost use Rattle.receipt_text.specs.Texts.{amounts_text, display_line, display_text, place_text};

use taxi_units::{
    Display, Line, LineFull, Operating, push_bytes, push_money, push_number, put_bytes,
};

/// Appends the line of a display: the operating position, the tariff position and the zone, and, except in For Hire,
/// the fare and the supplements, which are no part of the fare. Money is in units of the last of the tariff's decimals.
///
/// `LineFull`: the text doesn't fit, and the line is unchanged. It fits if there is room for 200 bytes. MI-007 asks
/// that the three operating positions, the tariff and the supplements are shown, the supplements apart from the fare;
/// the form of the text is this project's own.
pub fn put_display(line: &mut Line, display: &Display) -> Result<(), LineFull>
    requires { IsShown display.now }
    ensures variant { IsOk result ↔ (array_vec_len line.old + length (display_text display.now) ≤ line_size) }
    ensures ok { OnOk result (line.new.items ≡ line.old.items ++ display_text display.now) }
    ensures err { OnErr result (line.new ≡ line.old) }
    ensures room { array_vec_len line.old + 200 ≤ line_size → IsOk result }
{
    let mut text = Line::new();
    push_display(&mut text, display);
    put_bytes(line, text.as_slice())
}

/// Appends the line of a display.
fn push_display(line: &mut Line, display: &Display)
    requires room { array_vec_len line.old + 200 ≤ line_size }
    requires decimals { display.now.decimals ≤ 3 }
    ensures text { line.new.items ≡ line.old.items ++ display_line display.now.operating display.now }
    ensures len { array_vec_len line.new ≤ array_vec_len line.old + 200 }
{
    match display.operating {
        Operating::Off => {}
        Operating::ForHire => {
            push_bytes(line, b"FOR HIRE");
            push_place(line, display);
            push_bytes(line, b"\n");
        }
        Operating::Hired => {
            push_bytes(line, b"HIRED");
            push_place(line, display);
            push_amounts(line, display);
            push_bytes(line, b"\n");
        }
        Operating::Stopped => {
            push_bytes(line, b"STOPPED");
            push_place(line, display);
            push_amounts(line, display);
            push_bytes(line, b"\n");
        }
    }
}

/// Appends the tariff position and the zone.
fn push_place(line: &mut Line, display: &Display)
    requires { array_vec_len line.old + 82 ≤ line_size }
    ensures text { line.new.items ≡ line.old.items ++ place_text display.now }
    ensures len { array_vec_len line.new ≤ array_vec_len line.old + 82 }
{
    push_bytes(line, b" T");
    push_number(line, display.position as u128);
    push_bytes(line, b" Z");
    push_number(line, display.zone as u128);
}

/// Appends the fare and the supplements.
fn push_amounts(line: &mut Line, display: &Display)
    requires room { array_vec_len line.old + 83 ≤ line_size }
    requires decimals { display.now.decimals ≤ 3 }
    ensures text { line.new.items ≡ line.old.items ++ amounts_text display.now }
    ensures len { array_vec_len line.new ≤ array_vec_len line.old + 83 }
{
    push_bytes(line, b" ");
    push_money(line, display.fare as u128, display.decimals);
    push_bytes(line, b" +");
    push_money(line, display.supplements as u128, display.decimals);
}
