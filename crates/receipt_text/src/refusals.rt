//! Refusals.
ghost use Rattle.std.specs.Prelude.{◌++◌, ◌+◌, ◌↔◌, ◌≡◌, ◌≤◌, IsOk, OnErr, OnOk, length};
ghost use Rattle.{arrayvec.specs.ArrayVec.{array_vec_len}, receipt_text.specs.Texts.{refusal_text, why_text}};
ghost use Rattle.receipt_text.specs.Common.{line_size};

use taxi_units::{Line, LineFull, Why, push_bytes, push_number, put_bytes};

/// Appends the line of a refusal: why the meter refused what was asked of it, with the two readings of a clock that was
/// set back, in seconds from 1970-01-01T00:00Z, or with the number of pulses too many.
///
/// `LineFull`: the text doesn't fit, and the line is unchanged. It fits if there is room for 100 bytes. Refusals are
/// this project's own.
pub fn put_refusal(line: &mut Line, why: Why) -> Result<(), LineFull>
    ensures variant { IsOk result ↔ (array_vec_len line.old + length (refusal_text why) ≤ line_size) }
    ensures ok { OnOk result (line.new.items ≡ line.old.items ++ refusal_text why) }
    ensures err { OnErr result (line.new ≡ line.old) }
    ensures room { array_vec_len line.old + 100 ≤ line_size → IsOk result }
{
    let mut text = Line::new();
    push_bytes(&mut text, b"REFUSED ");
    push_why(&mut text, why);
    push_bytes(&mut text, b"\n");
    put_bytes(line, text.as_slice())
}

/// Appends what a refusal says.
fn push_why(line: &mut Line, why: Why)
    requires { array_vec_len line.old + 90 ≤ line_size }
    ensures text { line.new.items ≡ line.old.items ++ why_text why }
    ensures len { array_vec_len line.new ≤ array_vec_len line.old + 90 }
{
    match why {
        Why::NotNow => push_bytes(line, b"NOT NOW"),
        Why::KeyWaiting => push_bytes(line, b"KEY WAITING"),
        Why::NoSuch => push_bytes(line, b"NO SUCH"),
        Why::AtMost => push_bytes(line, b"AT MOST"),
        Why::ClockBack { last, given } => push_clock_back(line, last, given),
        Why::TooFast(left) => {
            push_bytes(line, b"TOO FAST ");
            push_number(line, left as u128);
        }
        Why::Powered => push_bytes(line, b"POWERED"),
        Why::Expired => push_bytes(line, b"EXPIRED"),
        Why::Ended => push_bytes(line, b"ENDED"),
    }
}

/// Appends what the refusal of a reading of the clock says.
fn push_clock_back(line: &mut Line, last: u64, given: u64)
    requires { array_vec_len line.old + 90 ≤ line_size }
    ensures text { line.new.items ≡ line.old.items ++ why_text (Why.ClockBack last given) }
    ensures len { array_vec_len line.new ≤ array_vec_len line.old + 90 }
{
    push_bytes(line, b"CLOCK BACK ");
    push_number(line, last as u128);
    push_bytes(line, b" ");
    push_number(line, given as u128);
}
