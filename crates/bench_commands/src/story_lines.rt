//! The lines by which the story of a hiring is told.
ghost use Rattle.std.specs.Prelude.{◌++◌, ◌+◌, ◌≡◌, ◌≤◌, codes, decimal, length};
ghost use Rattle.{arrayvec.specs.ArrayVec.{array_vec_len}, taxi_units.specs.Line.{line_size}};
ghost use Rattle.{receipt_text.specs.Texts.{refusal_text}, bench_commands.specs.StoryText.{numbered_line, sums_line}};
ghost use Rattle.bench_commands.specs.StoryText.{end_line, happening_line, hired_line, minimum_words, moment_text};

use receipt_text::{push_kind, push_stamp, put_refusal};
use taxi_units::{Kind, Line, Why, push_bytes, push_money, push_number};
use verify_bench::{Happening, Moment};

/// The last line of a story.
pub fn last_line() -> Line
    ensures { result.items ≡ codes "END\n" }
{
    let mut line = Line::new();
    push_bytes(&mut line, b"END\n");
    line
}

/// The line of a moment.
#[tactic(auto, unfolding(crate::specs::StoryText::moment_text))]
pub fn moment_line(decimals: u8, moment: &Moment) -> Line
    requires { decimals ≤ 3 }
    ensures { result.items ≡ moment_text decimals moment.now }
{
    let mut line = Line::new();
    push_number(&mut line, moment.ticks as u128);
    push_bytes(&mut line, b" ");
    push_number(&mut line, moment.pulses as u128);
    push_bytes(&mut line, b" ");
    push_stamp(&mut line, moment.at);
    push_bytes(&mut line, b" ");
    push_happening(&mut line, decimals, moment.happening);
    line
}

/// Appends what happened, up to the end of the line.
fn push_happening(line: &mut Line, decimals: u8, happening: Happening)
    requires room { array_vec_len line.old + 200 ≤ line_size }
    requires decimals { decimals ≤ 3 }
    ensures { line.new.items ≡ line.old.items ++ happening_line decimals happening }
{
    match happening {
        Happening::Hired {
            position,
            zone,
            fee,
            minimum,
        } => push_hired(line, position, zone, fee, minimum),
        Happening::Rate(number) => push_numbered(line, b"RATE ", number as u128),
        Happening::Stopped => push_bytes(line, b"STOPPED\n"),
        Happening::HiredAgain => push_bytes(line, b"HIRED AGAIN\n"),
        Happening::Position(number) => push_numbered(line, b"POSITION ", number as u128),
        Happening::Zone(number) => push_numbered(line, b"ZONE ", number as u128),
        Happening::Extra(number) => push_numbered(line, b"EXTRA ", number as u128),
        Happening::Refused(why) => push_refusal(line, why),
        Happening::Shown { fare, supplements } => {
            push_sums(line, b"SHOWN ", decimals, fare, supplements)
        }
        Happening::Lost => push_bytes(line, b"LOST\n"),
        Happening::Back => push_bytes(line, b"BACK\n"),
        Happening::ClockAhead(seconds) => push_numbered(line, b"CLOCK +", seconds as u128),
        Happening::ClockBehind(seconds) => push_numbered(line, b"CLOCK -", seconds),
        Happening::Ended {
            kind,
            fare,
            supplements,
        } => push_end(line, decimals, kind, fare, supplements),
    }
}

/// Appends a refusal.
fn push_refusal(line: &mut Line, why: Why)
    requires { array_vec_len line.old + 100 ≤ line_size }
    ensures { line.new.items ≡ line.old.items ++ refusal_text why }
{
    put_refusal(line, why).unwrap();
}

/// Appends a word and the number behind it, and the end of the line.
fn push_numbered(line: &mut Line, word: &[u8], number: u128)
    requires { array_vec_len line.old + length word.now + 40 ≤ line_size }
    ensures { line.new.items ≡ line.old.items ++ numbered_line word.now number }
{
    push_bytes(line, word);
    push_number(line, number);
    push_bytes(line, b"\n");
}

/// Appends a word, the fare and the supplements behind it, and the end of the line.
fn push_sums(line: &mut Line, word: &[u8], decimals: u8, fare: u64, supplements: u64)
    requires room { array_vec_len line.old + length word.now + 83 ≤ line_size }
    requires decimals { decimals ≤ 3 }
    ensures { line.new.items ≡ line.old.items ++ sums_line decimals word.now fare supplements }
{
    push_bytes(line, word);
    push_money(line, fare as u128, decimals);
    push_bytes(line, b" +");
    push_money(line, supplements as u128, decimals);
    push_bytes(line, b"\n");
}

/// Appends a hiring, up to the end of the line.
#[tactic(auto, unfolding(crate::specs::StoryText::hired_line))]
fn push_hired(line: &mut Line, position: u8, zone: u8, fee: u32, minimum: Option<u32>)
    requires { array_vec_len line.old + 200 ≤ line_size }
    ensures { line.new.items ≡ line.old.items ++ hired_line position zone fee minimum }
{
    push_bytes(line, b"HIRED T");
    push_number(line, position as u128);
    push_bytes(line, b" Z");
    push_number(line, zone as u128);
    push_bytes(line, b" FEE ");
    push_number(line, fee as u128);
    push_minimum(line, minimum);
    push_bytes(line, b"\n");
}

/// Appends the line of a minimum fare, if there is one.
fn push_minimum(line: &mut Line, minimum: Option<u32>)
    requires { array_vec_len line.old + 48 ≤ line_size }
    ensures text { line.new.items ≡ line.old.items ++ minimum_words minimum }
    ensures len { array_vec_len line.new ≤ array_vec_len line.old + 48 }
{
    match minimum {
        None => {}
        Some(number) => {
            push_bytes(line, b" MINIMUM ");
            push_number(line, number as u128);
        }
    }
}

/// Appends the end of a hiring, up to the end of the line.
#[tactic(auto, unfolding(crate::specs::StoryText::end_line))]
fn push_end(line: &mut Line, decimals: u8, kind: Kind, fare: u64, supplements: u64)
    requires room { array_vec_len line.old + 91 ≤ line_size }
    requires decimals { decimals ≤ 3 }
    ensures { line.new.items ≡ line.old.items ++ end_line decimals kind fare supplements }
{
    push_kind(line, kind);
    push_sums(line, b" ", decimals, fare, supplements);
}
