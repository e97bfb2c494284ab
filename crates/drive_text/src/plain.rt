//! The lines that a drive has most of, read in one pass over their bytes: ticks, pulses and intervals, with numbers of
//! at most 5 digits and an LF alone at the end. `None` says nothing of a line: fields.rt reads it then.
ghost use Rattle.std.specs.Prelude.{◌++◌, IfSome, codes};
ghost use Rattle.drive_text.specs.Plain.{BeginsWithLine, BeginsWithNumber};

use crate::run::Run;
use taxi_units::Event;

/// A number of 1 to 5 digits at the front of the bytes, and what is behind them. More digits may be behind them.
fn short_number(bytes: &[u8]) -> Option<(u32, &[u8])>
    ensures { IfSome result (λ x. BeginsWithNumber bytes.now x.0 x.1.now) }
{
    let mut number = 0;
    let mut count = 0;
    while count < bytes.len() && count < 5 {
        let byte = bytes[count];
        if !byte.is_ascii_digit() {
            break;
        }
        number = number * 10 + (byte - b'0') as u32;
        count += 1;
    }
    if count == 0 {
        return None;
    }
    Some((number, &bytes[count..]))
}

/// The intervals of a line, from behind its word and blank. A meter that is fed while it runs has one a line.
#[tactic(auto, using(crate::proofs::PlainLines::intervals_line))]
fn plain_intervals(bytes: &[u8]) -> Option<(Run, &[u8])>
    ensures { IfSome result (λ x. BeginsWithLine (codes "I " ++ bytes.now) x.0 x.1.now) }
{
    let (pulses, rest) = short_number(bytes)?;
    if pulses > 65535 {
        return None;
    }
    if let [b' ', b'1', b'\n', rest @ ..] = rest {
        return Some((Run::Many { pulses, count: 1 }, rest));
    }
    let [b' ', rest @ ..] = rest else {
        return None;
    };
    let (count, rest) = short_number(rest)?;
    let [b'\n', rest @ ..] = rest else {
        return None;
    };
    if count == 0 || count > 36000 {
        return None;
    }
    Some((Run::Many { pulses, count }, rest))
}

/// The pulses of a line, from behind its word and blank.
#[tactic(auto, using(crate::proofs::PlainLines::pulses_line))]
fn plain_pulses(bytes: &[u8]) -> Option<(Run, &[u8])>
    ensures { IfSome result (λ x. BeginsWithLine (codes "P " ++ bytes.now) x.0 x.1.now) }
{
    let (pulses, rest) = short_number(bytes)?;
    let [b'\n', rest @ ..] = rest else {
        return None;
    };
    if pulses == 0 || pulses > 65535 {
        return None;
    }
    Some((Run::One(Event::Pulses(pulses)), rest))
}

/// The run of the line at the front of the bytes, and what is behind its LF, if one pass reads it.
#[tactic(auto, using(crate::proofs::PlainLines::tick_line))]
pub(crate) fn plain_line(bytes: &[u8]) -> Option<(Run, &[u8])>
    ensures { IfSome result (λ x. BeginsWithLine bytes.now x.0 x.1.now) }
{
    match bytes {
        [b'I', b' ', rest @ ..] => plain_intervals(rest),
        [b'P', b' ', rest @ ..] => plain_pulses(rest),
        [b'T', b'\n', rest @ ..] => Some((Run::One(Event::Tick), rest)),
        _ => None,
    }
}
