//! Digests, read back.
ghost use Rattle.std.specs.Prelude.{◌*◌, ◌+◌, ◌<◌, ◌≡◌, IfSome, length};
ghost use Rattle.receipt_reading.specs.Common.{Gives};
ghost use Rattle.receipt_text.specs.Digests as spec;

/// The value of a lower-case hexadecimal digit.
fn hex_value(digit: u8) -> Option<u8>
    ensures value { result ≡ spec.hex_value digit }
    ensures below { IfSome result (λ value. value < 16) }
{
    if b'0' <= digit && digit <= b'9' {
        Some(digit - b'0')
    } else if b'a' <= digit && digit <= b'f' {
        Some(digit - b'a' + 10)
    } else {
        None
    }
}

/// The byte of two digits at the front of a text, and the text behind them.
fn byte_at(text: &[u8]) -> Option<(u8, &[u8])>
    ensures { Gives (λ x. (x.0, x.1.now)) result (spec.byte_at text.now) }
{
    let (high, text) = text.split_first()?;
    let (low, text) = text.split_first()?;
    let high = hex_value(*high)?;
    let low = hex_value(*low)?;
    Some((high * 16 + low, text))
}

/// A digest at the front of a text, and the text behind it.
#[tactic(auto, unfolding(receipt_text::specs::Digests::digest_at))]
pub fn digest_at(text: &[u8]) -> Option<([u8; 32], &[u8])>
    ensures { Gives (λ x. (x.0, x.1.now)) result (spec.digest_at text.now) }
{
    let mut digest = [0; 32];
    let rest = fill(&mut digest, text)?;
    Some((digest, rest))
}

/// Reads as many bytes as there are places, and gives the text behind them.
#[tactic(auto, unfolding(receipt_text::specs::Digests::bytes_at))]
fn fill<'a>(places: &mut [u8], text: &'a [u8]) -> Option<&'a [u8]>
    ensures { Gives (λ rest. (places.new, rest.now)) result (spec.bytes_at (length places.old) text.now) }
{
    match places.split_first_mut() {
        None => Some(text),
        Some((place, places)) => {
            let (byte, text) = byte_at(text)?;
            *place = byte;
            fill(places, text)
        }
    }
}
