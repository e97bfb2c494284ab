//! The lines of a part of a seal, read back.
ghost use Rattle.std.specs.{List.{prefix_len}, Prelude.{◌+◌, ◌≡◌, ◌≤◌, length}};
ghost use Rattle.{taxi_units.specs.Identifier.{is_identifier_character}, receipt_reading.specs.Common.{Gives}};
ghost use Rattle.receipt_text.specs.Lines as spec;

use crate::digest::digest_at;
use crate::figures::number_behind;
use crate::stamps::day_at;
use arrayvec::ArrayVec;
use receipt_text::SealPart;
use taxi_units::{is_identifier_character, word};

/// How many characters of taxi identifiers stand at the front.
fn count_characters(text: &[u8]) -> usize
    ensures count { result ≡ prefix_len is_identifier_character text.now }
    ensures within { result ≤ length text.now }
{
    let mut count = 0;
    for byte in text {
        if !is_identifier_character(*byte) {
            return count;
        }
        count += 1;
    }
    count
}

/// A taxi identifier at the front of a text, and the text behind it.
#[tactic(auto, unfolding(receipt_text::specs::Lines::taxi_at))]
fn taxi_at(text: &[u8]) -> Option<(ArrayVec<u8, 16>, &[u8])>
    ensures { Gives (λ x. (x.0.items, x.1.now)) result (spec.taxi_at text.now) }
{
    let count = count_characters(text);
    if count == 0 || count > 16 {
        return None;
    }
    let (characters, rest) = text.split_at(count);
    let mut taxi = ArrayVec::new();
    match taxi.try_extend_from_slice(characters) {
        Ok(()) => Some((taxi, rest)),
        Err(_) => None,
    }
}

/// The lines of the seal at the front of a text, and the text behind them.
#[tactic(auto, unfolding(receipt_text::specs::Lines::part_at))]
pub fn part_at(text: &[u8]) -> Option<(SealPart, &[u8])>
    ensures { Gives (λ x. (x.0, x.1.now)) result (spec.part_at text.now) }
{
    let text = word(text, b"TAXI ")?;
    let (taxi, text) = taxi_at(text)?;
    let (constant, text) = number_behind(text, b"\nCONSTANT ", 1_000_000_000)?;
    let text = word(text, b"\nSECURED ")?;
    let (secured, text) = day_at(text)?;
    let text = word(text, b"\nTARIFF ")?;
    let (digest, text) = digest_at(text)?;
    let rest = word(text, b"\n")?;
    let part = SealPart {
        taxi,
        constant: constant as u32,
        secured,
        digest,
    };
    Some((part, rest))
}
