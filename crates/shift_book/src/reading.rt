//! The mark that a line says, if it is one.
ghost use Rattle.std.specs.{List.{prefix_len}, Prelude.{◌≡◌, ◌≤◌, IfNone, IfSome, length}};
ghost use Rattle.shift_book.specs.{Common.{Gives, GivesSame, is_identifier_character}, Reading.{driver_of}};
ghost use Rattle.shift_book.specs.Marks.{IsDriver};
ghost use Rattle.shift_book.specs.Reading as spec;

use crate::mark::Mark;
use crate::numbers::numbers_at;
use arrayvec::ArrayVec;
use taxi_units::{is_identifier_character, word};

/// The only mark whose line may be at the front of a text. Whether it is there, its own line says.
#[tactic(auto, unfolding(crate::specs::Reading::mark_at))]
pub(crate) fn mark_at(text: &[u8]) -> Option<Mark>
    ensures { GivesSame result (spec.mark_at text.now) }
{
    match word(text, b"ON ") {
        Some(rest) => on_at(rest),
        None => off_at(text),
    }
}

/// A mark that signs on, behind its word.
#[tactic(auto, unfolding(crate::specs::Reading::on_at))]
fn on_at(text: &[u8]) -> Option<Mark>
    ensures { GivesSame result (spec.on_at text.now) }
{
    let (driver, rest) = driver_at(text)?;
    let numbers = numbers_at(rest)?;
    Some(Mark::with(driver, true, &numbers))
}

/// A mark that signs off.
#[tactic(auto, unfolding(crate::specs::Reading::off_at))]
fn off_at(text: &[u8]) -> Option<Mark>
    ensures { GivesSame result (spec.off_at text.now) }
{
    let rest = word(text, b"OFF")?;
    let numbers = numbers_at(rest)?;
    Some(Mark::with(ArrayVec::new(), false, &numbers))
}

/// The driver that a word is: 1 to 16 characters of A to Z, 0 to 9 and `-`. `None` if it is none. The form is this
/// project's own.
pub fn read_driver(word: &[u8]) -> Option<ArrayVec<u8, 16>>
    ensures answer { Gives (λ driver. driver.items) result (driver_of word.now) }
    ensures some { IfSome result (λ driver. (driver.items ≡ word.now) × IsDriver word.now) }
    ensures none { IfNone result (¬ IsDriver word.now) }
{
    driver_of(word)
}

/// The driver that is the whole word.
#[tactic(auto, unfolding(crate::specs::Reading::driver_of))]
fn driver_of(word: &[u8]) -> Option<ArrayVec<u8, 16>>
    ensures { Gives (λ driver. driver.items) result (driver_of word.now) }
{
    let (driver, rest) = driver_at(word)?;
    if rest.is_empty() { Some(driver) } else { None }
}

/// A driver at the front of a text, and what is behind it.
#[tactic(auto, unfolding(crate::specs::Reading::driver_at))]
fn driver_at(text: &[u8]) -> Option<(ArrayVec<u8, 16>, &[u8])>
    ensures { Gives (λ x. (x.0.items, x.1.now)) result (spec.driver_at text.now) }
{
    let count = count_characters(text);
    if count == 0 || count > 16 {
        return None;
    }
    let (characters, rest) = text.split_at(count);
    let mut driver = ArrayVec::new();
    match driver.try_extend_from_slice(characters) {
        Ok(()) => Some((driver, rest)),
        Err(_) => None,
    }
}

/// How many characters of drivers are at the front.
fn count_characters(text: &[u8]) -> usize
    ensures count { result ≡ prefix_len is_identifier_character text.now }
    ensures within { result ≤ length text.now }
{
    let mut count = 0;
    for byte in text {
        if !is_identifier_character(*byte) {
            return count;
        }
        count += 1;
    }
    count
}
