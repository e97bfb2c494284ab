//! The keys of a drive, read and written.
ghost use Rattle.std.specs.Prelude.{◌++◌, ◌+◌, ◌≡◌, ◌≤◌, IsOk};
ghost use Rattle.{arrayvec.specs.ArrayVec.{array_vec_len}, drive_text.specs.Ranges.{IsKeyInRange}};
ghost use Rattle.drive_text.specs.Written.{key_text};
ghost use Rattle.drive_text.specs.Fields as spec;

use crate::written::put_numbered;
use taxi_units::{Key, Line, LineFull, is_word, number_in, put_bytes};

/// A key without a number.
#[tactic(auto, unfolding(crate::specs::Fields::plain_key, crate::specs::Written::key_text))]
pub(crate) fn plain_key(name: &[u8]) -> Option<Key>
    ensures { result ≡ spec.plain_key name.now }
{
    if is_word(name, b"H") {
        Some(Key::Hire)
    } else if is_word(name, b"S") {
        Some(Key::Stop)
    } else if is_word(name, b"C") {
        Some(Key::Clear)
    } else {
        None
    }
}

/// A key and its number.
#[tactic(auto, unfolding(crate::specs::Fields::numbered_key))]
pub(crate) fn numbered_key(name: &[u8], number: &[u8]) -> Option<Key>
    ensures { result ≡ spec.numbered_key name.now number.now }
{
    if is_word(name, b"P") {
        Some(Key::Position(number_in(number, 0, 99)? as u8))
    } else if is_word(name, b"Z") {
        Some(Key::Zone(number_in(number, 0, 99)? as u8))
    } else if is_word(name, b"E") {
        Some(Key::Extra(number_in(number, 0, 99)? as u8))
    } else {
        None
    }
}

/// Appends the fields of a key.
#[tactic(auto, unfolding(crate::specs::Written::key_text))]
pub(crate) fn put_key(draft: &mut Line, key: Key) -> Result<(), LineFull>
    requires range { IsKeyInRange key }
    requires room { array_vec_len draft.old ≤ 402 }
    ensures always { IsOk result }
    ensures fields { draft.new.items ≡ draft.old.items ++ key_text key }
    ensures len { array_vec_len draft.new ≤ array_vec_len draft.old + 18 }
{
    match key {
        Key::Hire => put_bytes(draft, b"H"),
        Key::Stop => put_bytes(draft, b"S"),
        Key::Clear => put_bytes(draft, b"C"),
        Key::Position(number) => put_numbered(draft, b"P ", number as u64),
        Key::Zone(number) => put_numbered(draft, b"Z ", number as u64),
        Key::Extra(number) => put_numbered(draft, b"E ", number as u64),
    }
}
