//! Bytes as a terminal may have them.
ghost use Rattle.std.specs.Prelude.{◌≤◌};

use std::alloc::AllocError;
use std::str;

/// How many bytes of a text or of a line are shown at most.
pub(crate) const SHOWN: usize = 80;

/// How many bytes of a name of a file are shown at most.
pub(crate) const SHOWN_NAME: usize = 4096;

/// How many bytes a character has that begins with this one; 0 if none does.
fn width_of(first: u8) -> usize
    ensures few { result ≤ 4 }
{
    match first {
        0..=127 => 1,
        194..=223 => 2,
        224..=239 => 3,
        240..=244 => 4,
        _ => 0,
    }
}

/// Whether a character is seen where it is printed: it is no control character, no blank that doesn't break, and no
/// mark without a width.
fn is_seen(character: char) -> bool {
    !matches!(
        character as u32,
        0..=31 | 127..=160 | 173 | 0x200b..=0x200f | 0x2028..=0x202e | 0x2060..=0x207f | 0xfeff
    )
}

/// The character at the front of the bytes, as a text, and what is behind it, if it is one that is seen.
fn seen_at_front(bytes: &[u8]) -> Option<(&str, &[u8])> {
    let first = *bytes.first()?;
    let width = width_of(first);
    let text = str::from_utf8(bytes.get(..width)?).ok()?;
    match text.chars().next() {
        Some(character) if is_seen(character) => Some((text, bytes.get(width..)?)),
        _ => None,
    }
}

/// Appends a byte that is no part of a character that is seen: a control character as `^X`, another one as `\xHH`.
fn push_spelled(text: &mut String, byte: u8) -> Result<(), AllocError> {
    if byte < 32 {
        text.push('^')?;
        text.push((byte + 64) as char)
    } else if byte == 127 {
        text.push_str("^?")
    } else {
        write!(text, "\\x{byte:02x}")
    }
}

/// Appends bytes as a terminal may have them, at most `most` of them, and ` ..` if there are more.
pub(crate) fn push_shown(text: &mut String, bytes: &[u8], most: usize) -> Result<(), AllocError> {
    let mut rest = bytes;
    let mut left = most;
    for _ in 0..bytes.len() {
        let Some((first, behind)) = rest.split_first() else {
            return Ok(());
        };
        match seen_at_front(rest) {
            Some((character, behind)) if character.len() <= left => {
                text.push_str(character)?;
                left -= character.len();
                rest = behind;
            }
            None if left > 0 => {
                push_spelled(text, *first)?;
                left -= 1;
                rest = behind;
            }
            _ => return text.push_str(" .."),
        }
    }
    Ok(())
}

/// Appends the name of a file.
pub(crate) fn push_name(text: &mut String, name: &str) -> Result<(), AllocError> {
    if name.is_empty() {
        text.push_str("''")
    } else {
        push_shown(text, name.as_bytes(), SHOWN_NAME)
    }
}
