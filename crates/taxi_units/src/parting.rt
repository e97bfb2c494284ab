//! Bytes that are parted at a byte.
ghost use Rattle.std.specs.Prelude.{◌++◌, ◌∷◌, ◌≡◌, MatchOption};
ghost use Rattle.taxi_units.specs.PartedBytes.{HasNone};

/// The bytes before the first one that is this byte, and those after it. All bytes and `None` if none is.
pub fn split_at_byte(bytes: &[u8], byte: u8) -> (&[u8], Option<&[u8]>)
    ensures before { HasNone byte result.0.now }
    ensures after { MatchOption result.1 (bytes.now ≡ result.0.now)
        (λ rest. bytes.now ≡ result.0.now ++ byte ∷ rest.now) }
{
    match bytes.iter().position(|other| *other == byte) {
        Some(at) => (&bytes[..at], Some(&bytes[at + 1..])),
        None => (bytes, None),
    }
}
