//! The characters of identifiers. The rule is this project's own.
ghost use Rattle.std.specs.Prelude.{◌≡◌};
ghost use Rattle.taxi_units.specs.Identifier as spec;

/// Whether a byte is a character of identifiers, of taxis and of drivers: A to Z, 0 to 9, or `-`.
pub fn is_identifier_character(byte: u8) -> bool
    ensures { result ≡ spec.is_identifier_character byte }
{
    (b'A' <= byte && byte <= b'Z') || ((b'0' <= byte && byte <= b'9') || byte == b'-')
}
