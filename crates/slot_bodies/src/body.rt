//! What a slot holds.
ghost use Rattle.std.specs.Prelude.{ℕ, ◌≡◌, List, Option};
ghost use Rattle.slot_bodies.specs.Bodies.{AreBodies};

/// How many bytes a body has.
pub const BODY_SIZE: usize = 511;

/// A value of 511 bytes that a slot holds. Its number tells which of two is the later. Contracts compare values by the
/// kit's models: a body with buffers is compared by their items, not by where they lie in memory.
pub trait Body: Sized + Drop {
    /// The values that may be written.
    ghost valid: { Self → Type 0 };

    /// The number of a value; of two values the one with the greater number is the later one.
    ghost number_of: { Self → ℕ };

    /// The bytes of a value.
    ghost spelling: { Self → List ℕ };

    /// The value that bytes spell, if they spell one.
    ghost reads: { List ℕ → Option Self };

    /// The number.
    fn number(&self) -> u64
        ensures { result ≡ number_of self.now };

    /// Writes the bytes of a value that may be written.
    fn put(&self, out: &mut [u8; BODY_SIZE])
        requires { valid self.now }
        ensures { out.new ≡ spelling self.now };

    /// Reads a value. It is None if the bytes spell none.
    fn get(bytes: &[u8; BODY_SIZE]) -> Option<Self>
        ensures { result ≡ reads bytes.now };

    /// Each value that may be written has 511 bytes, and it is read from these bytes and from no others.
    ghost bodies: { AreBodies valid spelling reads };
}
