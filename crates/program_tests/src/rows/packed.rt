//! Rows as `tests/run --now` packs them: numbers of eight bytes, the highest first, and texts, each with its length
//! before it.
use std::test::Fail;

/// What is left of packed rows. They stay to the end of the process, so that nothing has their lifetime.
#[derive(Drop)]
pub(crate) struct Packed {
    left: &'static [u8],
}

impl Packed {
    /// Rows from their first byte on.
    pub(crate) fn new(left: &'static [u8]) -> Packed {
        Packed { left }
    }

    /// Whether nothing is left.
    pub(crate) fn is_over(&self) -> bool {
        self.left.is_empty()
    }

    /// The next bytes, of this number.
    fn bytes(&mut self, count: usize) -> Result<&'static [u8], Fail> {
        if count > self.left.len() {
            return Err(Fail::new("the rows end amid one"));
        }
        let (bytes, left) = self.left.split_at(count);
        self.left = left;
        Ok(bytes)
    }

    /// The next byte, which says what comes.
    pub(crate) fn kind(&mut self) -> Result<u8, Fail> {
        match self.bytes(1)?.first() {
            Some(kind) => Ok(*kind),
            None => Err(Fail::new("the rows end amid one")),
        }
    }

    /// The next number.
    pub(crate) fn number(&mut self) -> Result<usize, Fail> {
        match <&[u8; 8]>::try_from(self.bytes(8)?) {
            Ok(bytes) => Ok(usize::from_be_bytes(*bytes)),
            Err(_) => Err(Fail::new("the rows end amid one")),
        }
    }

    /// The next text.
    pub(crate) fn text(&mut self) -> Result<&'static [u8], Fail> {
        let count = self.number()?;
        self.bytes(count)
    }
}
