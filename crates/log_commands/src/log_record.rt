//! A receipt as the log keeps it.
use arrayvec::ArrayVec;
use std::marker::Model;

/// How many bytes a receipt has at most.
pub(crate) const LONGEST: usize = 480;

/// A receipt as the log keeps it: its text, and of what that says the number and the taxi.
#[derive(Drop)]
pub struct LogRecord {
    /// The text, by the grammar of receipts: at most 480 bytes.
    pub text: ArrayVec<u8, LONGEST>,
    /// The number: 1 to 2,000,000,000,000,001.
    pub number: u64,
    /// The taxi identifier: 1 to 16 characters of A to Z, 0 to 9 and `-`.
    pub taxi: ArrayVec<u8, 16>,
}

impl Model for LogRecord {
    ghost use Rattle.log_commands.specs.Record.{Record};

    ghost Value = { Record };

    ghost view = { λ r. record { text = r.text.items; number = r.number; taxi = r.taxi.items } };
}
