//! What may be wrong with a text of rules.

/// Why a text has no rules.
#[derive(Clone, Copy)]
pub enum RuleFault {
    /// It has more than 4,096 bytes.
    TooLong,

    /// The first of the lines 1 to 4 that breaks its form or is absent, or 5 if bytes follow them.
    BadLine(u32),

    /// Both changes are in one month.
    SameMonth,
}
