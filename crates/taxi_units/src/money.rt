//! The ranges of amounts of money. They are this project's own.

/// The most that an initial hire fee, what it covers, a minimum fare and a fare may be, in the smallest
/// unit of money.
pub const LARGEST_AMOUNT: u64 = 99_999_999;

/// The most that a display step may be, in the smallest unit of money.
pub const LARGEST_DISPLAY_STEP: u64 = 1_000_000;
