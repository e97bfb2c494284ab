//! How far a store counts. It is this project's own.

/// The store takes no hiring and no roaming from this number on.
pub const HIRINGS_END: u64 = 1_000_000_000_000_000;

/// The last number with which a trip may be held. A store's number is at most one more.
pub const LAST_NUMBER: u64 = 2_000_000_000_000_000;

/// Roaming pulses are entered from this number on.
pub const ROAMING_MOST: u32 = 1_000_000;

/// The most roaming pulses that a meter has amid an event.
pub const ROAMING_AMID: u32 = 1_001_999;

/// The most that the supplements of a trip come to, in the smallest units of money.
pub const LARGEST_SUPPLEMENTS: u64 = 1_584_000_000;
