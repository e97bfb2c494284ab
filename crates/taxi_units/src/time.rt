//! The range of the meter's seconds, and the longest trip. All three are this project's own.

/// The first second of the meter, 2000-01-01T00:00:00Z. Seconds are counted from 1970-01-01T00:00Z.
pub const FIRST_SECOND: u64 = 946_684_800;

/// The last second of the meter, 2199-12-31T23:59:59Z.
pub const LAST_SECOND: u64 = 7_258_118_399;

/// The longest trip, in measuring intervals of 0.1 s: ten days.
pub const LONGEST_TRIP: u32 = 8_640_000;
