//! The short names of the weekdays.

/// The short names of the weekdays, from Monday to Sunday.
pub const DAY_NAMES: [&[u8]; 7] = [b"mon", b"tue", b"wed", b"thu", b"fri", b"sat", b"sun"];
