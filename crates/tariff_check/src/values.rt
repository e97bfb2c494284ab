//! What a hiring begins with, and what supplements and holidays say, as plain numbers: money in units of the
//! tariff's last decimal.

/// What a hiring begins with, in units of the last decimal: the initial hire fee, the amount of charges that it covers,
/// and the minimum fare, or 0 if no minimum line holds. Each is at most 99,999,999 in a sound tariff.
#[derive(Clone, Copy)]
pub struct Initial {
    pub amount: u64,
    pub covers: u64,
    pub minimum: u64,
}

/// A supplement, in units of the last decimal, and how often a hiring may have it: at most 1,000,000, and 1 to 99,
/// in a sound tariff.
#[derive(Clone, Copy)]
pub struct Supplement {
    pub amount: u64,
    pub max: u8,
}

impl Supplement {
    /// Takes a supplement apart. It compiles only while it is two numbers and nothing else.
    fn take_apart(self) -> (u64, u8) {
        let Supplement { amount, max } = self;
        (amount, max)
    }
}

/// The date of a holiday: one of the years 2000 to 2199 in a sound tariff.
#[derive(Clone, Copy)]
pub struct DateNumbers {
    pub year: u16,
    pub month: u8,
    pub date: u8,
}
