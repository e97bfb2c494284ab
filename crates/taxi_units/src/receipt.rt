//! What is shown and printed, as plain data. Money is counted in the smallest units of a tariff of
//! `decimals` decimals, 0 to 3.
use crate::event::Operating;

/// What an entry of the totalisers records.
#[derive(Clone, Copy, PartialEq, Eq)]
pub enum Kind {
    /// A hiring that was ended by the key Clear.
    Closed,
    /// A hiring that was ended by a loss of supply.
    Aborted,
    /// A hiring that had reached its longest time.
    Expired,
    /// Distance that was driven for hire.
    Roam,
}

/// A local date and time: the year 1999 to 2200, the month 1 to 12, the date 1 to 31, and the second
/// of the day 0 to 86,399.
#[derive(Clone, Copy)]
pub struct Stamp {
    pub year: u16,
    pub month: u8,
    pub date: u8,
    pub second: u32,
}

/// What the display shows. `position` and `zone` are 1 to 9.
#[derive(Clone, Copy, PartialEq, Eq)]
pub struct Display {
    pub operating: Operating,
    pub position: u8,
    pub zone: u8,
    pub fare: u64,
    pub supplements: u64,
    pub decimals: u8,
}

/// What a receipt says. `number` is the store's number after the entry, and `hired_mm` the distance of
/// the trip in millimetres. `steps` display steps of `step` each are added to `initial`, and the fare is
/// at least `minimum`.
#[derive(Clone, Copy)]
pub struct Receipt {
    pub number: u64,
    pub kind: Kind,
    pub start: Stamp,
    pub finish: Stamp,
    pub position: u8,
    pub hired_mm: u128,
    pub initial: u64,
    pub minimum: u64,
    pub steps: u64,
    pub step: u64,
    pub fare: u64,
    pub supplements: u64,
    pub decimals: u8,
}
