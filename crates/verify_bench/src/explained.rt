//! Why the fare of a hiring is what it is, as plain data.
use crate::fees::HiringFees;
use taxi_units::Receipt;

/// What intervals come to together: their pulses, their ticks of 0.1 s, and the sum of their charges in
/// units of charge. The constant times the common measure of the tariff, which `tables` prints as M, units
/// of charge make the smallest unit of money.
#[derive(Clone, Copy)]
pub struct Sums {
    pub pulses: u64,
    pub ticks: u32,
    pub charge: u128,
}

/// How an interval in Hired was charged: in mode S by its distance, at and above the cross-over speed of
/// its rate, or by its time, below it; in mode D by both.
#[derive(Clone, Copy)]
pub enum Way {
    Distance,
    Time,
    Both,
}

/// The intervals of a hiring that were charged by the rate of a line of the text, counted from 1, in a way.
#[derive(Clone, Copy)]
pub struct Group {
    pub line: u32,
    pub way: Way,
    pub sums: Sums,
}

/// A supplement of a hiring: its number, 1 to 16, how often it was added, 1 to 99, and what it costs each
/// time.
#[derive(Clone, Copy)]
pub struct Taken {
    pub number: u8,
    pub count: u8,
    pub amount: u64,
}

/// A hiring, taken apart.
#[derive(Drop)]
pub struct Explained {
    /// The receipt, with the number that the store has behind its entry.
    pub receipt: Receipt,
    /// The fees with which it began.
    pub fees: HiringFees,
    /// The pulses, the ticks and the charges of the whole trip.
    pub whole: Sums,
    /// The intervals in Hired, by the rate and the way by which they were charged, in the text's order and
    /// in that of the ways. No group is empty.
    pub groups: Vec<Group>,
    /// The intervals in Stopped, which cost nothing.
    pub stopped: Sums,
    /// The pulses of intervals that drops of the supply left unfinished, which cost nothing.
    pub dropped: u64,
    /// The supplements that were added, by their numbers.
    pub taken: Vec<Taken>,
}
