//! What the core keeps of a trip.

use drive_modes::Meterage;

/// The fees of a trip: its initial hire fee and its minimum fare, in the tariff's smallest units.
#[derive(Clone, Copy)]
pub struct Fees {
    pub initial: u64,
    pub minimum: u64,
}

/// A trip as the core keeps it: the second of its start, the pulses that were roamed before the hiring, its pulses and
/// ticks, its fees, and what its charges have come to. It also has how often each of the supplements 1 to 16 was added,
/// and the sum of their amounts in the tariff's smallest units.
#[derive(Clone, Copy)]
pub struct CoreTrip {
    pub started: u64,
    pub roam: u32,
    pub pulses: u64,
    pub ticks: u32,
    pub fees: Fees,
    pub meterage: Meterage,
    pub extras: [u8; 16],
    pub extras_sum: u64,
}
