//! The saved form of a trip.
use drive_modes::Meterage;

/// A trip that is held over a loss of supply: the seconds of its start and of its saving, whether the meter was in
/// Stopped, and the tariff position and zone, 1 to 9. It has the pulses that were roamed before the hiring, the trip's
/// pulses and ticks, the initial hire fee, the minimum fare, and what its charges have come to. It has how often each
/// of the supplements 1 to 16 was taken, and the sum of their amounts. Money is in the tariff's smallest units.
#[derive(Clone, Copy)]
pub struct Trip {
    pub started: u64,
    pub saved: u64,
    pub stopped: bool,
    pub position: u8,
    pub zone: u8,
    pub roam: u32,
    pub pulses: u64,
    pub ticks: u32,
    pub initial: u64,
    pub minimum: u64,
    pub meterage: Meterage,
    pub extras: [u8; 16],
    pub extras_sum: u64,
}
