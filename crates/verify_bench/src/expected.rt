//! What a hiring should come to.
use taxi_units::Kind;

/// What the receipt of a hiring should say: how the hiring ended, its fare in the tariff's smallest
/// units, its distance in millimetres, and its duration in ticks of 0.1 s.
#[derive(Clone, Copy)]
pub struct Expected {
    pub kind: Kind,
    pub fare: u64,
    pub hired_mm: u128,
    pub ticks: u32,
}
