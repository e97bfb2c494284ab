//! The parts of the tables that are plain numbers.

use drive_modes::Weights;

/// What a rate weighs, and for how many more pulses and more ticks of a trip it at least holds.
#[derive(Clone, Copy)]
pub struct Lasting {
    pub weights: Weights,
    pub further: u64,
    pub longer: u64,
}

/// The number of a cell in each dimension, from 0; or how many numbers each dimension has.
#[derive(Clone, Copy)]
pub struct Bands {
    pub position: usize,
    pub zone: usize,
    pub weekday: usize,
    pub holiday: usize,
    pub month_day: usize,
    pub minute: usize,
    pub distance: usize,
    pub time: usize,
}
