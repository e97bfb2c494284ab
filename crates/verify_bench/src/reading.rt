//! What was read at a meter.

/// The readings of a hiring: its fare in the tariff's smallest units, its distance in millimetres, and
/// its duration in tenths of a second.
#[derive(Clone, Copy)]
pub struct Reading {
    pub fare: u64,
    pub distance_mm: u64,
    pub tenths: u64,
}

/// Why a text of readings isn't read.
#[derive(Clone, Copy)]
pub enum ReadingsFault {
    /// It has more than 1,048,576 bytes.
    TooLong,
    /// The first row, counted from 1, that is no row of readings.
    BadRow(u64),
    /// Memory ran out.
    NoMemory,
}
