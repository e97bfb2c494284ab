//! The context of a meter.

/// What a meter can have at the beginning of a measuring interval. The position and the zone count from 1. The local
/// day has its number since 1970-01-01, and the minute is that of the day, 0 to 1,439. The ticks and pulses are those
/// of the trip so far, at most 8,639,999 and 2 * 10^13.
#[derive(Clone, Copy)]
pub struct MeterContext {
    pub position: u8,
    pub zone: u8,
    pub day: u32,
    pub minute: u16,
    pub ticks: u32,
    pub pulses: u64,
}
