//! The context in which conditions are asked.
use drive_modes::Constant;

/// What holds at the beginning of a measuring interval, in local time: the constant of the taximeter; the tariff
/// position and the zone, from 1; the weekday, 1 for Monday to 7 for Sunday; the day's place in a leap year, 0 for 1
/// January to 365 for 31 December; whether the date is a holiday of the tariff; the minute of the day, 0 to 1,439; and
/// the pulses and ticks of the trip so far.
#[derive(Clone, Copy)]
pub struct Context {
    pub constant: Constant,
    pub position: u8,
    pub zone: u8,
    pub weekday: u8,
    pub month_day: u16,
    pub holiday: bool,
    pub minute: u16,
    pub pulses: u64,
    pub ticks: u32,
}
