//! The condition of a line, such as a rate.

/// When a line that may have a condition, such as a rate, holds. It is asked at the beginning of a measuring interval,
/// in local time. The conditions are this project's own.
#[derive(Drop)]
pub enum Cond {
    /// Both hold.
    And(Box<Cond>, Box<Cond>),
    /// One of them holds, or both.
    Or(Box<Cond>, Box<Cond>),
    /// It doesn't hold.
    Not(Box<Cond>),
    /// The tariff position is this one, 1 to 9.
    Position(u8),
    /// The zone is this one, 1 to 9.
    Zone(u8),
    /// The minute of the day, 0 to 1,439, is `from` or later and before `to`; if `from` is the later one, `from` or
    /// later, or before `to`. Never, if both are equal.
    Time { from: u16, to: u16 },
    /// The weekday, 1 for Monday to 7 for Sunday, is from `from` to `to`; if `from` is the later one, on over Sunday.
    Day { from: u8, to: u8 },
    /// The month and date are from `from` to `to`, both included; if `from` is the later one, on over the year's end.
    Date { from: (u8, u8), to: (u8, u8) },
    /// The date is in a holiday line of the tariff.
    Holiday,
    /// The trip's distance is this many decimetres or more.
    AfterDistance(u64),
    /// The trip has taken this many tenths of a second or more.
    AfterTime(u64),
}
