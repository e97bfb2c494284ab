//! What happens to a meter, and what it may answer.

/// A key of the meter, pressed by the driver.
#[derive(Clone, Copy)]
pub enum Key {
    /// Begins a hiring, or goes on with one that was stopped.
    Hire,
    /// Stops the calculation of the fare.
    Stop,
    /// Ends the hiring.
    Clear,
    /// Chooses a tariff position.
    Position(u8),
    /// Chooses a zone.
    Zone(u8),
    /// Adds a supplement, by its number.
    Extra(u8),
}

/// An event, which takes the meter from one state to the next. Seconds are counted from
/// 1970-01-01T00:00Z, and are 946,684,800 to 7,258,118,399.
#[derive(Clone, Copy)]
pub enum Event {
    /// The supply comes, at a second.
    Up(u64),
    /// The supply goes.
    Down,
    /// Pulses of the distance signal generator.
    Pulses(u32),
    /// The end of a measuring interval of 0.1 s.
    Tick,
    /// A reading of the clock, as a second.
    Clock(u64),
    /// A key is pressed.
    Key(Key),
}

/// The operating position.
#[derive(Clone, Copy, PartialEq, Eq)]
pub enum Operating {
    Off,
    ForHire,
    Hired,
    Stopped,
}

/// Why an event or a key was refused.
#[derive(Clone, Copy)]
pub enum Why {
    /// It isn't allowed in this operating position.
    NotNow,
    /// Another key waits for the end of the interval.
    KeyWaiting,
    /// The tariff has no such position, zone or supplement.
    NoSuch,
    /// The supplement was added as often as the tariff allows.
    AtMost,
    /// In a trip the clock was given a second before the last one.
    ClockBack { last: u64, given: u64 },
    /// This many pulses came beyond the most that an interval can have.
    TooFast(u32),
    /// The meter is powered already.
    Powered,
    /// The trip had reached its longest time.
    Expired,
    /// The store takes no further hiring.
    Ended,
}
