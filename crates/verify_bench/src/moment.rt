//! What happened in a trip, and when, as plain data.
use taxi_units::{Kind, Stamp, Why};

/// What happened at a moment of a trip. Money is in the tariff's smallest units, and a line is that of the
/// tariff's text, counted from 1.
#[derive(Clone, Copy)]
pub enum Happening {
    /// The meter was hired in a tariff position and a zone, with the initial hire fee of a line, and with the
    /// minimum fare of a line if the tariff had one then.
    Hired {
        position: u8,
        zone: u8,
        fee: u32,
        minimum: Option<u32>,
    },
    /// From here on intervals in Hired were charged by the rate of this line.
    Rate(u32),
    /// The key Stop acted.
    Stopped,
    /// The key Hire acted in Stopped.
    HiredAgain,
    /// The key of a tariff position acted.
    Position(u8),
    /// The key of a zone acted.
    Zone(u8),
    /// The key of a supplement acted.
    Extra(u8),
    /// Something was refused, and the trip went on.
    Refused(Why),
    /// A display was shown.
    Shown {
        fare: u64,
        supplements: u64,
    },
    /// The supply dropped, and the trip is held.
    Lost,
    /// The supply came, and the trip went on.
    Back,
    /// The clock was read this many seconds, 2 or more, ahead of the time that was reckoned.
    ClockAhead(u64),
    /// The clock was read this many seconds, 2 or more, behind the time that was reckoned.
    ClockBehind(u128),
    /// The trip was closed.
    Ended {
        kind: Kind,
        fare: u64,
        supplements: u64,
    },
}

/// A moment of a trip: the ticks and the pulses that the trip had, the local time, and what happened.
#[derive(Clone, Copy)]
pub struct Moment {
    pub ticks: u32,
    pub pulses: u64,
    pub at: Stamp,
    pub happening: Happening,
}

/// The story of a hiring that was closed: how it ended, and its moments in order.
#[derive(Drop)]
pub struct Story {
    pub kind: Kind,
    pub moments: Vec<Moment>,
}
