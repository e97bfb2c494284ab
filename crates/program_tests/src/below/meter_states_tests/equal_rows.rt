//! Tariffs and rows of equal intervals.
use taxi_units::{Event, Key};

const FIRST: u64 = 1_767_225_600;

const UP: Event = Event::Up(FIRST);

const HIRE: Event = Event::Key(Key::Hire);

const STOP: Event = Event::Key(Key::Stop);

/// Rates that change at 700 m and at a minute, ahead and behind.
pub(super) const AHEAD: &str = "decimals 2
step 0.20 ahead
supplement 1 1.50 max 2
initial 3.80 covers 0.40
rate 0.30 per 100.0 m, 0.30 per 20.0 s when after 700.0 m
rate 0.10 per 100.0 m, 0.10 per 20.0 s when after 60.0 s
rate 0.20 per 117.4 m, 0.20 per 25.2 s
";

pub(super) const BEHIND: &str = "decimals 2
step 0.20 behind
supplement 1 1.50 max 2
initial 3.80 covers 0.40
rate 0.30 per 100.0 m, 0.30 per 20.0 s when after 700.0 m
rate 0.10 per 100.0 m, 0.10 per 20.0 s when after 60.0 s
rate 0.20 per 117.4 m, 0.20 per 25.2 s
";

/// Events, and then intervals: the pulses of each, and how many there are.
pub(super) type Row = (&'static [Event], u32, u32);

pub(super) const ROWS: &[Row] = &[
    (&[UP], 2000, 600),
    (&[HIRE], 20, 300),
    (&[Event::Clock(FIRST + 1)], 7, 700),
    (&[Event::Clock(FIRST + 61)], 0, 900),
    (&[STOP], 5, 400),
    (&[HIRE], 2001, 3),
    (&[Event::Pulses(3)], 1, 2000),
    (&[Event::Key(Key::Extra(1))], 12, 500),
    (&[Event::Down, UP], 30, 300),
];
