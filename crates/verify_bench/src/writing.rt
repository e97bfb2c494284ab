//! Writes the lines of a generated drive.
ghost use Rattle.std.specs.Prelude.{[], ◌*◌, ◌<◌, ◌∷◌, ◌≡◌, ◌≤◌};
ghost use Rattle.{arrayvec.specs.ArrayVec.{array_vec_len}, verify_bench.specs.Generated.{next_state, second_of, value}};
ghost use Rattle.verify_bench.specs.{AddedText.{lines_events}, Common.{IsInRange, Many, One, Up}};
ghost use Rattle.verify_bench.specs.Generated.{beginning, clock_read, intervals, key_pressed, line, line_text};

use drive_text::put_event;
use taxi_units::{Event, Key, Line, push_bytes, push_number};

/// The drive begins at this second, 2026-03-01T23:00:00Z.
const BEGINNING: u64 = 1_772_406_000;

/// The state of the draws, the time since the drive began in tenths of a second, the lines that were written, and how
/// many events were.
#[derive(Drop)]
pub(crate) struct Writing {
    pub(crate) state: u64,
    pub(crate) tenths: u64,
    pub(crate) text: Line,
    pub(crate) events: u64,
}

impl Writing {
    ghost use Rattle.{drive_text.specs.Ranges.{IsKeyInRange}, verify_bench.specs.AddedText.{Adds, HasRoom, place_of}};

    /// The writing at the beginning of the drive, with nothing written.
    pub(crate) fn new(seed: u64) -> Writing
        ensures place { place_of result ≡ beginning seed }
        ensures text { result.text.items ≡ [] }
        ensures len { array_vec_len result.text ≡ 0 }
        ensures events { result.events ≡ 0 }
    {
        Writing {
            state: seed,
            tenths: 0,
            text: Line::new(),
            events: 0,
        }
    }

    /// Forgets what was written, and keeps its place.
    pub(crate) fn clear(&mut self)
        ensures place { place_of self.new ≡ place_of self.old }
        ensures text { self.new.text.items ≡ [] }
        ensures events { self.new.events ≡ 0 }
    {
        self.text = Line::new();
        self.events = 0;
    }

    /// Forgets the text that was written, and keeps its place.
    pub(crate) fn clear_text(&mut self)
        ensures place { place_of self.new ≡ place_of self.old }
        ensures text { self.new.text.items ≡ [] }
        ensures events { self.new.events ≡ self.old.events }
    {
        self.text = Line::new();
    }

    /// Draws a number below another one, from the high bits of the state.
    pub(crate) fn draw(&mut self, below: u64) -> u64
        requires { 0 < below }
        ensures value { result ≡ value below (place_of self.new) }
        ensures below { result < below }
        ensures state { self.new ≡ record self.old { state = next_state self.old.state } }
    {
        let next = self.state as u128 * 6_364_136_223_846_793_005 + 1_442_695_040_888_963_407;
        self.state = (next % 18_446_744_073_709_551_616) as u64;
        (self.state >> 33) % below
    }

    /// The second.
    fn second(&self) -> u64
        requires { self.now.tenths ≤ 1000000000 }
        ensures { result ≡ second_of (place_of self.now) }
    {
        BEGINNING + self.tenths / 10
    }

    /// Writes the line of an event.
    pub(crate) fn put(&mut self, event: Event)
        requires range { IsInRange event }
        requires room { HasRoom self.old 13 0 1 }
        ensures { Adds self.old self.new 13 0 1 (line (One event) (place_of self.old)) }
    {
        put_event(&mut self.text, event).unwrap();
        self.events += 1;
    }

    /// Writes that the supply comes.
    pub(crate) fn put_up(&mut self)
        requires { HasRoom self.old 13 0 1 }
        ensures { Adds self.old self.new 13 0 1 (line (One (Up (second_of (place_of self.old)))) (place_of self.old)) }
    {
        self.put(Event::Up(self.second()));
    }

    /// Writes a reading of the clock.
    pub(crate) fn read_clock(&mut self)
        requires { HasRoom self.old 13 0 1 }
        ensures { Adds self.old self.new 13 0 1 (clock_read (place_of self.old)) }
    {
        self.put(Event::Clock(self.second()));
    }

    /// Writes intervals.
    pub(crate) fn put_intervals(&mut self, pulses: u64, count: u64)
        requires pulses { pulses ≤ 16 }
        requires count { count ≤ 1049 }
        requires room { HasRoom self.old 10 count (2 * count) }
        ensures { Adds self.old self.new 10 count (2 * count) (intervals pulses count (place_of self.old)) }
    {
        let line = line_of(pulses, count);
        push_bytes(&mut self.text, line.as_slice());
        self.tenths += count;
        self.events += events_of(pulses, count);
    }

    /// Writes that a key is pressed, and an interval without pulses.
    pub(crate) fn press(&mut self, key: Key)
        requires range { IsKeyInRange key }
        requires room { HasRoom self.old 23 1 3 }
        ensures { Adds self.old self.new 23 1 3 (key_pressed key (place_of self.old)) }
    {
        self.put(Event::Key(key));
        self.put_intervals(0, 1);
    }
}

/// How many events intervals have.
fn events_of(pulses: u64, count: u64) -> u64
    requires { count ≤ 1049 }
    ensures count { result ≡ lines_events (Many pulses count ∷ []) }
    ensures most { result ≤ 2 * count }
{
    if pulses == 0 { count } else { 2 * count }
}

/// The line of intervals.
#[tactic(auto, unfolding(crate::specs::Generated::line_text))]
fn line_of(pulses: u64, count: u64) -> Line
    ensures { result.items ≡ line_text (Many pulses count) }
{
    let mut line = Line::new();
    push_bytes(&mut line, b"I ");
    push_number(&mut line, pulses as u128);
    push_bytes(&mut line, b" ");
    push_number(&mut line, count as u128);
    push_bytes(&mut line, b"\n");
    line
}
