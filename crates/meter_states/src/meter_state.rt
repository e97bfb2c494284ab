//! The state of the meter, as the core keeps it.
ghost use Rattle.std.specs.Prelude.{◌≡◌, ◌≤◌, None, Some};
ghost use Rattle.meter_states.specs.Common.{CoreTrip, Meter, Off, Setting, TableParts, longest_trip, roaming_amid};
ghost use Rattle.meter_states.specs.{Core.{core_of}, Lawful.{IsPowered, is_busy}};
ghost use Rattle.meter_model.specs.Interval as interval;
ghost use Rattle.meter_model.specs.Supply as supply;

use drive_modes::Gate;
use interval_clock::Clock;
use meter_model::CoreTrip;
use std::marker::Model;
use taxi_units::{Display, FIRST_SECOND, Key, Operating};

/// The meter's state: counts in place of pulses, and the sums of the trip in place of its intervals. It forgets
/// intervals, so it takes no memory.
#[derive(Drop)]
pub(crate) struct State {
    pub(crate) operating: Operating,
    pub(crate) clock: Clock,
    pub(crate) began: u64,
    pub(crate) gate: Gate,
    pub(crate) latch: Option<Key>,
    pub(crate) position: u8,
    pub(crate) zone: u8,
    pub(crate) roam: u32,
    pub(crate) number: u64,
    pub(crate) shown: Option<Display>,
    pub(crate) trip: Option<CoreTrip>,
}

impl Model for State {
    ghost use Rattle.meter_states.specs.Core.{CoreData};

    ghost Value = { CoreData };

    ghost view = { λ c. record {
      operating = c.operating;
      clock = c.clock;
      began = c.began;
      gate = c.gate;
      latch = c.latch;
      position = c.position;
      zone = c.zone;
      roam = c.roam;
      number = c.number;
      shown = c.shown;
      trip = c.trip;
    } };
}

impl State {
    /// A state that is off, as the meter begins.
    pub(crate) fn off() -> State
        ensures { result.operating ≡ Off }
    {
        State::idle(Operating::Off, 0, FIRST_SECOND)
    }

    /// A state without a trip, before anything was shown, with a number of the store.
    pub(crate) fn idle(operating: Operating, number: u64, second: u64) -> State
        ensures { result ≡ record {
          operating = operating;
          clock = second;
          began = second;
          gate = 0;
          latch = None;
          position = 1;
          zone = 1;
          roam = 0;
          number = number;
          shown = None;
          trip = None;
        } }
    {
        State {
            operating,
            clock: Clock::new(second),
            began: second,
            gate: Gate::new(),
            latch: None,
            position: 1,
            zone: 1,
            roam: 0,
            number,
            shown: None,
            trip: None,
        }
    }

    /// Whether a trip runs.
    pub(crate) fn is_busy(&self) -> bool
        ensures { result ≡ is_busy self.now.operating }
    {
        matches!(self.operating, Operating::Hired | Operating::Stopped)
    }

    /// Whether the meter is in Stopped.
    pub(crate) fn is_stopped(&self) -> bool
        ensures { result ≡ supply.is_stopped self.now.operating }
    {
        matches!(self.operating, Operating::Stopped)
    }

    /// The pulses of the trip so far.
    pub(crate) fn pulses(&self) -> u64
        ensures state { (s : Setting) (m : Meter) → self.now ≡ core_of s m → result ≡ interval.pulses_so_far m.trip }
        ensures exact { (t : CoreTrip) → self.now.trip ≡ Some t → result ≡ t.pulses }
        ensures range { (tables : TableParts) → IsPowered tables longest_trip roaming_amid 1 self.now
            → result ≤ 5000000000000000000 }
    {
        match &self.trip {
            None => 0,
            Some(trip) => trip.pulses,
        }
    }

    /// The ticks of the trip so far.
    pub(crate) fn ticks(&self) -> u32
        ensures state { (s : Setting) (m : Meter) → self.now ≡ core_of s m → result ≡ interval.ticks_so_far m.trip }
        ensures exact { (t : CoreTrip) → self.now.trip ≡ Some t → result ≡ t.ticks }
        ensures range { (tables : TableParts) → IsPowered tables longest_trip roaming_amid 1 self.now
            → result ≤ longest_trip }
    {
        match &self.trip {
            None => 0,
            Some(trip) => trip.ticks,
        }
    }
}
