//! The display.
ghost use Rattle.std.specs.Prelude.{ℕ, ◌≡◌, ◌≤◌, All, length};
ghost use Rattle.{taxi_units.specs.Shown.{IsShown}, meter_model.specs.Display.{extras_shown}};
ghost use Rattle.meter_states.specs.{Acts.{IsLawfulAct}, Common.{Meter, Seal, Setting, display_of, fare_shown, shown}};
ghost use Rattle.meter_states.specs.{Core.{core_of}, Equals.{display_by, extras_by, fare_by}, Lawful.{IsBetweenEvents}};
ghost use Rattle.meter_states.specs.{Setting.{IsTariffOf}, Stages.{FollowsStage}};

use crate::meter_state::State;
use crate::shown::is_shown;
use crate::trip::fare;
use meter_model::{Act, Acts};
use tariff_compile::Tables;
use taxi_units::Display;

impl State {
    /// Shows the display if it differs from the one that was shown last.
    #[inline(always)]
    pub(crate) fn show(&mut self, tables: &Tables, acts: &mut Acts)
        requires lawful { IsBetweenEvents tables.now self.old }
        requires room { length acts.old.items ≤ 3 }
        ensures lawful { IsBetweenEvents tables.now self.new }
        ensures ranges { (number : ℕ) → All (IsLawfulAct tables.now number) acts.old.items
            → All (IsLawfulAct tables.now number) acts.new.items }
        ensures follows { (seal : Seal)
            → FollowsStage tables.now seal self.old self.new acts.old.items acts.new.items shown }
    {
        let display = self.display(tables);
        if !is_shown(&self.shown, &display) {
            acts.push(Act::Show(display));
            self.shown = Some(display);
        }
    }

    /// What is shown now.
    pub(crate) fn display(&self, tables: &Tables) -> Display
        requires lawful { IsBetweenEvents tables.now self.now }
        ensures value { (s : Setting) (m : Meter) → IsTariffOf s tables.now → self.now ≡ core_of s m
            → result ≡ display_of s m }
        ensures exact { result ≡ display_by tables.now self.now }
        ensures range { IsShown result }
    {
        Display {
            operating: self.operating,
            position: self.position,
            zone: self.zone,
            fare: self.fare(tables),
            supplements: self.supplements(),
            decimals: tables.decimals(),
        }
    }

    /// The fare of the trip, 0 without one.
    fn fare(&self, tables: &Tables) -> u64
        requires lawful { IsBetweenEvents tables.now self.now }
        ensures value { (s : Setting) (m : Meter) → IsTariffOf s tables.now → self.now ≡ core_of s m
            → result ≡ fare_shown s m.trip }
        ensures exact { result ≡ fare_by tables.now self.now.trip }
    {
        match &self.trip {
            None => 0,
            Some(trip) => fare(trip, tables),
        }
    }

    /// The amounts of its supplements, 0 without one.
    fn supplements(&self) -> u64
        ensures value { (s : Setting) (m : Meter) → self.now ≡ core_of s m → result ≡ extras_shown s m.trip }
        ensures exact { result ≡ extras_by self.now.trip }
    {
        match &self.trip {
            None => 0,
            Some(trip) => trip.extras_sum,
        }
    }
}
