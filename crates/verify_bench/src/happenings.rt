//! What happens at an event, as far as it is told by the state behind it.
ghost use Rattle.std.specs.Prelude.{[], ◌∷◌, ◌≡◌, Some, flat_map, option_to_list, true};
ghost use Rattle.verify_bench.specs.Common.{Context, IsTripKept, Meter, Outcome, Setting, context_now, display_of};
ghost use Rattle.verify_bench.specs.{Common.{last_tick}, Settings.{setting_under}, Story.{refusals_told, whys_in}};
ghost use Rattle.verify_bench.specs.Fees.{fees_of_hiring};
ghost use Rattle.verify_bench.specs.Story.{Telling, display_told, displays_in, event_told, key_told, latch_told};
ghost use Rattle.verify_bench.specs.{Told.{ShowsAs, displays_if, reading_by}, TripExplanations.{hired_at, hired_by}};
ghost use Rattle.verify_bench.specs.Story as spec;

use crate::before::Before;
use crate::moment::Happening;
use crate::seeing::is_shown;
use crate::teller::Teller;
use seal_record::Params;
use tariff_check::Checked;
use taxi_units::{Event, Key, Operating, Why};

/// What happened at an event: what the event itself is told by, a refusal, and a display.
#[derive(Clone, Copy)]
pub(crate) struct Happenings {
    pub(crate) own: Option<Happening>,
    pub(crate) refusal: Option<Happening>,
    pub(crate) shown: Option<Happening>,
}

/// Whether a meter is in Hired or Stopped.
pub(crate) fn is_in_trip(operating: Operating) -> bool
    ensures { result ≡ spec.is_in_trip operating }
{
    matches!(operating, Operating::Hired | Operating::Stopped)
}

impl Teller {
    ghost use Rattle.verify_bench.specs.Bench.{BenchStands, IsMeterInRange};

    /// What the event itself is told by, as the meter is behind it.
    pub(crate) fn own(&self, event: Event, before: Before) -> Option<Happening>
        ensures { (s : Setting) (m : Meter) (o : Outcome) (hired : Context) (telling : Telling)
            → before.operating ≡ m.operating → before.latch ≡ m.latch
            → (spec.is_in_trip o.next.operating ≡ true → whys_in o.acts ≡ option_to_list before.refusal)
            → option_to_list before.reading ≡ reading_by telling event m
            → BenchStands s (hired_at s event m hired) self.now.meter o.next → IsTripKept s o.next
            → option_to_list result ≡ event_told s telling event m o }
    {
        match event {
            Event::Tick => self.key_acted(before),
            Event::Up(_) => self.supply_back(before.operating),
            Event::Down => self.supply_lost(before.operating),
            Event::Clock(_) => before.reading,
            Event::Pulses(_) | Event::Key(_) => None,
        }
    }

    /// What the key that waited is told by, if it acted.
    fn key_acted(&self, before: Before) -> Option<Happening>
        ensures { (s : Setting) (m : Meter) (o : Outcome) (hired : Context)
            → before.operating ≡ m.operating → before.latch ≡ m.latch
            → (spec.is_in_trip o.next.operating ≡ true → whys_in o.acts ≡ option_to_list before.refusal)
            → BenchStands s (hired_by m.latch m.operating (context_now s m) hired) self.now.meter o.next
            → IsTripKept s o.next
            → option_to_list result ≡ latch_told s m.latch m o }
    {
        if !is_in_trip(self.meter.operating) || before.refusal.is_some() {
            return None;
        }
        match before.latch {
            None => None,
            Some(key) => self.key_told(key, before.operating),
        }
    }

    /// What a key that acted in an operating position is told by.
    fn key_told(&self, key: Key, operating: Operating) -> Option<Happening>
        ensures { (s : Setting) (m behind : Meter) (hired : Context)
            → BenchStands s (hired_by (Some key) operating (context_now s m) hired) self.now.meter behind
            → spec.is_in_trip behind.operating ≡ true → IsTripKept s behind
            → option_to_list result ≡ key_told s key operating m behind }
    {
        match (key, operating) {
            (Key::Hire, Operating::ForHire) => self.hiring(),
            (Key::Hire, Operating::Stopped) => Some(Happening::HiredAgain),
            (Key::Stop, Operating::Hired) => Some(Happening::Stopped),
            (Key::Position(number), Operating::Hired) => Some(Happening::Position(number)),
            (Key::Zone(number), Operating::Hired) => Some(Happening::Zone(number)),
            (Key::Extra(number), Operating::Hired | Operating::Stopped) => {
                Some(Happening::Extra(number))
            }
            _ => None,
        }
    }

    /// What a hiring is told by.
    fn hiring(&self) -> Option<Happening>
        ensures { (s : Setting) (m behind : Meter) (now : Context) → BenchStands s now self.now.meter behind
            → spec.is_in_trip behind.operating ≡ true → IsTripKept s behind
            → option_to_list result ≡ spec.hiring_told behind (fees_of_hiring s.tariff now) ∷ [] }
    {
        match &self.meter.hiring {
            None => None,
            Some(hiring) => Some(Happening::Hired {
                position: self.meter.position,
                zone: self.meter.zone,
                fee: hiring.fees.initial_line,
                minimum: hiring.fees.minimum_line,
            }),
        }
    }

    /// What the supply that came is told by, if a trip goes on.
    fn supply_back(&self, before: Operating) -> Option<Happening>
        ensures { option_to_list result ≡ spec.supply_told before self.now.meter.operating }
    {
        match before {
            Operating::Off => {
                if is_in_trip(self.meter.operating) {
                    return Some(Happening::Back);
                }
                None
            }
            Operating::ForHire | Operating::Hired | Operating::Stopped => None,
        }
    }

    /// What a drop of the supply is told by, if the trip is held.
    fn supply_lost(&self, before: Operating) -> Option<Happening>
        ensures { (s : Setting) (behind : Meter) (hired : Context) → BenchStands s hired self.now.meter behind
            → option_to_list result ≡ spec.drop_told before behind.trip }
    {
        if is_in_trip(before) && self.meter.hiring.is_some() {
            return Some(Happening::Lost);
        }
        None
    }

    /// What a refusal is told by, if the trip went on.
    pub(crate) fn refused(&self, refusal: Option<Why>) -> Option<Happening>
        ensures { (o : Outcome) → self.now.meter.operating ≡ o.next.operating
            → (spec.is_in_trip o.next.operating ≡ true → whys_in o.acts ≡ option_to_list refusal)
            → option_to_list result ≡ refusals_told o.next.operating (whys_in o.acts) }
    {
        match refusal {
            None => None,
            Some(why) => {
                if is_in_trip(self.meter.operating) {
                    return Some(Happening::Refused(why));
                }
                None
            }
        }
    }

    /// Looks at the display, if the event shows it.
    pub(crate) fn look(
        &mut self,
        event: Event,
        before: Operating,
        checked: &Checked,
        params: &Params,
    ) -> Option<Happening>
        requires { IsMeterInRange last_tick 0 self.old.meter }
        ensures told { (m : Meter) (o : Outcome) (hired : Context) → before ≡ m.operating → self.old.shown ≡ m.shown
            → ShowsAs (setting_under checked.now params.now) event m o
            → BenchStands (setting_under checked.now params.now) hired self.old.meter o.next
            → option_to_list result ≡ flat_map display_told (displays_in o.acts) }
        ensures shown { (m : Meter) (o : Outcome) (hired : Context) → before ≡ m.operating → self.old.shown ≡ m.shown
            → ShowsAs (setting_under checked.now params.now) event m o
            → BenchStands (setting_under checked.now params.now) hired self.old.meter o.next
            → self.new.shown ≡ o.next.shown }
        ensures others { self.new ≡ record self.old { shown = self.new.shown } }
    {
        match (event, before) {
            (Event::Up(_), Operating::Off) => {
                self.shown = None;
                self.show(checked, params)
            }
            (Event::Tick, Operating::ForHire | Operating::Hired | Operating::Stopped) => {
                self.show(checked, params)
            }
            _ => None,
        }
    }

    /// Shows the display, and says it in Hired and Stopped if it differs from the one that was shown last.
    fn show(&mut self, checked: &Checked, params: &Params) -> Option<Happening>
        requires { IsMeterInRange last_tick 0 self.old.meter }
        ensures told { (m : Meter) (hired : Context)
            → BenchStands (setting_under checked.now params.now) hired self.old.meter m
            → option_to_list result ≡ flat_map display_told
            (displays_if self.old.shown (display_of (setting_under checked.now params.now) m)) }
        ensures shown { (m : Meter) (hired : Context)
            → BenchStands (setting_under checked.now params.now) hired self.old.meter m
            → self.new.shown ≡ Some (display_of (setting_under checked.now params.now) m) }
        ensures others { self.new ≡ record self.old { shown = self.new.shown } }
    {
        let display = self.meter.display(checked, params);
        let same = is_shown(&self.shown, &display);
        self.shown = Some(display);
        if same || !is_in_trip(display.operating) {
            return None;
        }
        Some(Happening::Shown {
            fare: display.fare,
            supplements: display.supplements,
        })
    }
}
