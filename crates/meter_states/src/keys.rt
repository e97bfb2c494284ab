//! Keys: one may wait for the end of the interval, and acts then.
ghost use Rattle.std.specs.Prelude.{[], ◌+◌, ◌≡◌, ◌≤◌};
ghost use Rattle.meter_model.specs.Keys.{key_in, latched};
ghost use Rattle.meter_states.specs.{Acts.{StayLawful}, Stages.{IsDoneIn, IsReadyForKey, MayClose}};
ghost use Rattle.meter_states.specs.{Common.{Meter, Setting, TableParts, key_pressed}, Core.{ComesToOutcome, core_of}};
ghost use Rattle.meter_states.specs.Lawful.{IsBetweenEvents, pressing_steps};
ghost use Rattle.meter_model.specs.Keys as model;

use crate::meter_state::State;
use crate::refusing::refuse;
use meter_model::{Acts, KeyAct};
use seal_record::Seal;
use std::sync::ledger::Ledger;
use tariff_compile::Tables;
use taxi_units::{Key, Operating, Steps, Why};

/// What a key does in an operating position.
fn act_of(key: Key, operating: Operating) -> KeyAct
    ensures value { result ≡ model.act_of key operating }
    ensures done { IsDoneIn operating result }
{
    match (key, operating) {
        (Key::Hire, Operating::ForHire) => KeyAct::Hire,
        (Key::Hire, Operating::Stopped) => KeyAct::Move(Operating::Hired),
        (Key::Stop, Operating::Hired) => KeyAct::Move(Operating::Stopped),
        (Key::Clear, Operating::Stopped) => KeyAct::Clear,
        (Key::Position(n), Operating::ForHire) => KeyAct::Position(n),
        (Key::Position(n), Operating::Hired) => KeyAct::Position(n),
        (Key::Zone(n), Operating::ForHire) => KeyAct::Zone(n),
        (Key::Zone(n), Operating::Hired) => KeyAct::Zone(n),
        (Key::Extra(n), Operating::Hired) => KeyAct::Extra(n),
        (Key::Extra(n), Operating::Stopped) => KeyAct::Extra(n),
        _ => KeyAct::Refuse,
    }
}

impl State {
    /// A key waits for the end of the interval, if none does.
    pub(crate) fn take_key(&mut self, key: Key, acts: &mut Acts)
        requires room { acts.old.items ≡ [] }
        ensures lawful { (tables : TableParts) → IsBetweenEvents tables self.old → IsBetweenEvents tables self.new }
        ensures ranges { (tables : TableParts) → StayLawful tables self.old.number acts.old.items acts.new.items }
        ensures follows { (s : Setting) (m : Meter) → self.old ≡ core_of s m
            → ComesToOutcome s self.new acts.old.items acts.new.items (latched m.latch key m) }
    {
        if let Some(_) = self.latch {
            refuse(Why::KeyWaiting, acts);
            return;
        }
        self.latch = Some(key);
    }

    /// The key that waits leaves the latch and acts. At most the steps of a key in its operating position.
    pub(crate) fn press<L: Ledger>(
        &mut self,
        tables: &Tables,
        seal: &Seal,
        acts: &mut Acts,
        steps: &mut Steps<L>,
    )
        requires ready { IsReadyForKey tables.now self.old acts.old.items }
        ensures stage { MayClose tables.now seal.now 2 self.old self.new acts.old.items acts.new.items key_pressed }
        ensures steps { steps.new ≤ steps.old + pressing_steps self.old.operating }
    {
        if let Some(key) = self.latch {
            self.latch = None;
            self.press_key(key, tables, seal, acts, steps);
        }
    }

    /// A key does what it does in this operating position, or is refused.
    #[inline(never)]
    fn press_key<L: Ledger>(
        &mut self,
        key: Key,
        tables: &Tables,
        seal: &Seal,
        acts: &mut Acts,
        steps: &mut Steps<L>,
    )
        requires ready { IsReadyForKey tables.now self.old acts.old.items }
        ensures stage { MayClose tables.now seal.now 2 self.old self.new acts.old.items acts.new.items
            (λ s m. key_in s key m.operating m) }
        ensures steps { steps.new ≤ steps.old + pressing_steps self.old.operating }
    {
        match act_of(key, self.operating) {
            KeyAct::Hire => self.hire(tables, seal, acts, steps),
            KeyAct::Move(operating) => {
                self.operating = operating;
            }
            KeyAct::Clear => self.clear(tables, seal, acts, steps),
            KeyAct::Position(n) => self.set_position(n, tables, acts),
            KeyAct::Zone(n) => self.set_zone(n, tables, acts),
            KeyAct::Extra(n) => self.add_extra(n, tables, acts, steps),
            KeyAct::Refuse => refuse(Why::NotNow, acts),
        }
    }
}
