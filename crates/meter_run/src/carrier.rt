//! What carries out events on a board.
ghost use Rattle.std.specs.Prelude.{[], ◌++◌, ◌+◌, ◌∷◌, ◌≤◌, List, OnErr, OnOk};
ghost use Rattle.meter_run.specs.Common.{HasCause, IsTimely, intervals_events};

use meter_model::Acts;
use outside::{Failed, Printer, STORE_SIZE};
use seal_record::Seal;
use std::sync::ledger::Ledger;
use tariff_compile::Tables;
use taxi_units::{Event, Steps};

/// What a run goes by: the tables of its tariff, and its seal.
#[derive(Clone, Copy)]
pub(crate) struct SealedTables<'a> {
    pub(crate) tables: &'a Tables,
    pub(crate) seal: &'a Seal,
}

/// A meter that carries out events on a board. What it says of them holds of one event, of none, and of one list of
/// events behind another. So whoever goes over a drive proves it of a whole drive.
pub(crate) trait Carrier<B: Printer<STORE_SIZE, L>, L: Ledger> {
    ghost use Rattle.meter_run.specs.{Common.{Event}, declared.carrier.SealedTables.{SealedTables}};

    /// The next event may come.
    ghost ready: { SealedTables → Self → B → Type 0 };

    /// These events were carried out, from the first meter and board to the second.
    ghost carried: { SealedTables → Self → B → List Event → Self → B → Type 0 };

    /// The board failed amid these events.
    ghost broke_off: { SealedTables → Self → B → List Event → B → Type 0 };

    /// Carries out an event; `acts` is a list to work with, whatever it has. At most 64 steps.
    fn carry_event(
        &mut self,
        by: &SealedTables<'_>,
        event: Event,
        acts: &mut Acts,
        board: &mut B,
        steps: &mut Steps<L>,
    ) -> Result<(), Failed>
        requires ready { ready by.now self.old board.old }
        requires timely { IsTimely event }
        ensures ready { OnOk result (ready by.now self.new board.new) }
        ensures carried { OnOk result (carried by.now self.old board.old (event ∷ []) self.new board.new) }
        ensures broke_off { OnErr result (broke_off by.now self.old board.old (event ∷ []) board.new) }
        ensures cause { HasCause (B.faults board.old) (B.faults board.new) result }
        ensures steps { steps.new ≤ steps.old + 64 };

    /// Carries out as many of `count` equal intervals as the core can at once, and answers how many. It touches no
    /// board and takes no step, so this holds on each board on which the next event may come.
    fn carry_equal(&mut self, by: &SealedTables<'_>, pulses: u32, count: u32) -> u32
        requires { (board : B) × ready by.now self.old board }
        ensures most { result ≤ count }
        ensures ready { (board : B) → ready by.now self.old board → ready by.now self.new board }
        ensures carried { (board : B) → ready by.now self.old board
            → carried by.now self.old board (intervals_events pulses result) self.new board };

    /// No events leave all as it is.
    ghost nothing: { (r : SealedTables) (x : Self) (a : B) → ready r x a → carried r x a [] x a };

    /// Events behind others.
    ghost behind: { (r : SealedTables) (es fs : List Event) (x : Self) (a : B) (y : Self) (b : B) (z : Self) (c : B)
        → carried r x a es y b → carried r y b fs z c → carried r x a (es ++ fs) z c };

    /// The board failed amid events behind others.
    ghost later: { (r : SealedTables) (es fs : List Event) (x : Self) (a : B) (y : Self) (b c : B)
        → carried r x a es y b → broke_off r y b fs c → broke_off r x a (es ++ fs) c };

    /// The board failed before further events.
    ghost sooner: { (r : SealedTables) (es fs : List Event) (x : Self) (a c : B)
        → broke_off r x a es c → broke_off r x a (es ++ fs) c };
}
