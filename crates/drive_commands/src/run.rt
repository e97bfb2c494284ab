//! The command `run`.
ghost use Rattle.std.specs.{Option.{ForSome}, Prelude.{ℕ, ◌+◌, ◌↔◌, ◌≡◌, ◌≤◌, Err, IfErr, IfOk, IsTrue, List, Ok}};
ghost use Rattle.{call_ends.specs.Reads.{ReadsWord}, store_commands.specs.SealedTariff.{MayLackSealed, MayLackTariff}};
ghost use Rattle.store_commands.specs.TariffSteps.{AreNoTables};
ghost use Rattle.drive_commands.specs.Common.{Carries, Fits, Rose, opening_in, store_of};
ghost use Rattle.drive_commands.specs.Run.{does_hold_fit, run_command};
ghost use Rattle.drive_commands.specs.RunSteps.{AreSealedTables, HasBegun, HasNotBegun, RunReachesLine};

use crate::drive_ends::ended_of;
use call_ends::Ended;
use meter_run::run_events;
use meter_states::fits;
use outside::{Board, Files, STORE_SIZE};
use seal_record::Seal;
use std::alloc::Global;
use std::sync::ledger::Ledger;
use store_commands::{open_sealed, read_sealed};
use tariff_compile::{Tables, compile};
use taxi_units::Steps;
use totals_record::{Durable, Trip};

/// Reads the sealed tariff from word 1, and makes its tables. It asks for the length of the text before its digest.
fn read_tables<F: Files>(alloc: Global, files: &mut F, seal: &Seal) -> Result<Tables, Ended>
    ensures found { F.tells → IfOk result (AreSealedTables seal.now (F.rest files.old 1)) }
    ensures constant { IfOk result (λ tables. tables.constant ≡ seal.now.params.constant) }
    ensures refused { (why : Ended) → F.tells → result ≡ Err why
        → AreNoTables seal.now.digest (F.rest files.old 1) (Rose (F.faults files.old 1) (F.faults files.new 1)) why }
    ensures memory { F.tells → result ≡ Err Ended.NoMemory
        → MayLackSealed seal.now.digest (F.rest files.old 1) (F.rest files.new 1) }
    ensures reads { ReadsWord F.Files 1 files.old files.new result }
{
    let checked = read_sealed(alloc, files, &seal.digest)?;
    match compile(alloc, &checked, seal.params.constant) {
        Ok(tables) => Ok(tables),
        Err(_) => Err(Ended::NoMemory),
    }
}

/// Whether a held trip fits the tables, or none is held. At most 16 steps.
fn hold_fits<L: Ledger>(hold: &Option<Trip>, tables: &Tables, steps: &mut Steps<L>) -> bool
    ensures value { result ≡ does_hold_fit tables.now hold.now }
    ensures decides { IsTrue result ↔ ForSome hold.now (Fits tables.now) }
    ensures steps { steps.new ≤ steps.old + 16 }
{
    match hold {
        None => true,
        Some(trip) => fits(trip, tables, steps),
    }
}

/// Reads the tariff of word 1, makes its tables, and asks whether the held trip fits them.
fn begin<F: Files, L: Ledger>(
    alloc: Global,
    files: &mut F,
    durable: &Durable,
    seal: &Seal,
    steps: &mut Steps<L>,
) -> Result<Tables, Ended>
    ensures begun { F.tells → IfOk result (HasBegun durable.now seal.now (F.rest files.old 1)) }
    ensures constant { IfOk result (λ tables. tables.constant ≡ seal.now.params.constant) }
    ensures refused { (image : List ℕ) → F.tells → store_of (opening_in image) ≡ Ok (durable.now, seal.now)
        → IfErr result (HasNotBegun image (F.rest files.old 1) (Rose (F.faults files.old 1) (F.faults files.new 1))) }
    ensures memory { F.tells → result ≡ Err Ended.NoMemory
        → MayLackSealed seal.now.digest (F.rest files.old 1) (F.rest files.new 1) }
    ensures reads { ReadsWord F.Files 1 files.old files.new result }
    ensures steps { steps.new ≤ steps.old + 16 }
{
    let tables = read_tables(alloc, files, seal)?;
    if !hold_fits(&durable.hold, &tables, steps) {
        return Err(Ended::BadTrip);
    }
    Ok(tables)
}

/// Scans the store, reads the sealed tariff from word 1, and carries out the drive of word 2 on the store.
pub fn run<F: Files, B: Board<STORE_SIZE, L>, L: Ledger>(
    alloc: Global,
    files: &mut F,
    board: &mut B,
    steps: &mut Steps<L>,
) -> Ended
    ensures carries { Carries F.Files B.Printer run_command files.old files.new board.old board.new
        steps.old steps.new result }
    ensures memory { F.tells → B.tells_image → result ≡ Ended.NoMemory
        → MayLackTariff (B.image board.old) (F.rest files.old 1) (F.rest files.new 1) }
    ensures runs { F.tells → B.tells_image
        → RunReachesLine F.Files B.Printer files.old files.new board.old board.new result }
{
    let store = match open_sealed(board, steps) {
        Ok(store) => store,
        Err(why) => return why,
    };
    let tables = match begin(alloc, files, &store.0, &store.1, steps) {
        Ok(tables) => tables,
        Err(why) => return why,
    };
    let ran = run_events(&tables, &store.1, files, 2, board, steps);
    ended_of(ran)
}
