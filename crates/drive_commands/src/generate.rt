//! The command `gen`.
ghost use Rattle.std.specs.Prelude.{[], ℕ, ◌*◌, ◌+◌, ◌<◌, ◌∷◌, ◌≡◌, ◌≤◌, List, None, Some, codes, length, pos};
ghost use Rattle.{std.specs.Prelude.{replicate}, arrayvec.specs.ArrayVec.{array_vec_len}};
ghost use Rattle.{taxi_units.specs.Line.{line_size}, seal_record.specs.Ranges.{IsSeal}};
ghost use Rattle.{meter_store.specs.Sealing.{FoundSeal, FoundTotals, totals_found}, call_ends.specs.Carried.{no_files}};
ghost use Rattle.drive_commands.specs.Common.{Carries, Durable, HasState, IsSettingOf, Rose, Setting, Single, Whole};
ghost use Rattle.drive_commands.specs.Common.{drive_end, events_in, first_second, generated};
ghost use Rattle.drive_commands.specs.Generate.{city_text, event_count, gen_command, generated_text, state_after};

use arrayvec::ArrayVec;
use call_ends::{Ended, ended_behind, push_number_line, refused_by};
use drive_modes::{Constant, Mode};
use interval_clock::Offsets;
use meter_run::run_events;
use meter_store::place_seal;
use outside::{Board, Files, Printer, QuietBoard, STORE_SIZE};
use seal_record::{Params, Seal};
use slot_store::{Found, scan};
use std::alloc::Global;
use std::sync::ledger::Ledger;
use store_commands::push_summary;
use tariff_compile::Tables;
use taxi_units::{FIRST_SECOND, Line, Steps, push_bytes, push_number};
use totals_record::Durable;
use verify_bench::{Generator, generated_events};
use word_tables::tables_of_text;

/// The city tariff, under which generated drives are run.
const CITY: &[u8] = b"decimals 2\nstep 0.20 ahead\npositions 2\nzones 2\nholiday 2026-01-01\n\
    holiday 2026-12-25\nsupplement 1 2.00 max 4\nsupplement 2 0.50 max 9\n\
    supplement 3 5.00 max 1\n\
    initial 5.00 covers 0.40 when time 22:00..06:00 or day sun or holiday\n\
    initial 4.20 covers 0.40\n\
    rate 0.20 per 80.0 m, 0.20 per 20.0 s when position 2 or zone 2\n\
    rate 0.20 per 90.0 m, 0.20 per 20.0 s when time 22:00..06:00 or day sun or holiday\n\
    rate 0.20 per 100.0 m, 0.20 per 20.0 s when after 5000.0 m\n\
    rate 0.20 per 125.0 m, 0.20 per 25.0 s\n";

/// The text of the city tariff.
#[tactic(auto, unfolding(crate::specs::Generate::city_text))]
pub fn city_tariff() -> &'static [u8]
    ensures { result.now ≡ city_text }
{
    CITY
}

/// The offsets of local time an hour ahead of UTC.
#[tactic(auto, using(crate::proofs::GenDrive::is_an_hour))]
fn an_hour_ahead() -> Offsets
    ensures { result ≡ (first_second, pos 3600) ∷ [] }
{
    Offsets::from_pairs(&[(FIRST_SECOND, 3600)]).unwrap()
}

/// The constant of the meter that carries out generated drives.
pub fn ten_thousand() -> Constant
    ensures { result ≡ 10000 }
{
    Constant::new(10_000).unwrap()
}

/// The seal of that meter: in mode S, with a hold of a minute, and local time an hour ahead of UTC. It is the first of
/// the taxi `GEN`, secured on 2025-12-01, for a tariff of these decimals whose digest is zeros. This project's own.
pub fn gen_seal(decimals: u8) -> Seal
    requires { decimals ≤ 3 }
    ensures sealed { IsSeal result }
    ensures number { result.seal_number ≡ 1 }
    ensures taxi { result.params.taxi.items ≡ codes "GEN" }
    ensures constant { result.params.constant ≡ 10000 }
    ensures mode { result.params.mode ≡ Single }
    ensures hold { result.params.hold_time ≡ 60 }
    ensures offsets { result.params.offsets ≡ (first_second, pos 3600) ∷ [] }
    ensures secured { result.params.secured ≡ pos 20423 }
    ensures digest { result.digest ≡ replicate 32 0 }
    ensures decimals { result.decimals ≡ decimals }
{
    let mut taxi = ArrayVec::new();
    taxi.push(b'G');
    taxi.push(b'E');
    taxi.push(b'N');
    Seal {
        seal_number: 1,
        params: Params {
            taxi,
            constant: ten_thousand(),
            mode: Mode::Single,
            hold_time: 60,
            offsets: an_hour_ahead(),
            secured: 20_423,
        },
        digest: [0; 32],
        decimals,
    }
}

/// The state that a scan found, if it found one.
fn latest_in(found: Found<Durable>) -> Option<Durable>
    ensures { result ≡ totals_found found }
{
    match found {
        Found::Blank => None,
        Found::Latest { body, .. } => Some(body),
    }
}

/// The durable state of the store. None if the board fails, or the store has none.
fn state_in<B: Board<STORE_SIZE, L>, L: Ledger>(
    board: &mut B,
    steps: &mut Steps<L>,
) -> Option<Durable>
    ensures has { B.tells_image → ¬ Rose (B.faults board.old) (B.faults board.new)
        → (durable : Durable) → HasState (B.image board.old) durable → result ≡ Some durable }
    ensures steps { steps.new ≤ steps.old + 3 }
{
    match scan::<Durable, B, L>(board, 0, steps) {
        Ok(found) => latest_in(found),
        Err(_) => None,
    }
}

/// Seals a new store, carries out the drive of word 0 on it, and gives the durable state after it. None if a read or
/// the board fails, or the drive has a bad line.
fn run_afresh<F: Files, B: Board<STORE_SIZE, L>, L: Ledger>(
    tables: &Tables,
    seal: &Seal,
    files: &mut F,
    board: &mut B,
    steps: &mut Steps<L>,
) -> Option<Durable>
    requires constant { tables.now.constant ≡ seal.now.params.constant }
    requires seal { IsSeal seal.now }
    requires number { seal.now.seal_number ≡ 1 }
    requires blank { B.tells_image → FoundTotals B.Printer board.old None }
    requires unsealed { B.tells_image → FoundSeal B.Printer board.old None None }
    ensures state { F.tells → B.tells_image → drive_end (F.rest files.old 0) ≡ Whole
        → ¬ Rose (F.faults files.old 0) (F.faults files.new 0) → ¬ Rose (B.faults board.old) (B.faults board.new)
        → (s : Setting) → IsSettingOf s tables.now seal.now → result ≡ Some (state_after s (F.rest files.old 0)) }
    ensures steps { F.tells → B.tells_image → drive_end (F.rest files.old 0) ≡ Whole
        → ¬ Rose (F.faults files.old 0) (F.faults files.new 0) → ¬ Rose (B.faults board.old) (B.faults board.new)
        → (s : Setting) → IsSettingOf s tables.now seal.now
        → steps.new ≤ steps.old + 77 + 64 * length (events_in (F.rest files.old 0)) }
{
    match place_seal(board, None, None, seal, steps) {
        Ok(()) => match run_events(tables, seal, files, 0, board, steps) {
            Ok(()) => state_in(board, steps),
            Err(_) => None,
        },
        Err(_) => None,
    }
}

/// The durable state after all that the drive of a seed does over a new store.
fn state_of_drive<L: Ledger>(
    tables: &Tables,
    seal: &Seal,
    seed: u64,
    trips: u32,
    steps: &mut Steps<L>,
) -> Durable
    requires range { (1 ≤ trips) × (trips ≤ 1000) }
    requires seal { IsSeal seal.now }
    requires number { seal.now.seal_number ≡ 1 }
    requires setting { (s : Setting) × IsSettingOf s tables.now seal.now }
    ensures state { (s : Setting) → IsSettingOf s tables.now seal.now → result ≡ state_after s (generated seed trips) }
    ensures steps { steps.new ≤ steps.old + 77 + 64 * event_count seed trips }
{
    let mut drive = Generator::new(seed, trips);
    let mut board = QuietBoard::new(&[0; STORE_SIZE]);
    run_afresh(tables, seal, &mut drive, &mut board, steps).unwrap()
}

/// The words, the number of events, and then the totals.
fn summary(seed: u64, trips: u32, durable: &Durable, decimals: u8) -> Line
    requires range { (1 ≤ trips) × (trips ≤ 1000) }
    requires decimals { decimals ≤ 3 }
    ensures text { result.items ≡ generated_text seed trips decimals durable.now }
    ensures some { 0 < array_vec_len result }
    ensures few { array_vec_len result ≤ line_size }
{
    let mut line = Line::new();
    push_bytes(&mut line, b"GEN ");
    push_number(&mut line, seed as u128);
    push_bytes(&mut line, b" ");
    push_number(&mut line, trips as u128);
    push_bytes(&mut line, b"\n");
    push_number_line(&mut line, b"EVENTS ", generated_events(seed, trips));
    push_summary(&mut line, durable, decimals);
    line
}

/// Carries out the drive of a seed and of 1 to 1,000 trips on a meter of its own under the city tariff, and prints how
/// many events it has and the totals of that meter.
#[tactic(auto, using(call_ends::proofs::Laws::board_runs))]
pub fn generate<B: Printer<STORE_SIZE, L>, L: Ledger>(
    alloc: Global,
    seed: u64,
    trips: u32,
    board: &mut B,
    steps: &mut Steps<L>,
) -> Ended
    requires { (1 ≤ trips) × (trips ≤ 1000) }
    ensures { (contents : ℕ → List ℕ) → Carries (no_files contents) B.Printer (gen_command seed trips) tt tt
        board.old board.new steps.old steps.new result }
{
    let text = city_tariff();
    let constant = ten_thousand();
    let tables = match tables_of_text(alloc, text, constant) {
        Ok(tables) => tables,
        Err(fault) => return refused_by(fault),
    };
    let decimals = tables.decimals();
    let seal = gen_seal(decimals);
    let durable = state_of_drive(&tables, &seal, seed, trips, steps);
    let line = summary(seed, trips, &durable, decimals);
    ended_behind(board.print(line.as_slice(), steps), Ended::Done)
}
