//! The command `bench`.
ghost use Rattle.std.specs.Prelude.{◌≡◌};
ghost use Rattle.{store_commands.specs.SealedTariff.{MayLackTariff}, bench_commands.specs.Bench.{bench_command}};
ghost use Rattle.bench_commands.specs.Common.{Carries};

use crate::judgement::judgement;
use call_ends::{Ended, print_made};
use outside::{Board, Files, STORE_SIZE};
use std::alloc::Global;
use std::sync::ledger::Ledger;
use store_commands::open_sealed;
use taxi_units::Steps;

/// Scans the store, reads the sealed tariff from word 1, the drive from word 2 and the readings from word 3, and prints
/// the cross-over speeds and the report. It prints nothing before it has read all, and writes nothing.
pub fn bench<F: Files, B: Board<STORE_SIZE, L>, L: Ledger>(
    alloc: Global,
    files: &mut F,
    board: &mut B,
    steps: &mut Steps<L>,
) -> Ended
    ensures carries { Carries F.Files B.Printer bench_command files.old files.new board.old board.new
        steps.old steps.new result }
    ensures memory { F.tells → B.tells_image → result ≡ Ended.NoMemory
        → MayLackTariff (B.image board.old) (F.rest files.old 1) (F.rest files.new 1) }
{
    let store = match open_sealed(board, steps) {
        Ok(store) => store,
        Err(why) => return why,
    };
    print_made(judgement(alloc, &store.1, files), board, steps)
}
