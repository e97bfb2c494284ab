//! The command `port`.
ghost use Rattle.std.specs.Prelude.{◌≡◌};
ghost use Rattle.store_commands.specs.{Common.{Carries}, Port.{port_command}, StoreEnds.{ended_serving}};

use crate::sealed::open_sealed;
use call_ends::Ended;
use data_port::{PortFault, serve};
use outside::{Board, Files, STORE_SIZE};
use std::sync::ledger::Ledger;
use taxi_units::Steps;

/// Scans the store, and serves the requests of word 1 from what it has found.
pub fn serve_requests<F: Files, B: Board<STORE_SIZE, L>, L: Ledger>(
    files: &mut F,
    board: &mut B,
    steps: &mut Steps<L>,
) -> Ended
    ensures { Carries F.Files B.Printer port_command files.old files.new board.old board.new
        steps.old steps.new result }
{
    let store = match open_sealed(board, steps) {
        Ok(store) => store,
        Err(why) => return why,
    };
    let served = serve(&store.0, &store.1, files, 1, board, steps);
    ended_of_serving(served)
}

/// How a command ended that served its requests.
pub fn ended_of_serving(served: Result<(), PortFault>) -> Ended
    ensures { result ≡ ended_serving served }
{
    match served {
        Ok(()) => Ended::Done,
        Err(PortFault::ReadFault) => Ended::ReadFault,
        Err(PortFault::BoardFault) => Ended::BoardFault,
        Err(PortFault::Frame(place)) => Ended::BadFrame(place),
        Err(PortFault::TooLong) => Ended::EndlessRequests,
    }
}
