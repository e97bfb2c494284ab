//! The opening of the store, with which some commands begin.
ghost use Rattle.std.specs.Prelude.{◌+◌, ◌≡◌, ◌≤◌, IfOk, IfSome, IsErrOf};
ghost use Rattle.store_commands.specs.Common.{IsAsHeld, IsAtRest, IsDurable, IsSeal, LeavesFromSync, ReadsOnly, Rose};
ghost use Rattle.store_commands.specs.Opened.{IsOpened, IsOpeningInRange};
ghost use Rattle.store_commands.specs.Opening.{fault_from, opening_in, store_ended};
ghost use Rattle.store_commands.specs.Opening as spec;

use call_ends::Ended;
use outside::{Board, STORE_SIZE};
use seal_record::Seal;
use slot_store::{Found, SlotFault, scan};
use std::sync::ledger::Ledger;
use taxi_units::Steps;
use totals_record::Durable;

/// What the store stands for: its totals and its seal, if it has them.
#[derive(Drop)]
pub struct Opening {
    pub totals: Found<Durable>,
    pub seal: Found<Seal>,
}

/// Why it isn't known what the store stands for. Slots 0 and 1 are the totals', 2 and 3 the seal's.
#[derive(Clone, Copy)]
pub enum StoreFault {
    /// This slot is open, and its body isn't read.
    BadSlot(u8),
    /// These two slots are open, with bodies of one number.
    SameNumber(u8, u8),
    /// The board failed.
    BoardFault,
}

/// Scans the pair of totals, and then that of seals. It writes and prints nothing.
///
/// `BadSlot` and `SameNumber`: the image has this fault, the totals' pair before the seal's. `BoardFault`: the board's
/// count of faults rose. From the first sync on a cut leaves the image as it was, and nothing is in flight after
/// another answer than `BoardFault`.
pub fn open_store<B: Board<STORE_SIZE, L>, L: Ledger>(
    board: &mut B,
    steps: &mut Steps<L>,
) -> Result<Opening, StoreFault>
    ensures exact { B.tells_image → ¬ IsErrOf result StoreFault.BoardFault → result ≡ opening_in (B.image board.old) }
    ensures opened { B.tells_image → IfOk result (IsOpened B.Printer board.new) }
    ensures sound { IfOk result IsOpeningInRange }
    ensures reads { ReadsOnly B.Printer board.old board.new }
    ensures synced { B.tells_image → LeavesFromSync B.Printer (IsErrOf result StoreFault.BoardFault)
        board.old board.new (IsAsHeld B.Printer board.old) }
    ensures settled { B.tells_image → ¬ IsErrOf result StoreFault.BoardFault → IsAtRest B.Printer board.new }
    ensures same { ¬ IsErrOf result StoreFault.BoardFault → B.image board.new ≡ B.image board.old }
    ensures count { ¬ IsErrOf result StoreFault.BoardFault → B.faults board.new ≡ B.faults board.old }
    ensures cause { IsErrOf result StoreFault.BoardFault → Rose (B.faults board.old) (B.faults board.new) }
    ensures steps { steps.new ≤ steps.old + 6 }
{
    let totals = match scan::<Durable, B, L>(board, 0, steps) {
        Ok(found) => found,
        Err(fault) => return Err(fault_of_pair(0, fault)),
    };
    let seal = match scan::<Seal, B, L>(board, 1024, steps) {
        Ok(found) => found,
        Err(fault) => return Err(fault_of_pair(2, fault)),
    };
    Ok(Opening { totals, seal })
}

/// The fault of a pair whose first slot has this number in the store.
fn fault_of_pair(first: u8, fault: SlotFault) -> StoreFault
    requires { first ≤ 2 }
    ensures { result ≡ fault_from first fault }
{
    match fault {
        SlotFault::BadBody(0) => StoreFault::BadSlot(first),
        SlotFault::BadBody(_) => StoreFault::BadSlot(first + 1),
        SlotFault::SameNumber(_) => StoreFault::SameNumber(first, first + 1),
        SlotFault::DeviceFailed => StoreFault::BoardFault,
    }
}

/// The totals and the seal of a store. None exactly if the store isn't sealed.
pub fn sealed_store(opening: Opening) -> Option<(Durable, Seal)>
    requires { IsOpeningInRange opening }
    ensures answer { result ≡ spec.sealed_store opening.totals opening.seal }
    ensures durable { IfSome result (λ store. IsDurable store.0) }
    ensures seal { IfSome result (λ store. IsSeal store.1) }
{
    match opening.totals {
        Found::Blank => None,
        Found::Latest { body: durable, .. } => match opening.seal {
            Found::Blank => None,
            Found::Latest { body: seal, .. } => Some((durable, seal)),
        },
    }
}

/// How a command ended by a fault of the store.
pub fn refused_store(fault: StoreFault) -> Ended
    ensures { result ≡ store_ended fault }
{
    match fault {
        StoreFault::BadSlot(slot) => Ended::BadSlot(slot),
        StoreFault::SameNumber(first, second) => Ended::SameNumber(first, second),
        StoreFault::BoardFault => Ended::BoardFault,
    }
}
