//! What a pair of slots stands for.
ghost use Rattle.std.specs.Prelude.{◌+◌, ◌≡◌, ◌≤◌, IfOk, IsErr, IsErrOf, OnOk};
ghost use Rattle.{outside.specs.Faults.{RisesOnlyIf}, slot_store.specs.Verdicts.{AreOfSlots, content_of, verdict_on}};
ghost use Rattle.slot_store.specs.{Common.{HasCause}, Sizes.{last_pair}};
ghost use Rattle.slot_store.specs.{Scan.{IsAsFound, IsValidFinding, found_at}, Syncs.{ReadsOnly, SyncsFirst}};

use crate::found::SlotContent;
use crate::pair::{OPEN, SLOT_SIZE};
use crate::{Found, Place, SlotFault};
use outside::{Board, Failed, STORE_SIZE};
use slot_bodies::{BODY_SIZE, Body};
use std::sync::ledger::Ledger;
use taxi_units::Steps;

/// Finds what the pair of slots that begins at `at`, at most 1,024, stands for, by one sync and two reads. It writes
/// and prints nothing, and at no moment might a cut have left what it couldn't have left before.
///
/// If no slot is open, the pair is `Blank`; else the open slot whose body has the greatest number has the latest body.
///
/// - `BadBody`: an open slot's body isn't read. It names the lower such slot.
/// - `SameNumber`: none is bad, and both slots are open with this one number.
/// - `DeviceFailed`: the board failed, so its count of faults rose by one. Else it is as it was.
///
/// After each answer but `DeviceFailed` nothing is in flight, the image is as it was, and three calls were made; after
/// `Latest` the pair is settled at the place. From the sync on a cut leaves the image as it was, and nothing else.
pub fn scan<T: Body, B: Board<STORE_SIZE, L>, L: Ledger>(
    board: &mut B,
    at: u32,
    steps: &mut Steps<L>,
) -> Result<Found<T>, SlotFault>
    requires { at ≤ last_pair }
    ensures exact { B.tells_image → ¬ IsErrOf result SlotFault.DeviceFailed
        → result ≡ found_at T.reads T.number_of at (B.image board.old) }
    ensures settled { B.tells_image → IfOk result
        (IsAsFound T.reads T.number_of at (B.image board.new) (B.in_flight board.new)) }
    ensures sound { IfOk result (IsValidFinding T.valid) }
    ensures reads { ReadsOnly B.Printer board.old board.new }
    ensures synced { SyncsFirst B.Printer (IsErrOf result SlotFault.DeviceFailed) board.old board.new }
    ensures cause { RisesOnlyIf (IsErrOf result SlotFault.DeviceFailed) (B.faults board.old) (B.faults board.new) }
    ensures calls { ¬ IsErrOf result SlotFault.DeviceFailed → steps.new ≡ steps.old + 3 }
    ensures steps { steps.new ≤ steps.old + 3 }
{
    let (first, second) = read_pair(board, at, steps)?;
    judge(&first, &second)
}

/// Syncs, and reads the bytes of both slots.
fn read_pair<B: Board<STORE_SIZE, L>, L: Ledger>(
    board: &mut B,
    at: u32,
    steps: &mut Steps<L>,
) -> Result<([u8; SLOT_SIZE], [u8; SLOT_SIZE]), Failed>
    requires { at ≤ last_pair }
    ensures slots { B.tells_image → IfOk result (AreOfSlots at (B.image board.old)) }
    ensures reads { ReadsOnly B.Printer board.old board.new }
    ensures synced { SyncsFirst B.Printer (IsErr result) board.old board.new }
    ensures cause { HasCause (B.faults board.old) (B.faults board.new) result }
    ensures calls { OnOk result (steps.new ≡ steps.old + 3) }
    ensures steps { steps.new ≤ steps.old + 3 }
{
    board.sync(steps)?;
    read_slots(board, at, steps)
}

/// Reads the bytes of both slots.
fn read_slots<B: Board<STORE_SIZE, L>, L: Ledger>(
    board: &mut B,
    at: u32,
    steps: &mut Steps<L>,
) -> Result<([u8; SLOT_SIZE], [u8; SLOT_SIZE]), Failed>
    requires { at ≤ last_pair }
    ensures slots { B.tells_image → IfOk result (AreOfSlots at (B.image board.old)) }
    ensures same { B.image board.new ≡ B.image board.old }
    ensures reads { ReadsOnly B.Printer board.old board.new }
    ensures cause { HasCause (B.faults board.old) (B.faults board.new) result }
    ensures calls { OnOk result (steps.new ≡ steps.old + 2) }
    ensures steps { steps.new ≤ steps.old + 2 }
{
    let mut first = [0; SLOT_SIZE];
    board.read(at, &mut first, steps)?;
    let mut second = [0; SLOT_SIZE];
    board.read(at + SLOT_SIZE as u32, &mut second, steps)?;
    Ok((first, second))
}

/// The answer to the bytes of two slots.
fn judge<T: Body>(first: &[u8; SLOT_SIZE], second: &[u8; SLOT_SIZE]) -> Result<Found<T>, SlotFault>
    ensures exact { result ≡ verdict_on T.reads T.number_of first.now second.now }
    ensures sound { IfOk result (IsValidFinding T.valid) }
    ensures not_failed { ¬ IsErrOf result SlotFault.DeviceFailed }
{
    match (slot_content::<T>(first), slot_content::<T>(second)) {
        (SlotContent::Closed, SlotContent::Closed) => Ok(Found::Blank),
        (SlotContent::Unread, _) => Err(SlotFault::BadBody(0)),
        (_, SlotContent::Unread) => Err(SlotFault::BadBody(1)),
        (SlotContent::Read(body), SlotContent::Closed) => Ok(latest(0, false, body)),
        (SlotContent::Closed, SlotContent::Read(body)) => Ok(latest(1, false, body)),
        (SlotContent::Read(a), SlotContent::Read(b)) => {
            let (first_number, second_number) = (a.number(), b.number());
            if first_number == second_number {
                Err(SlotFault::SameNumber(first_number))
            } else if first_number < second_number {
                Ok(latest(1, true, b))
            } else {
                Ok(latest(0, true, a))
            }
        }
    }
}

/// The answer if this slot has the latest body.
fn latest<T: Body>(slot: u8, other_open: bool, body: T) -> Found<T>
    ensures { result ≡ Found.Latest (record { slot = slot; other_open = other_open }) body }
{
    Found::Latest {
        place: Place { slot, other_open },
        body,
    }
}

/// What the bytes of a slot hold.
fn slot_content<T: Body>(slot: &[u8; SLOT_SIZE]) -> SlotContent<T>
    ensures { result ≡ content_of T.reads slot.now }
{
    if slot[0] != OPEN {
        return SlotContent::Closed;
    }
    let mut body = [0; BODY_SIZE];
    body.copy_from_slice(&slot[1..]);
    match T::get(&body) {
        Some(body) => SlotContent::Read(body),
        None => SlotContent::Unread,
    }
}
