//! Carries out acts on a store.
ghost use Rattle.std.specs.{Option.{ForSome}, Prelude.{[], ◌*◌, ◌++◌, ◌+◌, ◌∷◌, ◌≡◌, ◌≤◌, OnOk, length}};
ghost use Rattle.meter_run.specs.{Commits.{AreFor, IsFor, after_act, after_acts, commits_in}, Points.{GoesBy}};
ghost use Rattle.meter_run.specs.Common.{Fits, HasCause, HoldsState, IsDurable, IsSeal, TableParts, after};
ghost use Rattle.meter_run.specs.Deeds.{Deed, Does, act_text, after_deed, changes_of, deeds_of, texts};
ghost use Rattle.meter_run.specs.{InTurn.{Commits, CommitsInTurn}, OnStore.{Agrees, MayDo, WritesTotals}};

use crate::printing::{print_display, print_receipt, print_refusal};
use crate::stored::Known;
use meter_model::Act;
use meter_store::commit;
use outside::{Board, Failed, STORE_SIZE};
use seal_record::Seal;
use std::sync::ledger::Ledger;
use taxi_units::Steps;
use totals_record::Change;

/// Commits a change of what the store has. At most 6 steps.
fn store<B: Board<STORE_SIZE, L>, L: Ledger>(
    known: &mut Known,
    change: &Change,
    board: &mut B,
    steps: &mut Steps<L>,
) -> Result<(), Failed>
    requires slot { known.old.place.slot ≤ 1 }
    requires settled { B.tells_image → HoldsState B.Printer known.old.place board.old known.old.durable }
    requires range { IsDurable (after known.old.durable change.now) }
    ensures durable { OnOk result (known.new.durable ≡ after known.old.durable change.now) }
    ensures agrees { (tables : TableParts) → ForSome (after known.old.durable change.now).hold (Fits tables)
        → OnOk result (Agrees B.Printer tables known.new board.new) }
    ensures points { B.tells_image → (tables : TableParts) (seal : Seal) (deed : Deed)
        → ForSome known.old.durable.hold (Fits tables) → ForSome (after known.old.durable change.now).hold (Fits tables)
        → after_deed known.old.durable deed ≡ after known.old.durable change.now
        → GoesBy B.Printer tables seal board.old board.new known.old.durable (deed ∷ []) }
    ensures text { B.printed board.new ≡ B.printed board.old }
    ensures turn { B.tells_image
        → OnOk result (Commits B.Printer known.old.durable change.now board.old board.new) }
    ensures beside { B.tells_image → WritesTotals B.Printer board.old board.new }
    ensures cause { HasCause (B.faults board.old) (B.faults board.new) result }
    ensures steps { steps.new ≤ steps.old + 6 }
{
    match commit(board, &known.durable, known.place, change, steps) {
        Ok((durable, place)) => {
            *known = Known { durable, place };
            Ok(())
        }
        Err(_) => Err(Failed),
    }
}

/// Carries out an act: it prints displays, refusals and receipts, and commits entries and held trips. One
/// step for a print, and at most 6 for a commit.
#[inline(never)]
fn do_act<B: Board<STORE_SIZE, L>, L: Ledger>(
    known: &mut Known,
    act: &Act,
    seal: &Seal,
    board: &mut B,
    steps: &mut Steps<L>,
) -> Result<(), Failed>
    requires act { IsFor known.old.durable act.now }
    requires may { (tables : TableParts) × MayDo B.Printer tables known.old board.old (act.now ∷ []) }
    requires seal { IsSeal seal.now }
    ensures durable { OnOk result (known.new.durable ≡ after_act known.old.durable act.now) }
    ensures agrees { (tables : TableParts) → MayDo B.Printer tables known.old board.old (act.now ∷ [])
        → OnOk result (Agrees B.Printer tables known.new board.new) }
    ensures whole { B.tells_text → OnOk result
        (B.printed board.new ≡ B.printed board.old ++ act_text seal.now act.now) }
    ensures points { B.tells_image → (tables : TableParts) → MayDo B.Printer tables known.old board.old (act.now ∷ [])
        → GoesBy B.Printer tables seal.now board.old board.new known.old.durable (Does act.now ∷ []) }
    ensures turn { B.tells_image → OnOk result
        (CommitsInTurn B.Printer known.old.durable (changes_of (Does act.now ∷ [])) board.old board.new) }
    ensures beside { B.tells_image → WritesTotals B.Printer board.old board.new }
    ensures cause { HasCause (B.faults board.old) (B.faults board.new) result }
    ensures steps { steps.new ≤ steps.old + 1 + 5 * commits_in (act.now ∷ []) }
{
    match act {
        Act::Show(display) => print_display(display, board, steps),
        Act::Refuse(why) => print_refusal(*why, board, steps),
        Act::Enter(entry) => store(known, &Change::Enter(*entry), board, steps),
        Act::Hold(trip) => store(known, &Change::Hold(*trip), board, steps),
        Act::Receipt(receipt) => print_receipt(receipt, seal, board, steps),
    }
}

/// Carries out acts, one after the other.
#[inline(always)]
pub(crate) fn do_acts<B: Board<STORE_SIZE, L>, L: Ledger>(
    known: &mut Known,
    acts: &[Act],
    seal: &Seal,
    board: &mut B,
    steps: &mut Steps<L>,
) -> Result<(), Failed>
    requires acts { AreFor known.old.durable acts.now }
    requires may { (tables : TableParts) × MayDo B.Printer tables known.old board.old acts.now }
    requires seal { IsSeal seal.now }
    ensures durable { OnOk result (known.new.durable ≡ after_acts known.old.durable acts.now) }
    ensures agrees { (tables : TableParts) → MayDo B.Printer tables known.old board.old acts.now
        → OnOk result (Agrees B.Printer tables known.new board.new) }
    ensures whole { B.tells_text → OnOk result
        (B.printed board.new ≡ B.printed board.old ++ texts seal.now (deeds_of acts.now)) }
    ensures points { B.tells_image → (tables : TableParts) → MayDo B.Printer tables known.old board.old acts.now
        → GoesBy B.Printer tables seal.now board.old board.new known.old.durable (deeds_of acts.now) }
    ensures turn { B.tells_image → OnOk result
        (CommitsInTurn B.Printer known.old.durable (changes_of (deeds_of acts.now)) board.old board.new) }
    ensures beside { B.tells_image → WritesTotals B.Printer board.old board.new }
    ensures cause { HasCause (B.faults board.old) (B.faults board.new) result }
    ensures steps { steps.new ≤ steps.old + length acts.now + 5 * commits_in acts.now }
{
    for act in acts {
        do_act(known, act, seal, board, steps)?;
    }
    Ok(())
}
