//! Any chain of runs and cuts of the power, over boards in memory.
ghost use Rattle.std.specs.Prelude.{[], ℕ, ◌↔◌, ◌≡◌, ◌≢◌, ◌⊎◌, IfOk, IsTrue, None, OnErr, Some, length, map};
ghost use Rattle.{std.specs.Prelude.{string_bytes}, commands.specs.declared.words.Row.TheVariants.{Run}};
ghost use Rattle.run_chains.specs.{Chain.{HasChain, IsSealedStore}, ChainSteps.{HasLink, LacksMemory}};
ghost use Rattle.run_chains.specs.Common.{Durable, Fill, HasSeal, HasState, IsOfTotals, SameBut, Seal, image_of};
ghost use Rattle.run_chains.specs.{Common.{left_since_of, row_of}, Link.{IsLeftInside, call_of, text_before}};

use crate::program::Program;
use call_ends::{BOARD_FAULT, NO_MEMORY};
use memory_devices::{Fill, MemoryBoard, MemoryFiles};
use outside::{QuietBoard, STORE_SIZE};
use slot_store::{Found, scan};
use std::alloc::Global;
use std::sync::ledger::Ledger;
use store_commands::{open_store, sealed_store};
use taxi_units::{NoMemory, Steps};
use totals_record::Durable;

/// What a run of a chain leaves: the next image, the run's status, and the number that is found in the image.
#[derive(Drop)]
struct Left {
    image: [u8; STORE_SIZE],
    status: u8,
    number: u64,
}

/// Whether an image stands for a durable state and a seal, so that a chain may begin with it.
pub fn may_begin<L: Ledger>(image: &[u8; STORE_SIZE], steps: &mut Steps<L>) -> bool
    ensures { IsTrue result ↔ IsSealedStore image.now }
{
    let mut board = QuietBoard::new(image);
    match open_store(&mut board, steps) {
        Ok(opening) => sealed_store(opening).is_some(),
        Err(_) => false,
    }
}

/// The number of the state that an image stands for, as a scan finds it.
fn stored_number<L: Ledger>(image: &[u8; STORE_SIZE], steps: &mut Steps<L>) -> u64
    ensures { (durable : Durable) → HasState image.now durable → result ≡ durable.number }
{
    let mut board = QuietBoard::new(image);
    let found = match scan::<Durable, QuietBoard, L>(&mut board, 0, steps) {
        Ok(found) => found,
        Err(_) => return 0,
    };
    match found {
        Found::Latest { body, .. } => body.number,
        Found::Blank => 0,
    }
}

/// The image that is left of a run over an image, with its board. If there is a cut inside a call, it is that of the
/// cut; a number above that of the last call counts as the last call's. Without a cut it is that of the board. Before
/// the first call nothing of the run has been done.
fn left_by(
    image: &[u8; STORE_SIZE],
    board: &MemoryBoard,
    cut: Option<(u64, Fill)>,
) -> [u8; STORE_SIZE]
    ensures left { left_since_of board.now.state 0 result (text_before cut board.now.state)
        ⊎ ((result ≡ image.now) × (text_before cut board.now.state ≡ [])) }
    ensures whole { cut ≡ None → result ≡ image_of board.now.state }
    ensures none { (fill : Fill) → cut ≡ Some (0, fill) → result ≡ image.now }
    ensures inside { (call : ℕ) (fill : Fill) → cut ≡ Some (call, fill) → call ≢ 0
        → IsLeftInside board.now.state (call_of board.now.state call) result }
{
    match cut {
        None => *board.image(),
        Some((0, _)) => *image,
        Some((call, fill)) => board.cut(call.min(board.calls()), fill),
    }
}

/// One run of a chain, over an image. Its board in memory fails only if memory runs out. `NoMemory` only if there was
/// none for the board, or the run ended with 8 or 12.
fn run_over<P: Program<L>, L: Ledger>(
    alloc: Global,
    words: &[String],
    files: &mut MemoryFiles,
    image: &[u8; STORE_SIZE],
    cut: Option<(u64, Fill)>,
    steps: &mut Steps<L>,
) -> Result<Left, NoMemory>
    requires { row_of (map string_bytes words.now) ≡ Some Run }
    ensures link { (durable : Durable) → HasState image.now durable → IfOk result (λ left.
        HasLink P.ran durable image.now files.old files.new cut left.status left.image left.number) }
    ensures memory { OnErr result (LacksMemory P.ran image.now files.old files.new) }
{
    let mut board = MemoryBoard::new(alloc, image, &[])?;
    let status = P::run(alloc, words, files, &mut board, steps);
    if status == BOARD_FAULT || status == NO_MEMORY {
        return Err(NoMemory);
    }
    let next = left_by(image, &board, cut);
    let number = stored_number(&next, steps);
    Ok(Left {
        image: next,
        status,
        number,
    })
}

/// Makes runs with the words `run TARIFF DRIVE`, one after the other: the first over the given image, each other one
/// over the image that the one before it left. The i-th run is one call of the program, with the i-th files and a new
/// board in memory, of which no call is to fail.
///
/// The i-th cut says what the i-th run leaves. `Some((call, fill))` is what a cut of the power leaves inside the
/// board's call with that number, as `MemoryBoard::cut` gives it; a number above that of the last call counts as the
/// last call's. `None` is the image of the board.
///
/// The answer is the image at the end, and for each run its status and the number of the totals in the image that it
/// left. `NoMemory`: memory ran out, or a run ended with 8 or 12. It is proved of any program. Tests alone show which
/// calls those of `Taximeter` make of their boards, and what a fill makes of the bytes in flight. All of it is this
/// project's own.
pub fn chain<P: Program<L>, L: Ledger>(
    alloc: Global,
    words: &[String],
    files: &mut [MemoryFiles],
    image: &[u8; STORE_SIZE],
    cuts: &[Option<(u64, Fill)>],
    steps: &mut Steps<L>,
) -> Result<([u8; STORE_SIZE], Vec<(u8, u64)>), NoMemory>
    requires run { row_of (map string_bytes words.now) ≡ Some Run }
    requires cuts { length cuts.now ≡ length files.old }
    requires sealed { IsSealedStore image.now }

    // Each run comes to its answer's status, or to 7 if a read of its files failed. It leaves an image that stands for
    // the state after some of its commits, from the first on: as many as the number says, all if there was no cut, none
    // if the cut's call is 0. That image is what the run's board holds inside the call of the cut, but for the bytes in
    // flight there. The run's board is the one that the run's call of the program left of a new board with the image
    // before: of any program, what a call left is told by that call alone.
    ensures chain { (durable : Durable) → HasState image.now durable → IfOk result (λ ended.
        HasChain P.ran durable image.now files.old files.new cuts.now ended.0 ended.1.items) }

    // The bytes from 1,024 on stay, and so the image at the end stands for the same seal.
    ensures bytes { IfOk result (λ ended. SameBut IsOfTotals image.now ended.0) }
    ensures seal { (seal : Seal) → HasSeal image.now seal → IfOk result (λ ended. HasSeal ended.0 seal) }
{
    let mut last = *image;
    let mut answers = Vec::new(alloc);
    for i in 0..files.len() {
        let left = run_over::<P, L>(alloc, words, &mut files[i], &last, cuts[i], steps)?;
        let Ok(()) = answers.push((left.status, left.number)) else {
            return Err(NoMemory);
        };
        last = left.image;
    }
    Ok((last, answers))
}
