//! The board in memory, call by call, and cuts in its calls.
ghost use Rattle.std.specs.Prelude.{◌<◌, ◌↔◌, ◌≡◌, ◌≤◌, IsTrue, length};

use crate::meter::tests::{must_at, must_behind};
use memory_devices::{Fill, MemoryBoard};
use outside::{Board, Failed, Printer};
use std::alloc::Global;
use std::marker::Brand;
use std::sync::ledger::{Blank, Ledger};
use std::test::Fail;
use taxi_units::Steps;

/// What is asked of a board: its first four bytes, a write from a place on, a sync, or a print.
#[derive(Clone, Copy)]
enum Asked {
    Read,
    Write(u8, &'static [u8]),
    Sync,
    Print(&'static [u8]),
}

/// Calls of a board in memory whose store is zeros, and what they leave.
#[derive(Clone, Copy)]
struct Story {
    name: &'static str,

    /// The numbers of the calls that fail.
    fail: &'static [u64],

    /// Each call, its answer, and what is printed after it.
    calls: &'static [(Asked, Result<[u8; 4], Failed>, &'static [u8])],

    /// The bytes in front that a cut inside a call leaves, by the fill.
    cuts: &'static [(u64, Fill, &'static [u8])],

    /// The bytes in front that a read gives after the calls.
    image: &'static [u8],
}

const STORIES: &[Story] = &[
    Story {
        name: "one write",
        fail: &[],
        calls: &[(Asked::Write(0, &[1, 2]), Ok([0; 4]), b"")],
        cuts: &[
            (1, Fill::Old, &[0, 0, 0]),
            (1, Fill::New, &[1, 2, 0]),
            (1, Fill::Half, &[1, 0, 0]),
            (1, Fill::Byte(7), &[7, 7, 0]),
        ],
        image: &[1, 2, 0],
    },
    Story {
        name: "a write, its sync, a write over it, one that overlaps that, a read, a sync, a print",
        fail: &[],
        calls: &[
            (Asked::Write(0, &[1, 2, 3, 4]), Ok([0; 4]), b""),
            (Asked::Sync, Ok([0; 4]), b""),
            (Asked::Write(0, &[5, 6, 7, 8]), Ok([0; 4]), b""),
            (Asked::Write(2, &[9, 10, 11]), Ok([0; 4]), b""),
            (Asked::Read, Ok([5, 6, 9, 10]), b""),
            (Asked::Sync, Ok([0; 4]), b""),
            (Asked::Print(b"FOR HIRE\n"), Ok([0; 4]), b"FOR HIRE\n"),
        ],
        cuts: &[
            (0, Fill::Byte(165), &[0, 0, 0, 0, 0, 0]),
            (1, Fill::Old, &[0, 0, 0, 0, 0, 0]),
            (1, Fill::New, &[1, 2, 3, 4, 0, 0]),
            (1, Fill::Half, &[1, 2, 0, 0, 0, 0]),
            (1, Fill::Byte(165), &[165, 165, 165, 165, 0, 0]),
            (2, Fill::Old, &[0, 0, 0, 0, 0, 0]),
            (2, Fill::New, &[1, 2, 3, 4, 0, 0]),
            (3, Fill::Old, &[1, 2, 3, 4, 0, 0]),
            (3, Fill::New, &[5, 6, 7, 8, 0, 0]),
            (3, Fill::Half, &[5, 6, 3, 4, 0, 0]),
            (4, Fill::Old, &[1, 2, 3, 4, 0, 0]),
            (4, Fill::New, &[5, 6, 9, 10, 11, 0]),
            (4, Fill::Half, &[5, 6, 9, 4, 0, 0]),
            (4, Fill::Byte(165), &[165, 165, 165, 165, 165, 0]),
            (5, Fill::Half, &[5, 6, 9, 4, 0, 0]),
            (6, Fill::Byte(165), &[165, 165, 165, 165, 165, 0]),
            (7, Fill::Old, &[5, 6, 9, 10, 11, 0]),
            (7, Fill::New, &[5, 6, 9, 10, 11, 0]),
            (7, Fill::Half, &[5, 6, 9, 10, 11, 0]),
            (7, Fill::Byte(165), &[5, 6, 9, 10, 11, 0]),
        ],
        image: &[5, 6, 9, 10, 11, 0],
    },
    Story {
        name: "the same, where the second overlapping write and the sync behind it fail",
        fail: &[4, 6],
        calls: &[
            (Asked::Write(0, &[1, 2, 3, 4]), Ok([0; 4]), b""),
            (Asked::Sync, Ok([0; 4]), b""),
            (Asked::Write(0, &[5, 6, 7, 8]), Ok([0; 4]), b""),
            (Asked::Write(2, &[9, 10, 11]), Err(Failed), b""),
            (Asked::Read, Ok([5, 6, 7, 8]), b""),
            (Asked::Sync, Err(Failed), b""),
            (Asked::Print(b"FOR HIRE\n"), Ok([0; 4]), b"FOR HIRE\n"),
        ],
        cuts: &[
            (3, Fill::New, &[5, 6, 7, 8, 0, 0]),
            (4, Fill::New, &[5, 6, 9, 10, 11, 0]),
            (7, Fill::Old, &[1, 2, 3, 4, 0, 0]),
            (7, Fill::New, &[5, 6, 9, 10, 11, 0]),
            (7, Fill::Half, &[5, 6, 9, 4, 0, 0]),
            (7, Fill::Byte(165), &[165, 165, 165, 165, 165, 0]),
        ],
        image: &[5, 6, 7, 8, 0, 0],
    },
    Story {
        name: "three prints, of which the second fails",
        fail: &[2],
        calls: &[
            (Asked::Print(b"FOR "), Ok([0; 4]), b"FOR "),
            (Asked::Print(b"RENT"), Err(Failed), b"FOR "),
            (Asked::Print(b"HIRE\n"), Ok([0; 4]), b"FOR HIRE\n"),
        ],
        cuts: &[],
        image: &[0],
    },
];

/// Whether bytes are a piece of a store or of a text.
fn is_piece(bytes: &[u8]) -> bool
    ensures { IsTrue result ↔ ((0 < length bytes.now) × (length bytes.now ≤ 512)) }
{
    0 < bytes.len() && bytes.len() <= 512
}

/// Makes a call, and gives the four bytes of a read, or zeros for any other call.
fn call<L: Ledger>(
    board: &mut MemoryBoard,
    asked: &Asked,
    steps: &mut Steps<L>,
) -> Result<[u8; 4], Failed> {
    let mut buf = [0; 4];
    match asked {
        Asked::Read => board.read(0, &mut buf, steps)?,
        Asked::Sync => board.sync(steps)?,
        Asked::Write(at, bytes) if is_piece(bytes) => {
            board.write_at(u32::from(*at), bytes, steps)?
        }
        Asked::Print(bytes) if is_piece(bytes) => board.print(bytes, steps)?,
        _ => {}
    }
    Ok(buf)
}

/// Whether the board has printed this.
fn has_printed(board: &MemoryBoard, text: &[u8]) -> bool {
    board.printed() == text
}

/// Makes a story's calls, each of which must answer and print what the story says.
fn must_answer<L: Ledger>(
    board: &mut MemoryBoard,
    story: &Story,
    steps: &mut Steps<L>,
) -> Result<(), Fail> {
    for (asked, answer, printed) in story.calls {
        let answered = call(board, asked, steps) == *answer;
        must_at(
            answered && has_printed(board, printed),
            story.name,
            board.calls(),
        )?;
    }
    Ok(())
}

/// The board after a story's calls.
fn called<L: Ledger>(alloc: Global, blank: Blank, story: &Story) -> Result<MemoryBoard, Fail>
    requires name { blank.name ≡ L.name }
    requires parts { blank.parts ≡ L.parts }
    requires one { 0 < blank.parts }
{
    let mut steps: Steps<L> = Steps::open(blank);
    let mut board = MemoryBoard::new(alloc, &[0; 2048], story.fail)?;
    must_answer(&mut board, story, &mut steps)?;
    Ok(board)
}

/// Whether the call was kept, and a cut inside it leaves these bytes in front.
fn leaves(board: &MemoryBoard, call: u64, fill: Fill, front: &[u8]) -> bool {
    call <= board.calls() && board.cut(call, fill).starts_with(front)
}

/// Fails unless each cut leaves what the story says.
fn must_leave(board: &MemoryBoard, story: &Story) -> Result<(), Fail> {
    for (call, fill, front) in story.cuts {
        let leaves = leaves(board, *call, *fill, front);
        must_behind(leaves, story.name, *call, *fill)?;
    }
    Ok(())
}

/// Fails unless the board has the story's image, and kept each call.
fn must_have(board: &MemoryBoard, story: &Story) -> Result<(), Fail> {
    let kept = board.calls() == story.calls.len() as u64 && board.refused() == 0;
    let held = board.image().starts_with(story.image);
    must_at(kept && held, story.name, 0)
}

/// Fails unless a story's calls and cuts are as it says.
fn must_be_told(alloc: Global, story: &Story) -> Result<(), Fail> {
    let board = called::<Brand>(alloc, Blank::new(1), story)?;
    must_have(&board, story)?;
    must_leave(&board, story)
}

#[test]
fn calls_of_a_memory_board_and_cuts_in_them(rt: HostRuntime) -> Result<(), Fail> {
    for story in STORIES {
        must_be_told(rt.alloc(), story)?;
    }
    Ok(())
}
