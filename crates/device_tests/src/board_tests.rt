//! Calls of boards, and the quiet board.
ghost use Rattle.std.specs.Prelude.{◌<◌, ◌≡◌};

use crate::tests::must;
use outside::{Board, Failed, QuietBoard, STORE_SIZE};
use std::marker::Brand;
use std::sync::ledger::{Blank, Ledger};
use std::test::Fail;
use taxi_units::Steps;

/// What is asked of a board.
#[derive(Clone, Copy)]
pub(crate) enum Asked<'a> {
    Read(u32),
    Write(u32, &'a [u8]),
    Sync,
    Print(&'a [u8]),
}

/// Calls of a quiet board whose store is threes, and the four bytes that each answers.
const QUIET: &[(Asked<'static>, [u8; 4])] = &[
    (Asked::Read(2044), [3; 4]),
    (Asked::Write(2046, &[1, 2]), [0; 4]),
    (Asked::Sync, [0; 4]),
    (Asked::Print(b"HIRED\n"), [0; 4]),
    (Asked::Read(2044), [3, 3, 1, 2]),
    (Asked::Read(0), [3; 4]),
];

/// Makes a call, and gives the four bytes of a read, or zeros for any other call. A piece that doesn't lie in the store
/// isn't asked for.
pub(crate) fn call<B: Board<STORE_SIZE, L>, L: Ledger>(
    board: &mut B,
    asked: &Asked,
    steps: &mut Steps<L>,
) -> Result<[u8; 4], Failed> {
    let mut buf = [0; 4];
    let answer = match asked {
        Asked::Read(at) => {
            if *at <= 2044 {
                board.read(*at, &mut buf, steps)
            } else {
                Ok(())
            }
        }
        Asked::Write(at, bytes) => {
            if !bytes.is_empty() && bytes.len() <= 512 && *at as usize + bytes.len() <= 2048 {
                board.write_at(*at, bytes, steps)
            } else {
                Ok(())
            }
        }
        Asked::Sync => board.sync(steps),
        Asked::Print(bytes) => {
            if !bytes.is_empty() && bytes.len() <= 512 {
                board.print(bytes, steps)
            } else {
                Ok(())
            }
        }
    };
    answer?;
    Ok(buf)
}

/// Fails unless the calls of a quiet board answer what they should.
fn must_be_quiet<L: Ledger>(blank: Blank) -> Result<(), Fail>
    requires name { blank.name ≡ L.name }
    requires parts { blank.parts ≡ L.parts }
    requires one { 0 < blank.parts }
{
    let mut steps: Steps<L> = Steps::open(blank);
    let mut board = QuietBoard::new(&[3; 2048]);
    for number in 0..QUIET.len() {
        let (asked, want) = &QUIET[number];
        let answered = call(&mut board, asked, &mut steps) == Ok(*want);
        must(answered, "a quiet board", number as u64)?;
    }
    Ok(())
}

#[test]
fn calls_of_a_quiet_board() -> Result<(), Fail> {
    must_be_quiet::<Brand>(Blank::new(1))
}
