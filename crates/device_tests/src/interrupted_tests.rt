//! Reads and writes that signals interrupt, and that move one byte each. Such a call is made 64 times at most for each
//! byte, and any other error in the middle stays one.
use crate::faulty_system::{Again, Fault, FaultySystem, Trial};
use crate::faulty_tests::Ask::{Read, WriteFour};
use crate::faulty_tests::{Case, FOUND_CASE, UNTOUCHED, play_all};
use crate::file_tests::{STORE, Sight, enter, leave, words};
use crate::tests::{must, must_read};
use outside::HostFiles;
use std::fs;
use std::io::ErrorKind;
use std::test::Fail;

/// That store with four bytes written, or with three.
const FOUR: &[Sight] = &[Sight::Holds(STORE, &[1, 2, 3, 4], 7, 2046, &[])];

const THREE: &[Sight] = &[Sight::Holds(STORE, &[1, 2, 3], 7, 2047, &[])];

/// Pieces of four bytes that are read and written.
const PIECES: &[Case] = &[
    Case {
        name: "each call moves one byte",
        faults: &[Fault::Stubborn(0, 8)],
        before: &[Read(7)],
        calls: &[(Read(7), true), (WriteFour, true)],
        again: Again::Moves(8),
        left: FOUR,
        ..FOUND_CASE
    },
    Case {
        name: "63 signals interrupt the calls for each byte",
        faults: &[Fault::Stubborn(63, 8)],
        before: &[Read(7)],
        calls: &[(Read(7), true), (WriteFour, true)],
        again: Again::Moves(512),
        left: FOUR,
        ..FOUND_CASE
    },
    Case {
        name: "64 signals interrupt a read",
        faults: &[Fault::Stubborn(64, 4)],
        before: &[Read(7)],
        calls: &[(Read(7), false)],
        again: Again::Moves(64),
        left: UNTOUCHED,
        ..FOUND_CASE
    },
    Case {
        name: "64 signals interrupt a write",
        faults: &[Fault::Stubborn(64, 4)],
        before: &[Read(7)],
        calls: &[(WriteFour, false)],
        again: Again::Moves(64),
        left: UNTOUCHED,
        ..FOUND_CASE
    },
    Case {
        name: "a read breaks after three bytes",
        faults: &[Fault::Stubborn(0, 3)],
        before: &[Read(7)],
        calls: &[(Read(7), false)],
        again: Again::Moves(4),
        left: UNTOUCHED,
        ..FOUND_CASE
    },
    Case {
        name: "the medium is full after three bytes",
        faults: &[Fault::Stubborn(0, 3)],
        before: &[Read(7)],
        calls: &[(WriteFour, false)],
        again: Again::Moves(4),
        left: THREE,
        ..FOUND_CASE
    },
    Case {
        name: "a read breaks after three bytes, each behind 63 signals",
        faults: &[Fault::Stubborn(63, 3)],
        before: &[Read(7)],
        calls: &[(Read(7), false)],
        again: Again::Moves(256),
        left: UNTOUCHED,
        ..FOUND_CASE
    },
    Case {
        name: "the medium is full after three bytes, each behind 63 signals",
        faults: &[Fault::Stubborn(63, 3)],
        before: &[Read(7)],
        calls: &[(WriteFour, false)],
        again: Again::Moves(256),
        left: THREE,
        ..FOUND_CASE
    },
];

#[test]
fn interrupted_calls(rt: HostRuntime) -> Result<(), Fail> {
    play_all(rt, PIECES)
}

/// Reads of a word's file of five bytes: the fault, the word, the room, and what comes of each, and how often the file
/// was asked. A read gives what one call moves, and one that fails takes nothing.
const READS: &[(&[Fault], &[(usize, usize, Option<&[u8]>)], u32)] = &[
    (
        &[Fault::Stubborn(0, 5)],
        &[(0, 3, Some(b"a")), (0, 3, Some(b"b"))],
        2,
    ),
    (
        &[Fault::Stubborn(0, 1)],
        &[(0, 3, Some(b"a")), (0, 3, None)],
        2,
    ),
    (
        &[Fault::Stubborn(63, 2)],
        &[(0, 3, Some(b"a")), (0, 3, Some(b"b")), (0, 3, None)],
        192,
    ),
    (
        &[Fault::Stubborn(64, 5)],
        &[(0, 3, None), (0, 3, Some(b"a"))],
        65,
    ),
];

/// Makes the reads of a row in the working folder.
fn read_words(
    rt: HostRuntime,
    faults: &'static [Fault],
    rows: &[(usize, usize, Option<&[u8]>)],
    moves: u32,
) -> Result<(), Fail> {
    let words = words(rt)?;
    let trial = Trial::new(rt.alloc(), faults, ErrorKind::Other)?;
    trial.begin();
    let system = FaultySystem { rt, trial };
    let mut files = HostFiles::new(system, rt.alloc(), words.as_slice());
    must_read(&mut files, rows)?;
    must(
        trial.again() == Again::Moves(moves),
        "moves",
        u64::from(moves),
    )
}

/// Makes the reads of all rows in the working folder.
fn read_all(rt: HostRuntime) -> Result<(), Fail> {
    fs::write(&rt, "five", b"abcde")?;
    for (faults, rows, moves) in READS {
        read_words(rt, *faults, *rows, *moves)?;
    }
    Ok(())
}

#[test]
fn interrupted_reads_of_words(rt: HostRuntime) -> Result<(), Fail> {
    let folder = enter(rt)?;
    read_all(rt)?;
    leave(rt, folder.as_str())?;
    Ok(())
}
