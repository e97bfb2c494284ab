//! Each failure of the outside in turn, at each place of a run.
use crate::meter::chain_tests::{Cut, chained};
use crate::meter::run_tests::{HELD, HIRING, RUN, has_totals, sealed};
use crate::meter::tests::{
    A, Ended, FILLS, P, broken_off, called, cut_in, is_made_of, must, must_at, must_behind, whole,
};
use memory_devices::{Fill, MemoryBoard};
use std::alloc::Global;
use std::test::Fail;

/// A chain of one run that isn't cut.
const ONE: &[(&str, &[u64])] = &[(HIRING, &[])];

const NO_CUT: &[Cut] = &[None];

/// Whether a run goes on over an image: it ends with 0, and its hiring has the number behind one from 1 to 3.
fn goes_on(alloc: Global, image: &[u8; 2048]) -> Result<bool, Fail> {
    let (_, answers) = chained(alloc, ONE, image, NO_CUT)?;
    Ok(match answers.as_slice() {
        [(status, number)] => *status == 0 && 2 <= *number && *number <= 4,
        _ => false,
    })
}

/// Fails unless a run goes on over what a cut leaves of a board, with each of these fills.
fn must_go_on(alloc: Global, board: &MemoryBoard, number: u64, fills: &[Fill]) -> Result<(), Fail> {
    for fill in fills {
        let goes_on = goes_on(alloc, &cut_in(board, board.calls(), *fill))?;
        must_behind(goes_on, "no run", number, *fill)?;
    }
    Ok(())
}

/// Fails unless the run breaks off at this failing call of the board, and another run goes on over what it leaves.
fn must_outlast(
    alloc: Global,
    image: &[u8; 2048],
    whole: &MemoryBoard,
    number: u64,
) -> Result<(), Fail> {
    let board = broken_off(alloc, image, RUN, &[A, HELD], whole.printed(), number)?;
    must_go_on(alloc, &board, number, FILLS)
}

/// Fails unless that holds of each of the 28 calls of a run.
fn must_outlast_each(alloc: Global, image: &[u8; 2048], run: &Ended) -> Result<(), Fail> {
    let is_run = run.1 == 0 && run.0.calls() == 28;
    must(is_run, "another run", "held")?;
    for number in 1..=28 {
        must_outlast(alloc, image, &run.0, number)?;
    }
    Ok(())
}

/// Each of the 28 calls of the board fails in a run with a loss of supply. What it leaves is cut with each fill, and
/// a run goes on over it.
#[test]
fn runs_go_on_after_each_failed_call(rt: HostRuntime) -> Result<(), Fail> {
    let image = sealed(rt.alloc(), A, P)?;
    let run = whole(rt.alloc(), RUN, &[A, HELD], &image)?;
    must_outlast_each(rt.alloc(), &image, &run)
}

/// What the hiring shows. The digest is what sha256sum gives of tariff A.
pub(crate) const SHOWN: &str =
    "FOR HIRE T1 Z1\nHIRED T1 Z1 3.80 +0.00\nSTOPPED T1 Z1 3.80 +0.00\nRECEIPT 2\nKIND CLOSED\n\
     TAXI LX-4711\nCONSTANT 10000\nSECURED 2025-12-01\n\
     TARIFF 2645762409b70e5ab72a0a803b7d1a341373264e56971a8f44cb1969489d5f9b\n\
     START 2026-01-01 01:00:00\nFINISH 2026-01-01 01:00:00\nPOSITION 1\nDISTANCE 234.800 m\n\
     CALC 3.80 + 0 x 0.20\nFARE 3.80\nSUPPLEMENTS 0.00\nTOTAL 3.80\nEND\nFOR HIRE T1 Z1\n";

/// The totals of a newly sealed store, and those behind the hiring.
const NONE: &str = "NUMBER 1\nDISTANCE 0.000 m\n";

const ADDED: &str =
    "NUMBER 2\nDISTANCE 234.800 m\nHIRED 234.800 m\nHIRINGS 1\nSUPPLEMENTS 0.00\nFARE 3.80\nHELD no\n";

/// A drive that ends in a hiring, and what it shows.
const BEGUN: &str = "U 1767225600\nK H\nI 0 1\n";

const SHOWN_OF_BEGUN: &str = "FOR HIRE T1 Z1\nHIRED T1 Z1 3.80 +0.00\n";

/// A drive, the read that fails, the pieces of what is printed, the status, and how the totals begin behind it. Reads 1
/// and 2 are the tariff's, and 3 and 4 the drive's; before read 4 all events of the drive were carried out, and there
/// is no read 5.
type Reading = (&'static str, u64, &'static [&'static str], u8, &'static str);

const READS: &[Reading] = &[
    (HIRING, 1, &["READ FAULT\n"], 7, NONE),
    (HIRING, 2, &["READ FAULT\n"], 7, NONE),
    (HIRING, 3, &["READ FAULT\n"], 7, NONE),
    (HIRING, 4, &[SHOWN, "READ FAULT\n"], 7, ADDED),
    (HIRING, 5, &[SHOWN], 0, ADDED),
    (BEGUN, 4, &[SHOWN_OF_BEGUN, "READ FAULT\n"], 7, "NUMBER 2\n"),
];

/// Whether a run over an image ends as it should.
fn ends(alloc: Global, image: &[u8; 2048], reading: &Reading) -> Result<bool, Fail> {
    let (drive, read, output, status, totals) = *reading;
    let ended = called(alloc, RUN, &[A, drive], image, &[], &[read])?;
    let is_end = ended.1 == status && is_made_of(ended.0.printed(), output);
    Ok(has_totals(alloc, ended.0.image(), totals)? && is_end)
}

/// Fails unless each of these runs over an image ends as it should.
fn must_end_all(alloc: Global, image: &[u8; 2048], readings: &[Reading]) -> Result<(), Fail> {
    for reading in readings {
        let ends = ends(alloc, image, reading)?;
        must_at(ends, "another end or other totals at read", reading.1)?;
    }
    Ok(())
}

#[test]
fn each_read_fails(rt: HostRuntime) -> Result<(), Fail> {
    must_end_all(rt.alloc(), &sealed(rt.alloc(), A, P)?, READS)
}
