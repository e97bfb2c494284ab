//! Marks and reports behind cuts of the power.
use crate::meter::run_tests::{HIRING, has_totals, ran, sealed};
use crate::meter::tests::{
    A, CALM, Ended, P, cut_in, cuts_of, must, must_answer, must_behind, prints,
};
use memory_devices::{Fill, MemoryBoard};
use std::alloc::Global;
use std::test::Fail;

/// The mark of a store that is sealed.
const ON_AT_FIRST: &str = "ON ANNA 1 0 0 0 0 0\n";

/// The mark off of the same store, a book that ends with it, and its report.
type Shift = (&'static str, &'static str, &'static str);

/// A shift in which nothing grew.
const OF_NOTHING: Shift = (
    "OFF 1 0 0 0 0 0\n",
    "ON ANNA 1 0 0 0 0 0\nOFF 1 0 0 0 0 0\n",
    "SHIFT 1 ANNA 0 0.000 0.000 0.00 0.00\nDRIVER ANNA 0 0.000 0.000 0.00 0.00\n\
     UNSIGNED 0 0.000 0.000 0.00 0.00\nGROWTH 0 0.000 0.000 0.00 0.00\n",
);

/// A shift of one hiring of 234.8 m for 3.80.
const OF_A_HIRING: Shift = (
    "OFF 2 234800 234800 1 0 380\n",
    "ON ANNA 1 0 0 0 0 0\nOFF 2 234800 234800 1 0 380\n",
    "SHIFT 1 ANNA 1 234.800 234.800 3.80 0.00\nDRIVER ANNA 1 234.800 234.800 3.80 0.00\n\
     UNSIGNED 0 0.000 0.000 0.00 0.00\nGROWTH 1 234.800 234.800 3.80 0.00\n",
);

/// The shift that a store has grown by.
fn shift_of(alloc: Global, image: &[u8; 2048]) -> Result<Shift, Fail> {
    if has_totals(alloc, image, "NUMBER 2\n")? {
        return Ok(OF_A_HIRING);
    }
    Ok(OF_NOTHING)
}

/// Fails unless the store has the hiring or not after a cut in this call of its run, the mark off says which, and the
/// report shares out what the store has.
fn must_sign_off(alloc: Global, board: &MemoryBoard, call: u64, fill: Fill) -> Result<(), Fail> {
    let image = cut_in(board, call, fill);
    let (off, book, report) = shift_of(alloc, &image)?;
    let is_off = prints(alloc, &image, &["mark", "off"], &[], off)?;
    let is_shared = prints(alloc, &image, &["shifts", "b"], &[book], report)?;
    must_behind(is_off && is_shared, "another mark or report", call, fill)
}

/// Fails unless a driver can sign off behind each of these cuts.
fn must_sign_off_all(alloc: Global, board: &MemoryBoard, cuts: &[(u64, Fill)]) -> Result<(), Fail> {
    for (call, fill) in cuts {
        must_sign_off(alloc, board, *call, *fill)?;
    }
    Ok(())
}

/// Fails unless the mark on of a newly sealed store is this one.
fn must_sign_on(alloc: Global) -> Result<(), Fail> {
    let image = sealed(alloc, A, P)?;
    let words = ["mark", "on", "ANNA"];
    must_answer(alloc, &image, &words, &[], CALM, &[ON_AT_FIRST], 0)
}

/// Fails unless a driver can sign off behind a cut in each of the 18 calls of a run of a hiring.
fn must_outlast_cuts(alloc: Global, run: &Ended) -> Result<(), Fail> {
    let is_run = run.1 == 0 && run.0.calls() == 18;
    must(is_run, "another run", "a hiring")?;
    let cuts = cuts_of(alloc, 18)?;
    must_sign_off_all(alloc, &run.0, cuts.as_slice())
}

/// A cut in each call of a run of a hiring, between the marks.
#[test]
fn cuts_before_a_mark(rt: HostRuntime) -> Result<(), Fail> {
    must_sign_on(rt.alloc())?;
    let run = ran(rt.alloc(), A, P, HIRING)?;
    must_outlast_cuts(rt.alloc(), &run)
}
