//! Runs on a sealed store, over boards in memory.
use crate::meter::many_cuts_tests::stored;
use crate::meter::store_tests::{FIRST_LAYOUT, image_of};
use crate::meter::tests::{A, Ended, P, ZEROS, cut_in, cuts_of, must, must_behind, whole};
use memory_devices::{Fill, MemoryBoard};
use std::alloc::Global;
use std::test::Fail;

/// A city tariff.
pub(crate) const CITY: &str =
    "decimals 2\nstep 0.20 ahead\npositions 2\nzones 2\nholiday 2026-01-01\nholiday 2026-12-25\n\
     supplement 1 2.00 max 4\nsupplement 2 0.50 max 9\nsupplement 3 5.00 max 1\n\
     initial 5.00 covers 0.40 when time 22:00..06:00 or day sun or holiday\ninitial 4.20 covers 0.40\n\
     rate 0.20 per 80.0 m, 0.20 per 20.0 s when position 2 or zone 2\n\
     rate 0.20 per 90.0 m, 0.20 per 20.0 s when time 22:00..06:00 or day sun or holiday\n\
     rate 0.20 per 100.0 m, 0.20 per 20.0 s when after 5000.0 m\nrate 0.20 per 125.0 m, 0.20 per 25.0 s\n";

pub(crate) const RUN: &[&str] = &["run", "t", "d"];

/// A hiring of 234.8 m, which is just what the cover takes.
pub(crate) const HIRING: &str = "U 1767225600\nK H\nI 0 1\nI 20 117\nK S\nI 8 1\nK C\nI 0 1\n";

/// A hiring of 234.8 m over a loss of supply for a minute.
pub(crate) const HELD: &str =
    "U 1767225600\nK H\nI 0 1\nI 20 10\nD\nU 1767225660\nI 20 107\nK S\nI 8 1\nK C\nI 0 1\n";

/// The store that is sealed with a tariff and parameters.
pub(crate) fn sealed(alloc: Global, tariff: &str, params: &str) -> Result<[u8; 2048], Fail> {
    let (board, _) = whole(alloc, &["seal", "t", "p"], &[tariff, params], ZEROS)?;
    Ok(*board.image())
}

/// A run of a drive on a newly sealed store.
pub(crate) fn ran(alloc: Global, tariff: &str, params: &str, drive: &str) -> Result<Ended, Fail> {
    let image = sealed(alloc, tariff, params)?;
    whole(alloc, RUN, &[tariff, drive], &image)
}

/// Whether what `totals` prints of a store begins with this text.
pub(crate) fn has_totals(alloc: Global, image: &[u8; 2048], start: &str) -> Result<bool, Fail> {
    let (board, _) = whole(alloc, &["totals"], &[], image)?;
    Ok(board.printed().starts_with(start.as_bytes()))
}

/// By how much a cut in a call of the run may raise the number, at least and at most. Calls 12 to 15 commit the held
/// trip, 21 to 26 the entry over it, of which 25 and 26 open its slot; call 27 prints the receipt, and is there only
/// beside its entry.
fn raised_at(call: u64) -> (u64, u64) {
    match call {
        0..=13 => (0, 0),
        14..=15 => (0, 1),
        16..=24 => (1, 1),
        25..=26 => (1, 2),
        _ => (2, 2),
    }
}

/// Whether an image that a cut in this call of a run left has a number by which the run may have raised this one.
fn is_raised(image: &[u8; 2048], call: u64, number: u64) -> bool {
    let (least, most) = raised_at(call);
    match stored(image) {
        Some(found) => {
            let raised = found.number.saturating_sub(number);
            number <= found.number && least <= raised && raised <= most
        }
        None => false,
    }
}

/// Fails unless each of these cuts of a run that began with a number leaves one that it may leave.
fn must_leave_numbers(board: &MemoryBoard, number: u64, cuts: &[(u64, Fill)]) -> Result<(), Fail> {
    for &(call, fill) in cuts {
        let is_raised = is_raised(&cut_in(board, call, fill), call, number);
        must_behind(is_raised, "another number", call, fill)?;
    }
    Ok(())
}

/// Fails unless a run with a loss of supply over a store of this number makes 28 calls, and leaves such a number behind
/// a cut in each of them.
fn must_outlast_cuts(alloc: Global, image: &[u8; 2048], number: u64) -> Result<(), Fail> {
    let run = whole(alloc, RUN, &[A, HELD], image)?;
    let cuts = cuts_of(alloc, 28)?;
    let is_run = run.1 == 0 && run.0.calls() == 28;
    must(is_run, "another run", "held")?;
    must_leave_numbers(&run.0, number, cuts.as_slice())
}

/// A cut in each call of a run with a loss of supply, over a new store, and over one of layout 1.
#[test]
fn cuts_through_a_run(rt: HostRuntime) -> Result<(), Fail> {
    must_outlast_cuts(rt.alloc(), &sealed(rt.alloc(), A, P)?, 1)?;
    must_outlast_cuts(rt.alloc(), &image_of(FIRST_LAYOUT), 2)
}
