//! Sealings over boards in memory, with a cut in each call, and with each call failing.
use crate::meter::store_tests::{SECOND_LAYOUT, image_of};
use crate::meter::tests::{
    A, Ended, P, ZEROS, broken_off, cut_in, cuts_of, must, must_behind, whole,
};
use memory_devices::{Fill, MemoryBoard};
use std::alloc::Global;
use std::test::Fail;

const WORDS: &[&str] = &["seal", "t", "p"];

/// A call of these words over what a cut in a sealing left.
fn call_after_cut(
    alloc: Global,
    words: &[&str],
    sealed: &MemoryBoard,
    number: u64,
    fill: Fill,
) -> Result<Ended, Fail> {
    whole(alloc, words, &[A, P], &cut_in(sealed, number, fill))
}

/// Fails unless `totals` finds no totals over a cut in this call of a first sealing, or totals of nothing, and the seal
/// only beside totals. Call 7 is the first write, and calls 13 and 14 write and sync the gate of the seal.
fn must_be_cut(alloc: Global, sealed: &MemoryBoard, number: u64, fill: Fill) -> Result<(), Fail> {
    let (board, status) = call_after_cut(alloc, &["totals"], sealed, number, fill)?;
    if status == 4 {
        let is_blank = number < 15 && board.printed() == b"NOT SEALED\n".as_slice();
        return must_behind(is_blank, "no totals", number, fill);
    }
    let has_totals = status == 0 && number >= 13 && board.printed().starts_with(b"NUMBER 1\n");
    must_behind(has_totals, "other totals", number, fill)
}

/// Fails unless `totals` finds what it may over each of these cuts of a first sealing.
fn must_be_cut_all(alloc: Global, sealed: &MemoryBoard, cuts: &[(u64, Fill)]) -> Result<(), Fail> {
    for (number, fill) in cuts {
        must_be_cut(alloc, sealed, *number, *fill)?;
    }
    Ok(())
}

/// Fails unless `totals` finds what it may over a cut in each of the 15 calls of a first sealing.
fn must_outlast_cuts(alloc: Global, sealed: &Ended) -> Result<(), Fail> {
    let is_sealed = sealed.1 == 0 && sealed.0.calls() == 15;
    must(is_sealed, "another sealing", "the first")?;
    let cuts = cuts_of(alloc, 15)?;
    must_be_cut_all(alloc, &sealed.0, cuts.as_slice())
}

/// A cut in each call of a first sealing.
#[test]
fn cuts_through_a_first_sealing(rt: HostRuntime) -> Result<(), Fail> {
    let sealed = whole(rt.alloc(), WORDS, &[A, P], ZEROS)?;
    must_outlast_cuts(rt.alloc(), &sealed)
}

/// Fails unless another sealing over a cut in this call of a sealing leaves the totals, and gives the next seal the
/// number after the old one's or the new one's.
fn must_be_sealed(
    alloc: Global,
    sealed: &MemoryBoard,
    image: &[u8; 2048],
    number: u64,
    fill: Fill,
) -> Result<(), Fail> {
    let (board, status) = call_after_cut(alloc, WORDS, sealed, number, fill)?;
    let stays = status == 0 && board.image()[..1024] == image[..1024];
    let old = board.printed() == b"SEALED 2\n".as_slice();
    let new = board.printed() == b"SEALED 3\n".as_slice();
    let is_found = (old && number < 11) || (new && 8 < number);
    must_behind(
        stays && is_found,
        "other totals or another number",
        number,
        fill,
    )
}

/// Fails unless another sealing does as it should over each of these cuts of a sealing.
fn must_be_sealed_all(
    alloc: Global,
    sealed: &MemoryBoard,
    image: &[u8; 2048],
    cuts: &[(u64, Fill)],
) -> Result<(), Fail> {
    for (number, fill) in cuts {
        must_be_sealed(alloc, sealed, image, *number, *fill)?;
    }
    Ok(())
}

/// Fails unless another sealing does as it should over a cut in each call of a sealing over this image.
fn must_seal_again(alloc: Global, sealed: &Ended, image: &[u8; 2048]) -> Result<(), Fail> {
    must(sealed.1 == 0, "another status", "sealed")?;
    let cuts = cuts_of(alloc, sealed.0.calls())?;
    must_be_sealed_all(alloc, &sealed.0, image, cuts.as_slice())
}

/// A cut in each call of a sealing over totals and a seal.
#[test]
fn cuts_through_a_second_sealing(rt: HostRuntime) -> Result<(), Fail> {
    let image = image_of(SECOND_LAYOUT);
    let sealed = whole(rt.alloc(), WORDS, &[A, P], &image)?;
    must_seal_again(rt.alloc(), &sealed, &image)
}

/// Fails unless a first sealing of which this call fails ends there without a print, and the next call finds what it
/// may if all that was written is there.
fn must_break_off(alloc: Global, number: u64) -> Result<(), Fail> {
    let board = broken_off(alloc, ZEROS, WORDS, &[A, P], b"SEALED 1\n", number)?;
    must_be_cut(alloc, &board, number, Fill::New)
}

/// Each of the 15 calls of the board fails in a first sealing: six of two scans, eight writes and syncs, and a print.
#[test]
fn failing_boards(rt: HostRuntime) -> Result<(), Fail> {
    for number in 1..=15 {
        must_break_off(rt.alloc(), number)?;
    }
    Ok(())
}
