//! Texts that are printed or read in several pieces, each of which fails in turn.
use crate::meter::run_tests::sealed;
use crate::meter::store_tests::{
    CONSTANT_AND_HIRINGS, NUMBER, OF_CONSTANT_AND_HIRINGS, OF_NUMBER, SECOND_LAYOUT, image_of,
};
use crate::meter::tests::{A, broken_off, must_answer, must_at, must_break_off, repeated, whole};
use memory_devices::MemoryBoard;
use std::alloc::Global;
use std::test::Fail;

/// Words over a text, a piece of it and how often it is in it, how many calls of the board are made before the first
/// print, and how many in all.
const PRINTED: &[(&[&str], &str, usize, u64, u64)] = &[
    (&["form", "t"], "holiday 2026-01-01\n", 60, 0, 3),
    (&["faults", "t"], "holiday\n", 60, 0, 3),
    (
        &["shifts", "b"],
        "ON ANNA 1 0 0 0 0 0\nOFF 1 0 0 0 0 0\n",
        14,
        6,
        8,
    ),
];

/// Fails unless a call that breaks off at this call of the board has printed 512 bytes by each print before it, and
/// leaves the image.
fn must_stop_at(
    alloc: Global,
    image: &[u8; 2048],
    words: &[&str],
    texts: &[&str],
    text: &[u8],
    before: u64,
    number: u64,
) -> Result<(), Fail> {
    let board = broken_off(alloc, image, words, texts, text, number)?;
    let prints = number.saturating_sub(before).saturating_sub(1);
    let is_whole = board.printed().len() as u64 == prints.saturating_mul(512);
    let stays = *board.image() == *image;
    must_at(is_whole && stays, "another piece or image at call", number)
}

/// Fails unless a call stops so at each call of the board.
fn must_stop_at_each(
    alloc: Global,
    image: &[u8; 2048],
    words: &[&str],
    texts: &[&str],
    whole: &MemoryBoard,
    before: u64,
) -> Result<(), Fail> {
    for number in 1..=whole.calls() {
        must_stop_at(alloc, image, words, texts, whole.printed(), before, number)?;
    }
    Ok(())
}

/// Fails unless a call over a text makes this many calls of the board, and stops so at each.
fn must_print_pieces(
    alloc: Global,
    image: &[u8; 2048],
    words: &[&str],
    text: &str,
    before: u64,
    calls: u64,
) -> Result<(), Fail> {
    let (board, _) = whole(alloc, words, &[text], image)?;
    must_at(board.calls() == calls, "other calls than", calls)?;
    must_stop_at_each(alloc, image, words, &[text], &board, before)
}

/// Fails unless each of these texts is printed in its pieces.
fn must_print_all(
    alloc: Global,
    image: &[u8; 2048],
    cases: &[(&[&str], &str, usize, u64, u64)],
) -> Result<(), Fail> {
    for (words, piece, count, before, calls) in cases {
        let text = repeated(alloc, "", piece, *count)?;
        must_print_pieces(alloc, image, words, text.as_str(), *before, *calls)?;
    }
    Ok(())
}

#[test]
fn texts_that_are_printed_in_pieces(rt: HostRuntime) -> Result<(), Fail> {
    must_print_all(rt.alloc(), &image_of(SECOND_LAYOUT), PRINTED)
}

/// Parameters with the longest list of offsets.
const MANY: &str = "taxi LX-4711\nconstant 10000\nmode double\nhold 60\nsecured 2025-12-01\n\
     offset 946684800 -1\noffset 946684801 -1\noffset 946684802 -1\noffset 946684803 -1\n\
     offset 946684804 -1\noffset 946684805 -1\noffset 946684806 -1\noffset 946684807 -1\n\
     offset 946684808 -1\noffset 946684809 -1\noffset 946684810 -1\noffset 946684811 -1\n\
     offset 946684812 -1\noffset 946684813 -1\noffset 946684814 -1\noffset 946684815 -1\n\
     offset 946684816 -1\noffset 946684817 -1\noffset 946684818 -1\noffset 946684819 -1\n\
     offset 946684820 -1\noffset 946684821 -1\noffset 946684822 -1\noffset 946684823 -1\n\
     offset 946684824 -1\noffset 946684825 -1\noffset 946684826 -1\noffset 946684827 -1\n\
     offset 946684828 -1\noffset 946684829 -1\noffset 946684830 -1\noffset 946684831 -1\n";

/// Fails unless `sealed` makes this many calls of the board over a store, and breaks off at each.
fn must_print_seal(alloc: Global, image: &[u8; 2048], calls: u64) -> Result<(), Fail> {
    let (board, _) = whole(alloc, &["sealed"], &[], image)?;
    must_at(board.calls() == calls, "other calls than", calls)?;
    must_break_off(alloc, image, &["sealed"], &[], &board)
}

/// Each of the 40 calls of the board fails: six open the store, and each line from the first offset on is printed by
/// itself.
#[test]
fn each_call_fails_over_many_offsets(rt: HostRuntime) -> Result<(), Fail> {
    must_print_seal(rt.alloc(), &sealed(rt.alloc(), A, MANY)?, 40)
}

/// Fails unless requests of which this read fails are answered so far. They lie across the pieces of 512 bytes: one of
/// five bytes and 200 of four.
fn must_serve(alloc: Global, read: u64, replies: usize) -> Result<(), Fail> {
    let requests = repeated(alloc, CONSTANT_AND_HIRINGS, NUMBER, 200)?;
    let served = repeated(alloc, OF_CONSTANT_AND_HIRINGS, OF_NUMBER, replies)?;
    let image = image_of(SECOND_LAYOUT);
    let texts = [requests.as_str()];
    let output = [served.as_str(), "READ FAULT\n"];
    must_answer(alloc, &image, &["port", "r"], &texts, (0, read), &output, 7)
}

/// The second read fails, or the third, which finds the end.
#[test]
fn requests_across_pieces(rt: HostRuntime) -> Result<(), Fail> {
    must_serve(rt.alloc(), 2, 126)?;
    must_serve(rt.alloc(), 3, 200)
}
