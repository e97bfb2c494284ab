//! Each failure of the outside in turn, at each place of a filing, over rolls and logs in memory.
use crate::log::cut_tests::{DONE, Left, OPENED, SHUT, WRITTEN, goes_on, must_go_on};
use crate::log::keep_log_tests::{
    FILE, SHOW, called, failing, filed, filed_to, filing, image_of, is_end, receipts,
};
use crate::log::receipt_tests::put_receipt;
use crate::meter::tests::{must, must_at};
use memory_devices::MemoryLog;
use std::alloc::Global;
use std::test::Fail;

/// The log after a call over an image, whose call with this number fails. Fails itself unless that is its last call, it
/// ends with 8, and it has printed this text.
fn broken_off(
    alloc: Global,
    image: &[u8],
    words: &[&str],
    roll: &[u8],
    number: u64,
    printed: &[u8],
) -> Result<MemoryLog, Fail> {
    let (log, status) = failing(alloc, image, words, roll, &[], &[number])?;
    let is_broken_off = status == 8 && log.printed() == printed && log.calls() == number;
    must_at(is_broken_off, "another end at call", number)?;
    Ok(log)
}

/// Fails unless a call breaks off so, and leaves the image.
fn must_break_off(
    alloc: Global,
    image: &[u8],
    words: &[&str],
    roll: &[u8],
    number: u64,
    printed: &[u8],
) -> Result<(), Fail> {
    let log = broken_off(alloc, image, words, roll, number, printed)?;
    must_at(
        log.image().as_slice() == image,
        "another image at call",
        number,
    )
}

/// Each of the calls before the append to a full log fails: the opening sync, 256 reads, and the read of the newest
/// record. The log is as it was.
#[test]
fn each_call_before_an_append_fails(rt: HostRuntime) -> Result<(), Fail> {
    let full = filed_to(rt.alloc(), 257)?;
    let roll = receipts(rt.alloc(), 2, 258)?;
    for number in 1..=258 {
        must_break_off(rt.alloc(), &full, FILE, &roll, number, b"")?;
    }
    Ok(())
}

/// The image after a filing of one receipt behind a full log. Fails unless it makes 265 calls.
fn whole_filing(alloc: Global, full: &[u8], roll: &[u8]) -> Result<Vec<u8>, Fail> {
    let ended = called(alloc, full, FILE, roll)?;
    let is_whole = is_end(&ended, "FILED 1\n", 0) && ended.0.calls() == 265;
    must(is_whole, "another end", "a whole filing")?;
    image_of(alloc, &ended.0)
}

/// The six calls of the append to a full log and the print of the last line, and what a cut leaves in each.
const CALLS: &[(u64, Left)] = &[
    (259, SHUT),
    (260, SHUT),
    (261, WRITTEN),
    (262, WRITTEN),
    (263, OPENED),
    (264, OPENED),
    (265, DONE),
];

/// Fails unless a filing in a full log goes on over what a cut leaves in a call that fails.
fn must_outlast(
    alloc: Global,
    full: &[u8],
    roll: &[u8],
    whole: &[u8],
    call: &(u64, Left),
) -> Result<(), Fail> {
    let log = broken_off(alloc, full, FILE, roll, call.0, b"")?;
    must_go_on(alloc, &log, call.0, &call.1, roll, whole)
}

/// Fails unless a filing in a full log goes on over each of those failures.
fn must_outlast_each(alloc: Global, full: &[u8], roll: &[u8]) -> Result<(), Fail> {
    let whole = whole_filing(alloc, full, roll)?;
    for call in CALLS {
        must_outlast(alloc, full, roll, &whole, call)?;
    }
    Ok(())
}

/// Each of the six calls of the append to a full log fails, and the print of the last line. What it leaves is cut with
/// each fill, and the roll is filed again over it.
#[test]
fn each_call_of_an_append_fails(rt: HostRuntime) -> Result<(), Fail> {
    let full = filed_to(rt.alloc(), 257)?;
    let roll = receipts(rt.alloc(), 2, 258)?;
    must_outlast_each(rt.alloc(), &full, &roll)
}

/// Fails unless a showing breaks off at a call that fails, with the first receipt printed behind call 260.
fn must_show_a_beginning(alloc: Global, image: &[u8], number: u64) -> Result<(), Fail> {
    let last = if number > 260 { 2 } else { 1 };
    let printed = receipts(alloc, 2, last)?;
    must_break_off(alloc, image, SHOW, b"", number, &printed)
}

/// How many calls a showing of an image makes.
fn calls_of_showing(alloc: Global, image: &[u8]) -> Result<u64, Fail> {
    let ended = called(alloc, image, SHOW, b"")?;
    Ok(ended.0.calls())
}

/// Each of the calls of a showing of two receipts fails: the opening sync and 256 reads, the read of the newest record,
/// and a read and a print for each receipt. What is printed is a beginning, and the log is as it was.
#[test]
fn each_call_of_a_showing_fails(rt: HostRuntime) -> Result<(), Fail> {
    let image = filed_to(rt.alloc(), 3)?;
    for number in 1..=262 {
        must_show_a_beginning(rt.alloc(), &image, number)?;
    }
    let calls = calls_of_showing(rt.alloc(), &image)?;
    must_at(calls == 262, "another number of calls", calls)
}

/// A roll of receipt 2, the beginning of another, and the receipt of another taxi.
fn with_another_taxi(alloc: Global) -> Result<Vec<u8>, Fail> {
    let mut roll = receipts(alloc, 2, 2)?;
    roll.extend_from_slice(b"RECEIPT 3\nKIND ")?;
    put_receipt(&mut roll, b"4", b"LX-4712")?;
    Ok(roll)
}

/// The read behind the receipt of another taxi fails. That receipt is found after the read, since the torn one might
/// have gone on: the status is 4, and not 7.
#[test]
fn another_taxi_before_a_read_that_fails(rt: HostRuntime) -> Result<(), Fail> {
    let roll = with_another_taxi(rt.alloc())?;
    let ended = filing(rt.alloc(), &roll, &[2])?;
    must(is_end(&ended, "OTHER TAXI 2\n", 4), "another end", "4")
}

/// The number of the last receipt in a text of those from number 2 on: one more than there are.
fn last_in(text: &[u8]) -> u32 {
    let mut last = 1u32;
    for line in text.split(|byte| *byte == b'\n') {
        if line == b"END".as_slice() {
            last = last.saturating_add(1);
        }
    }
    last
}

/// The number of the last receipt that the log of an image shows, of those from number 2 on.
fn last_shown(alloc: Global, image: &[u8]) -> Result<u32, Fail> {
    let ended = called(alloc, image, SHOW, b"")?;
    Ok(last_in(ended.0.printed()))
}

/// The log after a filing in a log of zeros, of which a read fails. Fails itself unless it ends with 7.
fn partly_filed(alloc: Global, roll: &[u8], read: u64) -> Result<Vec<u8>, Fail> {
    let ended = filing(alloc, roll, &[read])?;
    must_at(
        is_end(&ended, "READ FAULT\n", 7),
        "another end at read",
        read,
    )?;
    image_of(alloc, &ended.0)
}

/// The number of the last receipt that is filed if a read fails. Fails unless it is above this one, and the roll is
/// filed again over that.
fn last_above(
    alloc: Global,
    roll: &[u8],
    whole: &[u8],
    read: u64,
    before: u32,
) -> Result<u32, Fail> {
    let image = partly_filed(alloc, roll, read)?;
    let last = last_shown(alloc, &image)?;
    let goes_on = goes_on(alloc, &image, 2, last, roll, whole)?;
    must_at(before < last && goes_on, "another log behind read", read)?;
    Ok(last)
}

/// The number of the last receipt that is filed if the fifth read fails. Fails unless each read files more.
fn last_of_five(alloc: Global, roll: &[u8], whole: &[u8]) -> Result<u32, Fail> {
    let mut last = 0;
    for read in 1..=5 {
        last = last_above(alloc, roll, whole, read, last)?;
    }
    Ok(last)
}

/// Fails unless a filing of 99 receipts in a log of zeros makes no sixth read.
fn must_read_no_more(alloc: Global, roll: &[u8]) -> Result<(), Fail> {
    let ended = filing(alloc, roll, &[6])?;
    must_at(is_end(&ended, "FILED 99\n", 0), "another end at read", 6)
}

/// Each of the reads of a roll fails, and the fifth, which tells its end, too. What was taken before it is filed, and
/// the roll is filed again over that.
#[test]
fn each_read_of_a_roll_fails(rt: HostRuntime) -> Result<(), Fail> {
    let roll = receipts(rt.alloc(), 2, 100)?;
    let whole = filed(rt.alloc(), &roll)?;
    let last = last_of_five(rt.alloc(), &roll, &whole)?;
    must_at(last == 100, "another last receipt", last as u64)?;
    must_read_no_more(rt.alloc(), &roll)
}
