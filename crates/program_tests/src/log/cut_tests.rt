//! Cuts of the power inside the calls of a filing, over logs in memory.
use crate::log::keep_log_tests::{FILE, called, filing, receipts, shows};
use crate::log::memory_log::cut_of;
use crate::meter::tests::{must_at, must_behind};
use memory_devices::{Fill, MemoryLog};
use std::alloc::Global;
use std::test::Fail;

/// What a cut makes of the bytes in flight; whether it leaves a gate open to which 0x00 is written, and one to which
/// 0xA5 is written. The first half of a single byte is empty, so it leaves what was settled.
const FILLS: &[(Fill, bool, bool)] = &[
    (Fill::Old, true, false),
    (Fill::New, false, true),
    (Fill::Half, true, false),
    (Fill::Byte(0), false, false),
    (Fill::Byte(0xA5), true, true),
    (Fill::Byte(0xFF), false, false),
];

/// The numbers of the first receipt in a log behind a cut, if it leaves a gate open to which 0x00 is written, and if
/// not; and of the last one, if it leaves a gate open to which 0xA5 is written, and if not.
pub(crate) type Left = ([u32; 2], [u32; 2]);

/// What a cut leaves in the calls of the append of receipt 258 to a log of the receipts 2 to 257: while a gate is shut,
/// while the text is written, while a gate is opened, and behind that.
pub(crate) const SHUT: Left = ([2, 3], [257, 257]);

pub(crate) const WRITTEN: Left = ([3, 3], [257, 257]);

pub(crate) const OPENED: Left = ([3, 3], [258, 257]);

pub(crate) const DONE: Left = ([3, 3], [258, 258]);

/// An image that a cut inside a call of the log leaves.
pub(crate) fn cut(alloc: Global, log: &MemoryLog, call: u64, fill: Fill) -> Result<Vec<u8>, Fail> {
    if call > log.calls() {
        return Err(Fail::new("no such call"));
    }
    Ok(cut_of(alloc, log, call, fill)?)
}

/// Whether filing a roll in the log of an image leaves another image, with status 0.
fn becomes(alloc: Global, image: &[u8], roll: &[u8], whole: &[u8]) -> Result<bool, Fail> {
    let ended = called(alloc, image, FILE, roll)?;
    Ok(ended.1 == 0 && ended.0.image().as_slice() == whole)
}

/// Whether the log of an image is shown with receipts of these numbers, and filing a roll in it leaves another image.
pub(crate) fn goes_on(
    alloc: Global,
    image: &[u8],
    first: u32,
    last: u32,
    roll: &[u8],
    whole: &[u8],
) -> Result<bool, Fail> {
    let is_shown = shows(alloc, image, first, last)?;
    let is_whole = becomes(alloc, image, roll, whole)?;
    Ok(is_shown && is_whole)
}

/// Fails unless the log goes on as `goes_on` says over what a cut with a fill leaves in this call.
fn must_go_on_over(
    alloc: Global,
    log: &MemoryLog,
    call: u64,
    fill: &(Fill, bool, bool),
    left: &Left,
    roll: &[u8],
    whole: &[u8],
) -> Result<(), Fail> {
    let image = cut(alloc, log, call, fill.0)?;
    let first = if fill.1 { left.0[0] } else { left.0[1] };
    let last = if fill.2 { left.1[0] } else { left.1[1] };
    let goes_on = goes_on(alloc, &image, first, last, roll, whole)?;
    must_behind(goes_on, "another log", call, fill.0)
}

/// Fails unless the log goes on as `goes_on` says over what a cut with each fill leaves in this call.
pub(crate) fn must_go_on(
    alloc: Global,
    log: &MemoryLog,
    call: u64,
    left: &Left,
    roll: &[u8],
    whole: &[u8],
) -> Result<(), Fail> {
    for fill in FILLS {
        must_go_on_over(alloc, log, call, fill, left, roll, whole)?;
    }
    Ok(())
}

/// The log after a filing in a log of zeros. Fails unless it makes this number of calls.
fn log_of_filing(alloc: Global, roll: &[u8], calls: u64) -> Result<MemoryLog, Fail> {
    let (log, _) = filing(alloc, roll, &[])?;
    must_at(log.calls() == calls, "another number of calls", calls)?;
    Ok(log)
}

/// Fails unless a log goes on over what a cut leaves in each of these calls.
fn must_go_on_each(
    alloc: Global,
    log: &MemoryLog,
    calls: &[(u64, Left)],
    roll: &[u8],
) -> Result<(), Fail> {
    for (call, left) in calls {
        must_go_on(alloc, log, *call, left, roll, log.image().as_slice())?;
    }
    Ok(())
}

/// Fails unless a filing of receipts from number 2 to another in a log of zeros makes this number of calls, and the log
/// goes on over what a cut leaves in each of these.
fn must_outlast(alloc: Global, last: u32, count: u64, calls: &[(u64, Left)]) -> Result<(), Fail> {
    let roll = receipts(alloc, 2, last)?;
    let log = log_of_filing(alloc, &roll, count)?;
    must_go_on_each(alloc, &log, calls, &roll)
}

/// The calls of the 257th append, of which the first is 1282: after one sync, 256 reads and 256 appends of four calls
/// each, for the gates of a log of zeros are closed. The calls are numbered from 1.
const LAST_CALLS: &[(u64, Left)] = &[
    (1282, SHUT),
    (1283, SHUT),
    (1284, WRITTEN),
    (1285, WRITTEN),
    (1286, OPENED),
    (1287, OPENED),
    (1288, DONE),
];

#[test]
fn cuts_in_the_257th_append(rt: HostRuntime) -> Result<(), Fail> {
    must_outlast(rt.alloc(), 258, 1288, LAST_CALLS)
}

/// Calls of the filing of the receipts 2 to 4 in a log of zeros, and what a cut in them leaves, 1 for no last one:
/// before the first call, in the opening of one sync and 256 reads, in the two writes of each append and their syncs,
/// and in the print.
const FIRST_APPENDS: &[(u64, Left)] = &[
    (0, ([2, 2], [1, 1])),
    (1, ([2, 2], [1, 1])),
    (257, ([2, 2], [1, 1])),
    (258, ([2, 2], [1, 1])),
    (259, ([2, 2], [1, 1])),
    (260, ([2, 2], [2, 1])),
    (261, ([2, 2], [2, 1])),
    (262, ([2, 2], [2, 2])),
    (263, ([2, 2], [2, 2])),
    (264, ([2, 2], [3, 2])),
    (265, ([2, 2], [3, 2])),
    (266, ([2, 2], [3, 3])),
    (267, ([2, 2], [3, 3])),
    (268, ([2, 2], [4, 3])),
    (269, ([2, 2], [4, 3])),
    (270, ([2, 2], [4, 4])),
];

#[test]
fn cuts_in_the_first_appends(rt: HostRuntime) -> Result<(), Fail> {
    must_outlast(rt.alloc(), 4, 270, FIRST_APPENDS)
}
