//! A hundred cuts of the power from a fixed seed, each in a run over what the one before it left.
ghost use Rattle.std.specs.Prelude.{◌<◌, ◌≡◌};

use crate::meter::run_tests::{CITY, RUN, sealed};
use crate::meter::tests::{Ended, FILLS, P, called, cut_in, must};
use memory_devices::{Fill, MemoryBoard};
use outside::QuietBoard;
use receipt_reading::read_receipt;
use slot_store::{Found, scan};
use std::alloc::Global;
use std::marker::Brand;
use std::sync::ledger::{Blank, Ledger};
use std::test::Fail;
use taxi_units::{Kind, Receipt, Steps};
use totals_record::Durable;

/// Numbers from a seed: the high bits of a linear congruential sequence.
#[derive(Drop)]
struct Dice {
    state: u64,
}

impl Dice {
    /// A number below `most`.
    fn below(&mut self, most: u64) -> u64
        requires { 0 < most }
    {
        self.state = self
            .state
            .wrapping_mul(6_364_136_223_846_793_005)
            .wrapping_add(1_442_695_040_888_963_407);
        (self.state >> 33) % most
    }
}

/// A whole hiring, and parts of one: keys, intervals, an extra.
const PIECES: &[&str] = &[
    "K H\nI 0 1\nI 20 300\nK S\nI 8 1\nK C\nI 0 1\n",
    "K H\nI 0 1\nI 20 60\n",
    "K E 1\nI 10 40\n",
    "K S\nI 8 1\n",
    "K C\nI 0 1\n",
    "I 20 200\n",
    "K P 2\nI 5 30\n",
    "K H\nI 0 1\nK E 2\nI 15 90\nK S\nI 0 5\nK C\nI 0 1\n",
];

/// The gaps in supply in a drive, in seconds: a trip is held for a minute at most.
const GAPS: &[u64] = &[10, 40, 70, 500];

/// Adds a power-up after a gap.
fn put_up(
    alloc: Global,
    drive: &mut String,
    second: &mut u64,
    dice: &mut Dice,
) -> Result<(), Fail> {
    let gap = GAPS.get(dice.below(4) as usize).copied().unwrap_or(10);
    *second = second.wrapping_add(gap);
    let line = format!(in alloc; "U {second}\n")?;
    drive.push_str(line.as_str())?;
    Ok(())
}

/// A drive of some pieces, with losses of supply between some of them.
fn drive_of(alloc: Global, second: &mut u64, dice: &mut Dice) -> Result<String, Fail> {
    let mut drive = String::new(alloc);
    put_up(alloc, &mut drive, second, dice)?;
    for _piece in 0..6 {
        if dice.below(4) == 0 {
            drive.push_str("D\n")?;
            put_up(alloc, &mut drive, second, dice)?;
        }
        if let Some(piece) = PIECES.get(dice.below(8) as usize) {
            drive.push_str(piece)?;
        }
    }
    Ok(drive)
}

/// What an image stands for, under a new counter.
fn counted<L: Ledger>(blank: Blank, image: &[u8; 2048]) -> Option<Durable>
    requires name { blank.name ≡ L.name }
    requires parts { blank.parts ≡ L.parts }
    requires some { 0 < blank.parts }
{
    let mut steps: Steps<L> = Steps::open(blank);
    let mut board = QuietBoard::new(image);
    match scan::<Durable, QuietBoard, L>(&mut board, 0, &mut steps) {
        Ok(Found::Latest { body, .. }) => Some(body),
        _ => None,
    }
}

/// The durable state that an image stands for.
pub(crate) fn stored(image: &[u8; 2048]) -> Option<Durable> {
    counted::<Brand>(Blank::new(1), image)
}

/// What was read of a printed text: its whole receipts, the lines of one that has begun, and the line that has.
#[derive(Drop)]
struct Read {
    receipts: Vec<Receipt>,
    lines: Vec<u8>,
    line: Vec<u8>,
}

/// Takes the line that was read.
fn take_line(read: &mut Read) -> Result<(), Fail> {
    if read.line.starts_with(b"RECEIPT ") || !read.lines.is_empty() {
        read.lines.extend_from_slice(read.line.as_slice())?;
    }
    if read.line.as_slice() == b"END\n".as_slice() {
        let (receipt, _) = read_receipt(read.lines.as_slice()).ok_or("no receipt")?;
        read.receipts.push(receipt)?;
        read.lines.clear();
    }
    read.line.clear();
    Ok(())
}

/// The receipts in a printed text of whole lines, each of which is whole.
fn receipts_in(alloc: Global, text: &[u8]) -> Result<Vec<Receipt>, Fail> {
    let mut read = Read {
        receipts: Vec::new(alloc),
        lines: Vec::new(alloc),
        line: Vec::new(alloc),
    };
    for byte in text {
        read.line.push(*byte)?;
        if *byte == b'\n' {
            take_line(&mut read)?;
        }
    }
    if read.lines.is_empty() && read.line.is_empty() {
        return Ok(read.receipts);
    }
    Err(Fail::new("a receipt is broken off"))
}

/// What receipts add up to.
#[derive(Clone, Copy, PartialEq, Eq)]
struct Sums {
    hirings: u64,
    fare: u128,
    supplements: u128,
    hired_mm: u128,
}

/// The sums with those receipts more whose number is at most this.
fn added(sums: Sums, receipts: &[Receipt], number: u64) -> Sums {
    let mut sums = sums;
    for receipt in receipts {
        if receipt.number <= number {
            sums.hirings = sums.hirings.wrapping_add(1);
            sums.fare = sums.fare.wrapping_add(receipt.fare as u128);
            sums.supplements = sums.supplements.wrapping_add(receipt.supplements as u128);
            sums.hired_mm = sums.hired_mm.wrapping_add(receipt.hired_mm);
        }
    }
    sums
}

/// The sums that a durable state has.
fn sums_of(durable: &Durable) -> Sums {
    Sums {
        hirings: durable.totals.hirings,
        fare: durable.totals.fare,
        supplements: durable.totals.supplements,
        hired_mm: durable.totals.hired_mm,
    }
}

/// Whether a run ended as it should, if a call of the board fails or not: with a beginning of what the whole one
/// prints.
fn is_begun(run: &Ended, whole: &[u8], fails: bool) -> bool {
    (run.1 == 8) == fails && whole.starts_with(run.0.printed())
}

/// Fails unless each receipt in a text has at most this number.
fn must_have_entries(alloc: Global, text: &[u8], number: u64) -> Result<(), Fail> {
    for receipt in receipts_in(alloc, text)?.as_slice() {
        must(receipt.number <= number, "an entry is lost", "a receipt")?;
    }
    Ok(())
}

/// Whether one of these trips was aborted.
fn has_aborted(receipts: &[Receipt]) -> bool {
    for receipt in receipts {
        if receipt.kind == Kind::Aborted {
            return true;
        }
    }
    false
}

/// Runs a drive that is broken off at a call of the board, and leaves the image that a cut then leaves. Fails unless it
/// prints a beginning of the whole run.
fn cut_off(
    alloc: Global,
    image: &mut [u8; 2048],
    drive: &str,
    whole: &MemoryBoard,
    dice: &mut Dice,
) -> Result<MemoryBoard, Fail> {
    let calls = whole.calls();
    let number = dice.below(calls.saturating_add(2)).saturating_add(1);
    let run = called(alloc, RUN, &[CITY, drive], image, &[number], &[])?;
    must(
        is_begun(&run, whole.printed(), number <= calls),
        "another run",
        drive,
    )?;
    let fill = FILLS
        .get(dice.below(6) as usize)
        .copied()
        .unwrap_or(Fill::Old);
    *image = cut_in(&run.0, run.0.calls(), fill);
    Ok(run.0)
}

/// The durable state behind a run that is broken off and cut. Fails unless each receipt that it printed has an entry by
/// its number.
fn found_behind(
    alloc: Global,
    image: &mut [u8; 2048],
    drive: &str,
    whole: &MemoryBoard,
    dice: &mut Dice,
) -> Result<Durable, Fail> {
    let board = cut_off(alloc, image, drive, whole, dice)?;
    let found = stored(image).ok_or("no state")?;
    must_have_entries(alloc, board.printed(), found.number)?;
    Ok(found)
}

/// Adds the receipts of a drive's whole run that have an entry, and tells whether a trip was aborted. Fails unless the
/// sums are those that are found.
fn must_add_up(
    alloc: Global,
    drive: &str,
    text: &[u8],
    found: &Durable,
    sums: &mut Sums,
) -> Result<bool, Fail> {
    let receipts = receipts_in(alloc, text)?;
    *sums = added(*sums, receipts.as_slice(), found.number);
    must(sums_of(found) == *sums, "the totals are others", drive)?;
    Ok(has_aborted(receipts.as_slice()))
}

/// Runs a drive that is broken off and cut, and tells whether the whole run aborts a trip. Fails unless each receipt
/// has its entry, and the sums are those that are found.
fn broken_off(
    alloc: Global,
    image: &mut [u8; 2048],
    drive: &str,
    dice: &mut Dice,
    sums: &mut Sums,
) -> Result<bool, Fail> {
    let (whole, status) = called(alloc, RUN, &[CITY, drive], image, &[], &[])?;
    must(status == 0, "a run fails", drive)?;
    let found = found_behind(alloc, image, drive, &whole, dice)?;
    must_add_up(alloc, drive, whole.printed(), &found, sums)
}

/// Each receipt that was printed has its entry among those that are found after a cut. The totals are those of the
/// receipts of the runs so far, as many as the number says, added up plainly.
#[test]
fn a_hundred_cuts(rt: HostRuntime) -> Result<(), Fail> {
    let mut image = sealed(rt.alloc(), CITY, P)?;
    let mut dice = Dice { state: 20_260_101 };
    let mut second = 1_767_225_600;
    let mut sums = Sums {
        hirings: 0,
        fare: 0,
        supplements: 0,
        hired_mm: 0,
    };
    let mut runs_that_aborted = 0u64;
    for _cut in 0..100 {
        let drive = drive_of(rt.alloc(), &mut second, &mut dice)?;
        let aborted = broken_off(rt.alloc(), &mut image, drive.as_str(), &mut dice, &mut sums)?;
        runs_that_aborted = runs_that_aborted.saturating_add(aborted as u64);
    }
    must(
        sums.hirings > 50 && runs_that_aborted > 10,
        "few hirings or aborted trips",
        "a hundred cuts",
    )
}
