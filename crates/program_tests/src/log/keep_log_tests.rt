//! Calls of the program over rolls and logs in memory, for the tests of this crate. The texts are those of
//! docs/FORMATS.md.
ghost use Rattle.std.specs.Prelude.{◌<◌, ◌≡◌};

use crate::log::memory_log::memory_log;
use crate::log::receipt_tests::put_receipt;
use crate::meter::tests::{must_at, strings};
use log_commands::keep_log;
use memory_devices::{MemoryFiles, MemoryLog};
use std::alloc::Global;
use std::marker::Brand;
use std::sync::ledger::{Blank, Ledger};
use std::test::Fail;
use taxi_units::Steps;

pub(crate) const FILE: &[&str] = &["file", "roll"];

pub(crate) const SHOW: &[&str] = &["show"];

/// A log after a call, and the call's status.
pub(crate) type Ended = (MemoryLog, u8);

/// A call under a new counter.
fn counted<L: Ledger>(
    blank: Blank,
    words: &[String],
    files: &mut MemoryFiles,
    log: &mut MemoryLog,
) -> u8
    requires name { blank.name ≡ L.name }
    requires parts { blank.parts ≡ L.parts }
    requires some { 0 < blank.parts }
{
    let mut steps: Steps<L> = Steps::open(blank);
    keep_log(words, files, log, &mut steps)
}

/// The status of a call of these words, under a counter of its own.
pub(crate) fn status_of(words: &[String], files: &mut MemoryFiles, log: &mut MemoryLog) -> u8 {
    counted::<Brand>(Blank::new(1), words, files, log)
}

/// The files of a call: that of word 1 has this roll, and the reads with these numbers fail.
fn files_of(alloc: Global, roll: &[u8], reads: &[u64]) -> Result<MemoryFiles, Fail> {
    let mut files = MemoryFiles::new(alloc, reads)?;
    files.add(b"")?;
    files.add(roll)?;
    Ok(files)
}

/// A log with these bytes; these calls of it fail.
pub(crate) fn log_of(alloc: Global, image: &[u8], calls: &[u64]) -> Result<MemoryLog, Fail> {
    if image.len() != 131_072 {
        return Err(Fail::new("no image of a log"));
    }
    Ok(memory_log(alloc, image, calls)?)
}

/// The log after a call of these words over its image and a roll, in which these reads of the roll and these calls of
/// the log fail, and the status.
pub(crate) fn failing(
    alloc: Global,
    image: &[u8],
    words: &[&str],
    roll: &[u8],
    reads: &[u64],
    calls: &[u64],
) -> Result<Ended, Fail> {
    let words = strings(alloc, words)?;
    let mut files = files_of(alloc, roll, reads)?;
    let mut log = log_of(alloc, image, calls)?;
    let status = status_of(words.as_slice(), &mut files, &mut log);
    Ok((log, status))
}

/// The log after a call in which nothing fails, and the status.
pub(crate) fn called(
    alloc: Global,
    image: &[u8],
    words: &[&str],
    roll: &[u8],
) -> Result<Ended, Fail> {
    failing(alloc, image, words, roll, &[], &[])
}

/// Whether a call has printed this text and ended with this status.
pub(crate) fn is_end(ended: &Ended, output: &str, status: u8) -> bool {
    ended.0.printed() == output.as_bytes() && ended.1 == status
}

/// The bytes of a log.
pub(crate) fn image_of(alloc: Global, log: &MemoryLog) -> Result<Vec<u8>, Fail> {
    Ok(Vec::from_slice(alloc, log.image().as_slice())?)
}

/// A log of zeros.
fn zeros(alloc: Global) -> Result<Vec<u8>, Fail> {
    let mut image = Vec::new(alloc);
    image.resize(131_072, 0)?;
    Ok(image)
}

/// Appends the receipt with a number.
fn put_numbered(alloc: Global, roll: &mut Vec<u8>, number: u32) -> Result<(), Fail> {
    let digits = format!(in alloc; "{number}")?;
    put_receipt(roll, digits.as_bytes(), b"LX-4711")?;
    Ok(())
}

/// Receipts with the numbers from one to another.
pub(crate) fn receipts(alloc: Global, first: u32, last: u32) -> Result<Vec<u8>, Fail> {
    let mut roll = Vec::new(alloc);
    for number in first..=last {
        put_numbered(alloc, &mut roll, number)?;
    }
    Ok(roll)
}

/// The log after a filing in a log of zeros, in which these reads of the roll fail, and the status.
pub(crate) fn filing(alloc: Global, roll: &[u8], reads: &[u64]) -> Result<Ended, Fail> {
    let zeros = zeros(alloc)?;
    failing(alloc, &zeros, FILE, roll, reads, &[])
}

/// The log of a call of `file` over a log of zeros, which ends with 0.
pub(crate) fn filed(alloc: Global, roll: &[u8]) -> Result<Vec<u8>, Fail> {
    let ended = filing(alloc, roll, &[])?;
    must_at(ended.1 == 0, "a roll was not filed", ended.1 as u64)?;
    image_of(alloc, &ended.0)
}

/// The log in which the receipts from number 2 to another are filed.
pub(crate) fn filed_to(alloc: Global, last: u32) -> Result<Vec<u8>, Fail> {
    let roll = receipts(alloc, 2, last)?;
    filed(alloc, &roll)
}

/// Whether a call has printed this text, ended with 0 and left the image.
fn is_shown(ended: &Ended, image: &[u8], text: &[u8]) -> bool {
    ended.1 == 0 && ended.0.printed() == text && ended.0.image().as_slice() == image
}

/// Whether the log of an image is shown with receipts of these numbers and status 0, and stays as it is.
pub(crate) fn shows(alloc: Global, image: &[u8], first: u32, last: u32) -> Result<bool, Fail> {
    let text = receipts(alloc, first, last)?;
    let ended = called(alloc, image, SHOW, b"")?;
    Ok(is_shown(&ended, image, &text))
}
