//! A filing over a log in memory, for tests/crash/growths, which refuses one growth of memory after the other in it.
use crate::log::keep_log_tests::{Ended, SHOW, called, filing, is_end, receipts};
use std::alloc::Global;
use std::test::Fail;

/// Whether the log of an image shows a beginning of a roll.
fn shows_a_beginning(alloc: Global, image: &[u8], roll: &[u8]) -> Result<bool, Fail> {
    let (shown, status) = called(alloc, image, SHOW, b"")?;
    Ok(status == 0 && roll.starts_with(shown.printed()))
}

/// How a filing of a roll ended: whole, or with 8, if the log had no memory and shows its first receipts.
fn told(alloc: Global, ended: &Ended, roll: &[u8]) -> Result<(), Fail> {
    let refused = ended.0.refused();
    if refused == 0 && is_end(ended, "FILED 2\n", 0) {
        return Ok(());
    }
    let is_begun = shows_a_beginning(alloc, ended.0.image().as_slice(), roll)?;
    if is_begun && refused > 0 && is_end(ended, "", 8) {
        return Err(Fail::new("the log had no memory"));
    }
    Err(Fail::new("the filing ended otherwise"))
}

/// The roll is filed whole; or the log has no memory to grow, with 8, and its first receipts are filed. Only the first
/// passes, and tests/crash/growths reads which of the others it is.
#[test]
fn a_filing(rt: HostRuntime) -> Result<(), Fail> {
    let roll = receipts(rt.alloc(), 2, 3)?;
    let ended = filing(rt.alloc(), &roll, &[])?;
    told(rt.alloc(), &ended, &roll)
}
