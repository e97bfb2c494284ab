//! The rows that `tests/run --now` packs into the file `rows`, and two that are wrong.
use super::acts::Stores;
use super::packed::Packed;
use outside::{Files, HostFiles};
use std::alloc::Global;
use std::str;
use std::test::Fail;

/// How many rows passed and failed.
type Tally = (u64, u64);

/// The totals of a folder without a store: a right row, one with a wrong status, and one with a wrong text.
const ROWS: &[u8] = b"\0\0\0\0\0\0\0\x03\
    \0\0\0\0\0\0\0\x0ba right row\0\0\0\0\0\0\0\x01\
    t\0\0\0\0\0\0\0\x01\0\0\0\0\0\0\0\x06totals\0\0\0\0\0\0\0\0\
    \0\0\0\0\0\0\0\0\0\0\0\0\0\0\0\x0bNOT SEALED\n\0\0\0\0\0\0\0\x04\0\0\0\0\0\0\0\0\
    \0\0\0\0\0\0\0\x17a row of another status\0\0\0\0\0\0\0\x01\
    t\0\0\0\0\0\0\0\x01\0\0\0\0\0\0\0\x06totals\0\0\0\0\0\0\0\0\
    \0\0\0\0\0\0\0\0\0\0\0\0\0\0\0\x0bNOT SEALED\n\0\0\0\0\0\0\0\0\0\0\0\0\0\0\0\0\
    \0\0\0\0\0\0\0\x15a row of another text\0\0\0\0\0\0\0\x01\
    t\0\0\0\0\0\0\0\x01\0\0\0\0\0\0\0\x06totals\0\0\0\0\0\0\0\0\
    \0\0\0\0\0\0\0\0\0\0\0\0\0\0\0\x09SEALED 1\n\0\0\0\0\0\0\0\x04\0\0\0\0\0\0\0\0";

/// Carries a row out, with stores of its own, and says whether all was as it has to be.
fn carry_out(alloc: Global, rows: &mut Packed) -> Result<bool, Fail> {
    let mut stores = Stores::new(alloc);
    let mut is_well = true;
    for _ in 0..rows.number()? {
        is_well = stores.act(rows)? && is_well;
    }
    Ok(is_well)
}

/// Carries out all rows, and names those that fail.
fn tally(rt: HostRuntime, packed: &'static [u8]) -> Result<Tally, Fail> {
    let mut rows = Packed::new(packed);
    let (mut passed, mut failed) = (0u64, 0u64);
    for _ in 0..rows.number()? {
        let name = str::from_utf8(rows.text()?).unwrap_or("a row");
        if carry_out(rt.alloc(), &mut rows)? {
            passed = passed.saturating_add(1);
        } else {
            failed = failed.saturating_add(1);
            println!(rt; "failed: {name}")?;
        }
    }
    if !rows.is_over() {
        return Err(Fail::new("something stands behind the rows"));
    }
    Ok((passed, failed))
}

/// The whole file `rows`, or nothing if there is none.
fn file_of_rows(rt: HostRuntime, alloc: Global) -> Result<&'static [u8], Fail> {
    let mut names = Vec::new(alloc);
    names.push(String::from_str(alloc, "rows")?)?;
    let mut files = HostFiles::new(rt, alloc, names.as_slice());
    let mut whole = Vec::new(alloc);
    let mut piece = [0; 512];
    for _ in 0..100_000 {
        match files.read(0, &mut piece) {
            Ok(0) | Err(_) => break,
            Ok(count) => whole.extend_from_slice(&piece[..count])?,
        }
    }
    Ok(&*whole.leak())
}

/// Each row of the file passes. If there is no file of rows, nothing is tried, and nothing is said.
#[test]
fn rows_in_memory(rt: HostRuntime) -> Result<(), Fail> {
    let packed = file_of_rows(rt, rt.alloc())?;
    if packed.is_empty() {
        return Ok(());
    }
    let (passed, failed) = tally(rt, packed)?;
    println!(rt; "{passed} passed, {failed} failed")?;
    if failed > 0 {
        return Err(Fail::new("a row fails"));
    }
    Ok(())
}

/// Of these rows one passes, and both wrong ones fail.
#[test]
fn wrong_rows_fail(rt: HostRuntime) -> Result<(), Fail> {
    if tally(rt, ROWS)? != (1, 2) {
        return Err(Fail::new("a wrong row passes, or a right one fails"));
    }
    Ok(())
}
