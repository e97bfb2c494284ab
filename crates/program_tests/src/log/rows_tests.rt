//! The receipts of a roll as rows, and each failure of the outside in turn, over rolls and logs in memory.
use crate::log::keep_log_tests::{Ended, failing, filed_to, receipts};
use crate::meter::tests::must_at;
use std::alloc::Global;
use std::test::Fail;

const ROWS: &[&str] = &["rows", "roll"];

/// The lines of a listing of the receipts 2 and 3.
const LINES: &[&[u8]] = &[
    b"receipt,kind,taxi,constant,secured,tariff,start,finish,position,distance,initial,steps,step,minimum,fare,\
supplements,total\n",
    b"2,CLOSED,LX-4711,10000,2025-12-01,2645762409b70e5ab72a0a803b7d1a341373264e56971a8f44cb1969489d5f9b,\
2026-01-01 01:00:00,2026-01-01 01:00:00,1,234.800,3.80,0,0.20,,3.80,0.00,3.80\n",
    b"3,CLOSED,LX-4711,10000,2025-12-01,2645762409b70e5ab72a0a803b7d1a341373264e56971a8f44cb1969489d5f9b,\
2026-01-01 01:00:00,2026-01-01 01:00:00,1,234.800,3.80,0,0.20,,3.80,0.00,3.80\n",
];

/// Which reads of the roll and which calls of the log fail, how many lines of the listing come, the last line, and the
/// status.
type Case = (&'static [u64], &'static [u64], usize, &'static [u8], u8);

/// No failure, and one at each of the two reads of the roll, the second of which tells its end, and at each of the
/// three prints; a third read isn't made.
const CASES: &[Case] = &[
    (&[], &[], 3, b"", 0),
    (&[1], &[], 0, b"READ FAULT\n", 7),
    (&[2], &[], 3, b"READ FAULT\n", 7),
    (&[3], &[], 3, b"", 0),
    (&[], &[1], 0, b"", 8),
    (&[], &[2], 1, b"", 8),
    (&[], &[3], 2, b"", 8),
];

/// The text of a case.
fn text_of(alloc: Global, case: &Case) -> Result<Vec<u8>, Fail> {
    let mut text = Vec::new(alloc);
    for line in LINES.iter().take(case.2) {
        text.extend_from_slice(line)?;
    }
    text.extend_from_slice(case.3)?;
    Ok(text)
}

/// Whether a call has ended as a case says, and has left the log of an image.
fn is_as_told(ended: &Ended, text: &[u8], case: &Case, image: &[u8]) -> bool {
    ended.0.printed() == text && ended.1 == case.4 && ended.0.image().as_slice() == image
}

/// Receipts 2 and 3 are listed, beside a log that has others, in each case.
#[test]
fn a_listing(rt: HostRuntime) -> Result<(), Fail> {
    let image = filed_to(rt.alloc(), 4)?;
    let roll = receipts(rt.alloc(), 2, 3)?;
    for (place, case) in CASES.iter().enumerate() {
        let text = text_of(rt.alloc(), case)?;
        let ended = failing(rt.alloc(), &image, ROWS, &roll, case.0, case.1)?;
        let is_told = is_as_told(&ended, &text, case, &image);
        must_at(is_told, "another end of case", place as u64)?;
    }
    Ok(())
}
