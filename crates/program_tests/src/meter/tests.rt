//! Calls of the program, over files and a board in memory.
ghost use Rattle.std.specs.Prelude.{◌<◌, ◌≡◌};

use commands::taxi;
use memory_devices::{Fill, MemoryBoard, MemoryFiles};
use std::alloc::Global;
use std::marker::Brand;
use std::sync::ledger::{Blank, Ledger};
use std::test::Fail;
use taxi_units::Steps;

/// The tariff of examples/simple.tariff.
pub(crate) const A: &str =
    "decimals 2\nstep 0.20 ahead\ninitial 3.80 covers 0.40\nrate 0.20 per 117.4 m, 0.20 per 25.2 s\n";

/// Parameters with one offset.
pub(crate) const P: &str =
    "taxi LX-4711\nconstant 10000\nmode single\nhold 60\noffset 946684800 3600\nsecured 2025-12-01\n";

/// What a cut may leave of the bytes in flight.
pub(crate) const FILLS: &[Fill] = &[
    Fill::Old,
    Fill::New,
    Fill::Half,
    Fill::Byte(0),
    Fill::Byte(0xA5),
    Fill::Byte(0xFF),
];

/// A store of zeros.
pub(crate) const ZEROS: &[u8; 2048] = &[0; 2048];

/// A store that a call which doesn't look at it may find.
pub(crate) const SEVENS: &[u8; 2048] = &[7; 2048];

/// Neither a call of the board nor a read fails.
pub(crate) const CALM: (u64, u64) = (0, 0);

/// A call under a new counter.
fn counted<L: Ledger>(
    alloc: Global,
    blank: Blank,
    words: &[String],
    files: &mut MemoryFiles,
    board: &mut MemoryBoard,
) -> u8
    requires name { blank.name ≡ L.name }
    requires parts { blank.parts ≡ L.parts }
    requires some { 0 < blank.parts }
{
    let mut steps: Steps<L> = Steps::open(blank);
    taxi(alloc, words, files, board, &mut steps)
}

/// The status of a call of these words, under a counter of its own.
pub(crate) fn status_of(
    alloc: Global,
    words: &[String],
    files: &mut MemoryFiles,
    board: &mut MemoryBoard,
) -> u8 {
    counted::<Brand>(alloc, Blank::new(1), words, files, board)
}

/// Words as a program has them.
pub(crate) fn strings(alloc: Global, words: &[&str]) -> Result<Vec<String>, Fail> {
    let mut texts = Vec::new(alloc);
    for word in words {
        texts.push(String::from_str(alloc, word)?)?;
    }
    Ok(texts)
}

/// The files of a call: that of word 1 has the first of these texts, that of word 2 the second, and so on, and the
/// reads with these numbers fail.
pub(crate) fn files_of(alloc: Global, texts: &[&str], fail: &[u64]) -> Result<MemoryFiles, Fail> {
    let mut files = MemoryFiles::new(alloc, fail)?;
    files.add(b"")?;
    for text in texts {
        files.add(text.as_bytes())?;
    }
    Ok(files)
}

/// The board behind a call, and the call's status.
pub(crate) type Ended = (MemoryBoard, u8);

/// The status of a call of these words on a board; the files have these texts, and these reads fail.
pub(crate) fn call(
    alloc: Global,
    words: &[&str],
    texts: &[&str],
    fail: &[u64],
    board: &mut MemoryBoard,
) -> Result<u8, Fail> {
    let words = strings(alloc, words)?;
    let mut files = files_of(alloc, texts, fail)?;
    Ok(status_of(alloc, words.as_slice(), &mut files, board))
}

/// A call over an image; these calls of the board and these reads fail.
pub(crate) fn called(
    alloc: Global,
    words: &[&str],
    texts: &[&str],
    image: &[u8; 2048],
    calls: &[u64],
    reads: &[u64],
) -> Result<Ended, Fail> {
    let mut board = MemoryBoard::new(alloc, image, calls)?;
    let status = call(alloc, words, texts, reads, &mut board)?;
    Ok((board, status))
}

/// A call over an image in which nothing fails.
pub(crate) fn whole(
    alloc: Global,
    words: &[&str],
    texts: &[&str],
    image: &[u8; 2048],
) -> Result<Ended, Fail> {
    called(alloc, words, texts, image, &[], &[])
}

/// Fails unless something holds of the case with this name.
pub(crate) fn must(holds: bool, what: &str, name: &str) -> Result<(), Fail> {
    if holds {
        return Ok(());
    }
    Err(Fail::new(format_args!("{what}: {name}")))
}

/// Fails unless something holds of the case with this number.
pub(crate) fn must_at(holds: bool, what: &str, number: u64) -> Result<(), Fail> {
    if holds {
        return Ok(());
    }
    Err(Fail::new(format_args!("{what}: {number}")))
}

/// Fails unless something holds behind a cut with this fill in the call with this number.
pub(crate) fn must_behind(holds: bool, what: &str, call: u64, fill: Fill) -> Result<(), Fail> {
    if holds {
        return Ok(());
    }
    Err(Fail::new(format_args!("{what} behind call {call}, {fill:?}")))
}

/// Whether a text is these pieces in a row.
pub(crate) fn is_made_of(text: &[u8], pieces: &[&str]) -> bool {
    let mut rest = text;
    for piece in pieces {
        match rest.strip_prefix(piece.as_bytes()) {
            Some(more) => rest = more,
            None => return false,
        }
    }
    rest.is_empty()
}

/// In what a call over an image differs from its answer, if in anything.
fn difference(
    ended: &Ended,
    image: &[u8; 2048],
    output: &[&str],
    status: u8,
) -> Option<&'static str> {
    if ended.1 != status {
        return Some("another status");
    }
    if !is_made_of(ended.0.printed(), output) {
        return Some("another text");
    }
    if *ended.0.image() != *image {
        return Some("another image");
    }
    None
}

/// Fails unless a call prints these pieces, ends with this status and leaves the image, if this call of the board and
/// this read fail.
pub(crate) fn must_answer(
    alloc: Global,
    image: &[u8; 2048],
    words: &[&str],
    texts: &[&str],
    failing: (u64, u64),
    output: &[&str],
    status: u8,
) -> Result<(), Fail> {
    let (call, read) = failing;
    let ended = called(alloc, words, texts, image, &[call], &[read])?;
    match difference(&ended, image, output, status) {
        None => Ok(()),
        Some(what) => Err(Fail::new(format_args!(
            "{what}: {words:?}, failing call {call} and read {read}, over {texts:?}, for {output:?}"
        ))),
    }
}

/// Whether a call over an image prints this text and ends with 0.
pub(crate) fn prints(
    alloc: Global,
    image: &[u8; 2048],
    words: &[&str],
    texts: &[&str],
    text: &str,
) -> Result<bool, Fail> {
    let ended = whole(alloc, words, texts, image)?;
    Ok(ended.1 == 0 && ended.0.printed() == text.as_bytes())
}

/// Whether a call ends with 8 at this call of the board, which is its last one, in front of the end of a text.
fn is_broken_off(ended: &Ended, text: &[u8], number: u64) -> bool {
    let is_begun = text.starts_with(ended.0.printed()) && text != ended.0.printed();
    is_begun && ended.1 == 8 && ended.0.calls() == number
}

/// The board behind a call of which this call of the board fails. Fails itself unless the call ends there with 8, and
/// has printed a beginning of this text.
pub(crate) fn broken_off(
    alloc: Global,
    image: &[u8; 2048],
    words: &[&str],
    texts: &[&str],
    text: &[u8],
    number: u64,
) -> Result<MemoryBoard, Fail> {
    let ended = called(alloc, words, texts, image, &[number], &[])?;
    if is_broken_off(&ended, text, number) {
        return Ok(ended.0);
    }
    Err(Fail::new(format_args!("another end at call {number}: {words:?}, over {texts:?}")))
}

/// Fails unless a call breaks off at this call of the board, and leaves the image.
fn must_break_off_at(
    alloc: Global,
    image: &[u8; 2048],
    words: &[&str],
    texts: &[&str],
    text: &[u8],
    number: u64,
) -> Result<(), Fail> {
    let board = broken_off(alloc, image, words, texts, text, number)?;
    must_at(*board.image() == *image, "another image at call", number)
}

/// Fails unless a call breaks off so at each call of the board. `whole` is the board of the call in which none fails.
pub(crate) fn must_break_off(
    alloc: Global,
    image: &[u8; 2048],
    words: &[&str],
    texts: &[&str],
    whole: &MemoryBoard,
) -> Result<(), Fail> {
    for number in 1..=whole.calls() {
        must_break_off_at(alloc, image, words, texts, whole.printed(), number)?;
    }
    Ok(())
}

/// Fails unless a call ends with 7 and the line of the fault alone at each of its first reads that fails.
fn must_fail_to_read(
    alloc: Global,
    image: &[u8; 2048],
    words: &[&str],
    texts: &[&str],
    reads: u64,
) -> Result<(), Fail> {
    for read in 1..=reads {
        must_answer(alloc, image, words, texts, (0, read), &["READ FAULT\n"], 7)?;
    }
    Ok(())
}

/// A call of the program: its words, the texts of the files of words 1, 2 and on, how many reads it makes before its
/// first print, the pieces of what it prints, and its status.
pub(crate) type Call = (
    &'static [&'static str],
    &'static [&'static str],
    u64,
    &'static [&'static str],
    u8,
);

/// Fails unless a call over an image has its answer, ends as it should if a read or a call of the board fails, and
/// leaves the image.
fn must_carry_out(alloc: Global, image: &[u8; 2048], call: &Call) -> Result<(), Fail> {
    let (words, texts, reads, output, status) = *call;
    must_answer(alloc, image, words, texts, CALM, output, status)?;
    must_fail_to_read(alloc, image, words, texts, reads)?;
    let (board, _) = whole(alloc, words, texts, image)?;
    must_break_off(alloc, image, words, texts, &board)
}

/// Fails unless each of these calls over an image ends so.
pub(crate) fn must_carry_out_all(
    alloc: Global,
    image: &[u8; 2048],
    calls: &[Call],
) -> Result<(), Fail> {
    for call in calls {
        must_carry_out(alloc, image, call)?;
    }
    Ok(())
}

/// Adds a call of a board with each of these fills.
fn push_cuts(cuts: &mut Vec<(u64, Fill)>, number: u64, fills: &[Fill]) -> Result<(), Fail> {
    for fill in fills {
        cuts.push((number, *fill))?;
    }
    Ok(())
}

/// Each call of a board up to a number, with each of the fills.
pub(crate) fn cuts_of(alloc: Global, calls: u64) -> Result<Vec<(u64, Fill)>, Fail> {
    let mut cuts = Vec::new(alloc);
    for number in 1..=calls {
        push_cuts(&mut cuts, number, FILLS)?;
    }
    Ok(cuts)
}

/// What a cut in a call of a board leaves, or in its last one if it has no such call.
pub(crate) fn cut_in(board: &MemoryBoard, call: u64, fill: Fill) -> [u8; 2048] {
    board.cut(call.min(board.calls()), fill)
}

/// A text, and behind it another one `count` times.
pub(crate) fn repeated(
    alloc: Global,
    start: &str,
    piece: &str,
    count: usize,
) -> Result<String, Fail> {
    let mut text = String::from_str(alloc, start)?;
    for _ in 0..count {
        text.push_str(piece)?;
    }
    Ok(text)
}

/// A drive, and what it shows under tariff A.
pub(crate) const FIRST: &str = "U 1767225600\nK H\nI 0 1\nI 0 504\nI 0 1\n";

pub(crate) const SHOWN: &str = "FOR HIRE T1 Z1\nHIRED T1 Z1 3.80 +0.00\nHIRED T1 Z1 4.00 +0.00\n";

/// Tariff A under a constant of 10,000, as rows.
const ROWS: &str =
    "MEASURE 1479240000\nRATE 1 25200000 117400000\nINITIAL 1 3.80 0.40\nCELL 0 1 1\nCELL 1 1 1\nCELL 2 1 1\n\
     CELL 3 1 1\nCELL 4 1 1\nCELL 5 1 1\nCELL 6 1 1\n";

/// When its lines first count.
const LINES: &str =
    "3 initial holds T1 Z1 thu 2026-01-01 00:00\n4 rate holds T1 Z1 thu 2026-01-01 00:00 0 t 0 p\n";

/// The tariff A with another measure of time, and what differs.
const B: &str =
    "decimals 2\nstep 0.20 ahead\ninitial 3.80 covers 0.40\nrate 0.20 per 117.4 m, 0.20 per 25.3 s\n";

const DIFFERENT: &str =
    "DIFFERENT RATE T1 Z1 thu 2026-01-01 00:00 0 t 0 p\n4 rate 0.20 per 117.4 m, 0.20 per 25.2 s\n\
     4 rate 0.20 per 117.4 m, 0.20 per 25.3 s\n";

/// Summer time of the European Union, with a clock an hour ahead of UTC in winter, and its offsets of a year.
const NORTH: &str =
    "standard 3600\nsummer 7200\nbegin last sun mar 01:00\nend last sun oct 01:00\n";

const NORTH_2026: &str = "offset 946684800 3600\noffset 1774746000 7200\noffset 1792890000 3600\n";

/// The first drive, and the trip of it stopped and cleared.
const FIRST_CLEARED: &str = "U 1767225600\nK H\nI 0 1\nI 0 504\nI 0 1\nK S\nI 0 1\nK C\nI 0 1\n";

/// Why its fare is what it is: 50.6 s at 0.20 per 25.2 s.
const EXPLAINED: &str =
    "HIRING 1 CLOSED\nSTART 2026-01-01 01:00:00\nFINISH 2026-01-01 01:00:00\nPOSITION 1\n\
     DISTANCE 0.000 m 50.7 s\nFEE 3 3.80 0.40\nRATE 4 TIME 0.000 m 50.6 s 0.401587 59404400000\n\
     STOPPED 0.000 m 0.1 s\nCHARGED 0.401587 59404400000 / 1479240000\nCALC 3.80 + 1 x 0.20\nFARE 4.00\n\
     SUPPLEMENTS 0.00\nTOTAL 4.00\nEND\n";

/// What happened in it: the display shows 4.00 an interval behind the 50.4 s that the cover takes.
const TOLD: &str =
    "HIRING 1 CLOSED\n0 0 2026-01-01 01:00:00 HIRED T1 Z1 FEE 3\n0 0 2026-01-01 01:00:00 SHOWN 3.80 +0.00\n\
     0 0 2026-01-01 01:00:00 RATE 4\n505 0 2026-01-01 01:00:00 SHOWN 4.00 +0.00\n\
     506 0 2026-01-01 01:00:00 STOPPED\n506 0 2026-01-01 01:00:00 SHOWN 4.00 +0.00\n\
     507 0 2026-01-01 01:00:00 CLOSED 4.00 +0.00\nEND\n";

/// What `gen 7 1` prints, by a program of its own in another language.
const GENERATED: &str =
    "GEN 7 1\nEVENTS 4662\nNUMBER 2\nDISTANCE 2129.500 m\nHIRED 1751.500 m\nHIRINGS 1\nSUPPLEMENTS 5.00\n\
     FARE 9.00\n";

/// A tariff with seven faults, and their lines.
const FAULTY: &str =
    "zones 2\nzones 2\nrate 0.1 per 0.0 m, 0.1 per 0.0 s when zone 4\nholiday 2026-02-30\n";

const SEVEN_FAULTS: &str =
    "BAD TARIFF NoStep\nBAD TARIFF Duplicate 2\nBAD TARIFF UnknownNumber 3\nBAD TARIFF NoDefaultRate\n\
     BAD TARIFF NoDefaultInitial\nBAD TARIFF BadDate 4\nBAD TARIFF MeasureZero 3\n";

/// The tariff A by the nearest amounts for 10^7 decimetres and 3,600,000 tenths of a second, worked by hand.
const NEAR: &str =
    "# each amount is within 1460 in 1000000000\ndecimals 2\nstep 0.20 ahead\ninitial 3.80 covers 0.40\n\
     rate 1703.58 per 1000000.0 m, 2857.14 per 360000.0 s\n";

/// Each command that doesn't look at the store, and words that are none.
const WITHOUT_STORE: &[Call] = &[
    (
        &["check", "t"],
        &[A],
        2,
        &["OK CELLS 7 MEASURE 147924\n"],
        0,
    ),
    (&["faults", "t"], &[FAULTY], 2, &[SEVEN_FAULTS], 2),
    (&["form", "t"], &[A], 2, &[A], 0),
    (&["near", "t"], &[A], 2, &[NEAR], 0),
    (&["tables", "t", "10000"], &[A], 2, &[ROWS], 0),
    (&["lines", "t", "10000"], &[A], 2, &[LINES], 0),
    (
        &["compare", "t", "u", "10000"],
        &[A, B],
        4,
        &[DIFFERENT],
        11,
    ),
    (&["fare", "t", "d", "10000"], &[A, FIRST], 3, &[SHOWN], 0),
    (
        &["offsets", "r", "2026", "2026"],
        &[NORTH],
        2,
        &[NORTH_2026],
        0,
    ),
    (
        &["explain", "t", "d", "p"],
        &[A, FIRST_CLEARED, P],
        6,
        &[EXPLAINED],
        0,
    ),
    (
        &["story", "t", "d", "p"],
        &[A, FIRST_CLEARED, P],
        6,
        &[TOLD],
        0,
    ),
    (&["gen", "7", "1"], &[], 0, &[GENERATED], 0),
    (
        &["Fare", "t", "d", "10000"],
        &[A, FIRST],
        0,
        &["BAD WORDS\n"],
        1,
    ),
];

#[test]
fn commands_without_a_store(rt: HostRuntime) -> Result<(), Fail> {
    must_carry_out_all(rt.alloc(), SEVENS, WITHOUT_STORE)
}
