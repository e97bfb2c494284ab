//! Chains of runs and cuts of the power.
ghost use Rattle.std.specs.Prelude.{◌<◌, ◌≡◌};

use crate::meter::run_tests::{HELD, HIRING, RUN, sealed};
use crate::meter::store_tests::filled_or;
use crate::meter::tests::{A, P, files_of, must, must_behind, strings};
use commands::{Row, row_in};
use memory_devices::{Fill, MemoryFiles};
use run_chains::{Taximeter, chain, may_begin};
use std::alloc::Global;
use std::marker::Brand;
use std::sync::ledger::{Blank, Ledger};
use std::test::Fail;
use taxi_units::Steps;

/// A cut of the power inside a call of the board, or none.
pub(crate) type Cut = Option<(u64, Fill)>;

/// The image at the end of a chain, and for each run its status and number.
pub(crate) type Ended = ([u8; 2048], Vec<(u8, u64)>);

/// A trip that is held at the end of the drive: the last call of its run is the sync of the commit.
const HOLDING: &str = "U 1767225600\nK H\nI 0 1\n";

/// A chain under a new counter, if it may begin.
fn counted<L: Ledger>(
    alloc: Global,
    blank: Blank,
    words: &[String],
    files: &mut [MemoryFiles],
    image: &[u8; 2048],
    cuts: &[Cut],
) -> Result<Ended, Fail>
    requires name { blank.name ≡ L.name }
    requires parts { blank.parts ≡ L.parts }
    requires some { 0 < blank.parts }
{
    let mut steps: Steps<L> = Steps::open(blank);
    if cuts.len() != files.len() {
        return Err(Fail::new("each run has a cut or none"));
    }
    match row_in(words) {
        Some(Row::Run) => {}
        _ => return Err(Fail::new("the words are none of a run")),
    }
    if may_begin(image, &mut steps) {
        return match chain::<Taximeter, L>(alloc, words, files, image, cuts, &mut steps) {
            Ok(ended) => Ok(ended),
            Err(_) => Err(Fail::new("there is no memory")),
        };
    }
    Err(Fail::new("no chain begins with the image"))
}

/// A chain with these words.
fn called(
    alloc: Global,
    words: &[String],
    files: &mut [MemoryFiles],
    image: &[u8; 2048],
    cuts: &[Cut],
) -> Result<Ended, Fail> {
    counted::<Brand>(alloc, Blank::new(1), words, files, image, cuts)
}

/// The files of runs of these drives, each with the numbers of its reads that fail.
fn files_of_all(alloc: Global, drives: &[(&str, &[u64])]) -> Result<Vec<MemoryFiles>, Fail> {
    let mut files = Vec::new(alloc);
    for (drive, fail) in drives {
        files.push(files_of(alloc, &[A, drive], fail)?)?;
    }
    Ok(files)
}

/// A chain of runs of these drives, each with the numbers of its reads that fail.
pub(crate) fn chained(
    alloc: Global,
    drives: &[(&str, &[u64])],
    image: &[u8; 2048],
    cuts: &[Cut],
) -> Result<Ended, Fail> {
    let words = strings(alloc, RUN)?;
    let mut files = files_of_all(alloc, drives)?;
    called(alloc, words.as_slice(), files.as_mut_slice(), image, cuts)
}

/// A chain's name, its drives with their failing reads, its cuts, and for each run its status and number.
type Chain = (
    &'static str,
    &'static [(&'static str, &'static [u64])],
    &'static [Cut],
    &'static [(u8, u64)],
);

const CHAINS: &[Chain] = &[
    ("no run", &[], &[], &[]),
    ("one run", &[(HELD, &[])], &[None], &[(0, 3)]),
    (
        "three runs",
        &[(HIRING, &[]), (HIRING, &[]), (HELD, &[])],
        &[None, None, None],
        &[(0, 2), (0, 3), (0, 5)],
    ),
    // A cut before the first call leaves the image before the run.
    (
        "a cut before the first call",
        &[(HIRING, &[]), (HELD, &[]), (HIRING, &[])],
        &[None, Some((0, Fill::New)), None],
        &[(0, 2), (0, 2), (0, 3)],
    ),
    // The trip that the first run held when the power was cut goes on in the second.
    (
        "a trip that goes on",
        &[(HELD, &[]), (HIRING, &[])],
        &[Some((14, Fill::New)), None],
        &[(0, 2), (0, 3)],
    ),
    (
        "a trip that is lost",
        &[(HELD, &[]), (HIRING, &[])],
        &[Some((14, Fill::Old)), None],
        &[(0, 1), (0, 2)],
    ),
    // A bad line, and reads of the tariff and of the drive that fail.
    (
        "runs that fail",
        &[
            ("U 1767225600\nI 20\n", &[]),
            (HIRING, &[2]),
            (HIRING, &[4]),
        ],
        &[None, None, None],
        &[(3, 1), (7, 1), (7, 2)],
    ),
    // A number above that of the last call is taken as the last one's, and not as none.
    ("a held trip", &[(HOLDING, &[])], &[None], &[(0, 2)]),
    (
        "a cut in the last call",
        &[(HOLDING, &[])],
        &[Some((u64::MAX, Fill::Old))],
        &[(0, 1)],
    ),
];

/// Fails unless each of these chains over an image has its answers, and leaves the seal.
fn must_chain_all(alloc: Global, image: &[u8; 2048], chains: &[Chain]) -> Result<(), Fail> {
    for (name, drives, cuts, answers) in chains {
        let (left, found) = chained(alloc, drives, image, cuts)?;
        let is_chained = found.as_slice() == *answers && left[1024..] == image[1024..];
        must(is_chained, "other answers or another seal", name)?;
    }
    Ok(())
}

#[test]
fn chains(rt: HostRuntime) -> Result<(), Fail> {
    must_chain_all(rt.alloc(), &sealed(rt.alloc(), A, P)?, CHAINS)
}

/// Which moment a call's number names, by the number that is found behind the run. Calls 12 to 15 of the run
/// commit the held trip, 21 to 26 the entry over it; 14 and 25 write a gate, and the next call is its sync.
const MOMENTS: &[(u64, Fill, u64)] = &[
    (0, Fill::New, 1),
    (1, Fill::New, 1),
    (13, Fill::New, 1),
    (14, Fill::Old, 1),
    (14, Fill::New, 2),
    (15, Fill::Old, 1),
    (15, Fill::New, 2),
    (16, Fill::Old, 2),
    (24, Fill::New, 2),
    (25, Fill::Old, 2),
    (25, Fill::New, 3),
    (26, Fill::Old, 2),
    (26, Fill::New, 3),
    (27, Fill::Old, 3),
    (28, Fill::Old, 3),
    (29, Fill::Old, 3),
];

/// Fails unless each of these cuts leaves the number beside it, and one before the first call the image.
fn must_name_all(
    alloc: Global,
    image: &[u8; 2048],
    moments: &[(u64, Fill, u64)],
) -> Result<(), Fail> {
    for &(call, fill, number) in moments {
        let (left, found) = chained(alloc, &[(HELD, &[])], image, &[Some((call, fill))])?;
        let is_named = found.as_slice() == [(0, number)].as_slice()
            && (call != 0 || left == *image);
        must_behind(is_named, "another number or image", call, fill)?;
    }
    Ok(())
}

#[test]
fn moments(rt: HostRuntime) -> Result<(), Fail> {
    must_name_all(rt.alloc(), &sealed(rt.alloc(), A, P)?, MOMENTS)
}

/// Whether a chain may begin with an image, under a new counter.
fn counted_beginning<L: Ledger>(blank: Blank, image: &[u8; 2048]) -> bool
    requires name { blank.name ≡ L.name }
    requires parts { blank.parts ≡ L.parts }
    requires some { 0 < blank.parts }
{
    let mut steps: Steps<L> = Steps::open(blank);
    may_begin(image, &mut steps)
}

/// Whether a chain may begin with an image.
fn begins(image: &[u8; 2048]) -> bool {
    counted_beginning::<Brand>(Blank::new(1), image)
}

/// An image of one byte throughout, or a sealed store with these bytes, and whether a chain may begin with it.
type Beginning = (&'static str, Option<u8>, &'static [(usize, u8)], bool);

const BEGINNINGS: &[Beginning] = &[
    ("zeros", Some(0), &[], false),
    ("open slots", Some(0xA5), &[], false),
    ("no seal", None, &[(1024, 0)], false),
    ("no totals", None, &[(0, 0)], false),
    ("sealed", None, &[], true),
];

/// Fails unless a chain may begin with each of these images or not, as it says.
fn must_begin_all(image: &[u8; 2048], beginnings: &[Beginning]) -> Result<(), Fail> {
    for (name, byte, bytes, may) in beginnings {
        let begins = begins(&filled_or(*byte, image, bytes));
        must(begins == *may, "another beginning", name)?;
    }
    Ok(())
}

#[test]
fn beginnings(rt: HostRuntime) -> Result<(), Fail> {
    must_begin_all(&sealed(rt.alloc(), A, P)?, BEGINNINGS)
}
