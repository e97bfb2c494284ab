//! Calls that open the store, over boards in memory.
use crate::meter::run_tests::HIRING;
use crate::meter::tests::{A, Call, FIRST, SHOWN, ZEROS, must_answer, must_carry_out_all};
use std::alloc::Global;
use std::test::Fail;

/// The bytes of a store that is sealed with tariff A, by their places, but for its digest: the totals of one hiring in
/// the first slot, beside a seal with two decimals.
const STORE: &[(usize, u8)] = &[
    (0, 0xa5),
    (8, 2),
    (22, 0x03),
    (23, 0x95),
    (24, 0x30),
    (38, 0x03),
    (39, 0x95),
    (40, 0x30),
    (48, 1),
    (79, 0x01),
    (80, 0x7c),
    (1024, 0xa5),
    (1032, 1),
    (1033, b'L'),
    (1034, b'X'),
    (1035, b'-'),
    (1036, b'4'),
    (1037, b'7'),
    (1038, b'1'),
    (1039, b'1'),
    (1051, 0x27),
    (1052, 0x10),
    (1055, 60),
    (1090, 0x4f),
    (1091, 0xc7),
    (1092, 1),
    (1097, 0x38),
    (1098, 0x6d),
    (1099, 0x43),
    (1100, 0x80),
    (1103, 0x0e),
    (1104, 0x10),
    (1477, 2),
];

/// What layout 1 has more, and layout 2 with a share of position 1.
pub(crate) const FIRST_LAYOUT: &[(usize, u8)] = &[(511, 1), (1535, 1)];

pub(crate) const SECOND_LAYOUT: &[(usize, u8)] = &[
    (196, 1),
    (211, 0x01),
    (212, 0x7c),
    (511, 2),
    (1535, 1),
];

/// An image with other bytes at these places.
pub(crate) fn with_bytes(image: &[u8; 2048], bytes: &[(usize, u8)]) -> [u8; 2048] {
    let mut changed = *image;
    for (place, byte) in bytes {
        if *place < 2048 {
            changed[*place] = *byte;
        }
    }
    changed
}

/// An image of one byte throughout, or one with other bytes at some places.
pub(crate) fn filled_or(byte: Option<u8>, image: &[u8; 2048], bytes: &[(usize, u8)]) -> [u8; 2048] {
    match byte {
        Some(byte) => [byte; 2048],
        None => with_bytes(image, bytes),
    }
}

/// The SHA-256 of the tariff A, as sha256sum gives it.
const DIGEST: [u8; 32] = [
    0x26, 0x45, 0x76, 0x24, 0x09, 0xb7, 0x0e, 0x5a, 0xb7, 0x2a, 0x0a, 0x80, 0x3b, 0x7d, 0x1a, 0x34,
    0x13, 0x73, 0x26, 0x4e, 0x56, 0x97, 0x1a, 0x8f, 0x44, 0xcb, 0x19, 0x69, 0x48, 0x9d, 0x5f, 0x9b,
];

/// The sealed store with these bytes more.
pub(crate) fn image_of(more: &[(usize, u8)]) -> [u8; 2048] {
    let mut image = with_bytes(&with_bytes(ZEROS, STORE), more);
    image[1056..1088].copy_from_slice(&DIGEST);
    image
}

const TOTALS: &str =
    "NUMBER 2\nDISTANCE 234.800 m\nHIRED 234.800 m\nHIRINGS 1\nSUPPLEMENTS 0.00\nFARE 3.80\nHELD no\n\
     LAYOUT 2\nBEFORE 0 0.00\nPOSITION 1 1 3.80\n";

const SEALED: &str =
    "# SEAL 1\n# DECIMALS 2\n# TARIFF 2645762409b70e5ab72a0a803b7d1a341373264e56971a8f44cb1969489d5f9b\n\
     taxi LX-4711\nconstant 10000\nmode single\nhold 60\noffset 946684800 3600\nsecured 2025-12-01\n";

/// Asks for the store's number, which is 2.
pub(crate) const NUMBER: &str = "\x02\x01\x06\x03";

pub(crate) const OF_NUMBER: &str = "\x02\0\x09\x06\0\0\0\0\0\0\0\x02\x03";

/// Asks for the constant, which is 10,000, and the hirings, of which there is one.
pub(crate) const CONSTANT_AND_HIRINGS: &str = "\x02\x02\x02\x09\x03";

pub(crate) const OF_CONSTANT_AND_HIRINGS: &str =
    "\x02\0\x0e\x02\0\0\x27\x10\x09\0\0\0\0\0\0\0\x01\x03";

/// Two requests and a byte that is no request's, and what is served.
const REQUESTS: &str = "\x02\x01\x06\x03\x02\x02\x02\x09\x03\x07";

const SERVED: &[&str] = &[OF_NUMBER, OF_CONSTANT_AND_HIRINGS, "BAD FRAME 9\n"];

const SHARED: &str =
    "SHIFT 1 ANNA 1 234.800 234.800 3.80 0.00\nDRIVER ANNA 1 234.800 234.800 3.80 0.00\n\
     UNSIGNED 0 0.000 0.000 0.00 0.00\nGROWTH 1 234.800 234.800 3.80 0.00\n";

/// Readings that pass, and their judgement.
const READ: &str = "fare,distance,time\n3.80,234.800,11.9\n";

const PASSES: &str =
    "CROSSOVER 1 16771 m/h\nhiring,kind,fare,read_fare,distance,read_distance,time,read_time,verdict\n\
     1,CLOSED,3.80,3.80,234.800,234.800,11.9,11.9,PASS\n";

/// Each command that only looks at the store.
const LOOKS: &[Call] = &[
    (&["totals"], &[], 0, &[TOTALS], 0),
    (&["sealed"], &[], 0, &[SEALED], 0),
    (&["port", "r"], &[REQUESTS], 1, SERVED, 16),
    (
        &["mark", "on", "ANNA"],
        &[],
        0,
        &["ON ANNA 2 234800 234800 1 0 380\n"],
        0,
    ),
    (
        &["mark", "off"],
        &[],
        0,
        &["OFF 2 234800 234800 1 0 380\n"],
        0,
    ),
    (
        &["shifts", "b"],
        &["ON ANNA 1 0 0 0 0 0\n"],
        2,
        &[SHARED],
        0,
    ),
    (
        &["bench", "t", "d", "r"],
        &[A, HIRING, READ],
        6,
        &[PASSES],
        0,
    ),
];

#[test]
fn commands_that_look(rt: HostRuntime) -> Result<(), Fail> {
    must_carry_out_all(rt.alloc(), &image_of(SECOND_LAYOUT), LOOKS)
}

/// A call of which this call of the board and this read fail, or 0: its words, its texts, the pieces of what it prints,
/// and its status.
type Failing = (
    &'static [&'static str],
    &'static [&'static str],
    (u64, u64),
    &'static [&'static str],
    u8,
);

/// A read fails behind a print, or with a print, or isn't made, behind the end of the requests or behind a byte that is
/// none's; or the line that tells of a bad text isn't printed.
const FAILURES: &[Failing] = &[
    (
        &["fare", "t", "d", "10000"],
        &[A, FIRST],
        (0, 4),
        &[SHOWN, "READ FAULT\n"],
        7,
    ),
    (&["fare", "t", "d", "10000"], &[A, FIRST], (1, 1), &[], 8),
    (&["form", "t"], &["step 0.205\n"], (1, 0), &[], 8),
    (&["offsets", "r", "2026", "2026"], &[""], (1, 0), &[], 8),
    (
        &["port", "r"],
        &[NUMBER],
        (0, 2),
        &[OF_NUMBER, "READ FAULT\n"],
        7,
    ),
    (&["port", "r"], &[NUMBER], (0, 3), &[OF_NUMBER], 0),
    (&["port", "r"], &[REQUESTS], (0, 2), SERVED, 16),
];

/// Fails unless each of these calls over an image has its answer, and leaves the image.
fn must_fail_all(alloc: Global, image: &[u8; 2048], calls: &[Failing]) -> Result<(), Fail> {
    for (words, texts, failing, output, status) in calls {
        must_answer(alloc, image, words, texts, *failing, output, *status)?;
    }
    Ok(())
}

#[test]
fn failures_behind_a_print(rt: HostRuntime) -> Result<(), Fail> {
    must_fail_all(rt.alloc(), &image_of(SECOND_LAYOUT), FAILURES)
}
