//! The outputs of a process: what they may not be, and prints that fail or wait. The cases are those of the system of
//! which chosen calls fail.
use crate::faulty_system::{Again, Call, Fault};
use crate::faulty_tests::Ask::{Print, Read, Sync, Write};
use crate::faulty_tests::{
    ALL, Ask, Case, FOUND_CASE, MADE, NEW_CASE, NO_CALL, NO_PRINT, NOTHING, UNTOUCHED, play_all,
};
use crate::file_tests::{Change, STORE, Sight, UNFINISHED};
use std::fs;
use std::io::ErrorKind;
use std::os::unix::fs::MetadataExt;
use std::test::Fail;

/// No call is Ok, not even a read, and there is no store.
const NO_CALL_AT_ALL: &[(Ask, bool)] = &[
    (Print, false),
    (Read(0), false),
    (Write, false),
    (Sync, false),
];

/// What the outputs of the process are, and whether anybody tells.
const OUTPUTS: &[Case] = &[
    Case {
        name: "an output is closed",
        faults: &[Fault::Fails(Call::Metadata("/proc/self/fd/1"))],
        kinds: &[ErrorKind::NotFound],
        ..FOUND_CASE
    },
    Case {
        name: "nobody tells what an output is",
        faults: &[Fault::Fails(Call::Metadata("/proc/self/fd/2"))],
        kinds: ALL,
        calls: NO_PRINT,
        left: UNTOUCHED,
        ..FOUND_CASE
    },
    Case {
        name: "nobody tells the path of an output",
        faults: &[Fault::Fails(Call::OwnPath("/proc/self/fd/2"))],
        kinds: ALL,
        calls: NO_PRINT,
        left: UNTOUCHED,
        ..FOUND_CASE
    },
    Case {
        name: "the path of an output is no text",
        faults: &[Fault::Fails(Call::OwnPath("/proc/self/fd/1"))],
        kinds: &[ErrorKind::InvalidFilename],
        ..FOUND_CASE
    },
    Case {
        name: "the system has no names of streams",
        faults: NO_STREAMS,
        kinds: &[ErrorKind::NotFound],
        calls: NO_PRINT,
        left: UNTOUCHED,
        ..FOUND_CASE
    },
    Case {
        name: "the system has no names of streams, and there is no store",
        faults: NO_STREAMS,
        kinds: &[ErrorKind::NotFound],
        calls: NO_CALL_AT_ALL,
        left: NOTHING,
        ..NEW_CASE
    },
    Case {
        name: "the standard output is the store",
        faults: &[Fault::Leads("/proc/self/fd/1", STORE)],
        calls: NO_PRINT,
        left: UNTOUCHED,
        ..FOUND_CASE
    },
    Case {
        name: "the standard error is the store",
        faults: &[Fault::Leads("/proc/self/fd/2", STORE)],
        calls: NO_CALL,
        left: UNTOUCHED,
        ..FOUND_CASE
    },
    Case {
        name: "the standard output is the store at the end of a link",
        folder: &[
            Change::Folder("kept"),
            Change::File("kept/store", 7, 2048),
            Change::Link("kept/store", STORE),
        ],
        faults: &[Fault::Leads("/proc/self/fd/1", "kept/store")],
        calls: NO_PRINT,
        left: &[Sight::Holds("kept/store", &[], 7, 2048, &[])],
        ..FOUND_CASE
    },
    Case {
        name: "the standard error is the store under another name",
        folder: &[
            Change::File(STORE, 7, 2050),
            Change::SecondName(STORE, "kept"),
        ],
        faults: &[Fault::Leads("/proc/self/fd/2", "kept")],
        calls: NO_PRINT,
        left: UNTOUCHED,
        ..FOUND_CASE
    },
    Case {
        name: "the standard output is another file",
        folder: &[Change::File(STORE, 7, 2050), Change::File("kept", 7, 2050)],
        faults: &[Fault::Leads("/proc/self/fd/1", "kept")],
        ..FOUND_CASE
    },
    Case {
        name: "nobody tells whether there is a store",
        faults: &[Fault::Fails(Call::Metadata(STORE))],
        kinds: ALL,
        calls: NO_PRINT,
        left: UNTOUCHED,
        ..FOUND_CASE
    },
];

/// A process without names of its streams.
const NO_STREAMS: &[Fault] = &[
    Fault::Fails(Call::Metadata("/proc/self/fd/1")),
    Fault::Fails(Call::Metadata("/proc/self/fd")),
];

/// An output under the name of a store in the making.
const UNFINISHED_OUTPUTS: &[Case] = &[
    Case {
        name: "the standard output is a store in the making, and there is no store",
        folder: &[Change::File(UNFINISHED, 9, 3)],
        faults: &[Fault::Leads("/proc/self/fd/1", UNFINISHED)],
        calls: NO_CALL_AT_ALL,
        left: UNFINISHED_ALONE,
        ..NEW_CASE
    },
    Case {
        name: "the standard error is a store in the making, and there is no store",
        folder: &[Change::File(UNFINISHED, 9, 3)],
        faults: &[Fault::Leads("/proc/self/fd/2", UNFINISHED)],
        calls: &[
            (Write, false),
            (Read(0), false),
            (Sync, false),
            (Print, false),
        ],
        left: UNFINISHED_ALONE,
        ..NEW_CASE
    },
    Case {
        name: "the standard output has the name of a store in the making beside a store",
        folder: &[Change::File(STORE, 7, 2050), Change::File(UNFINISHED, 9, 3)],
        faults: &[Fault::Leads("/proc/self/fd/1", UNFINISHED)],
        calls: NO_PRINT,
        left: UNTOUCHED,
        ..FOUND_CASE
    },
    Case {
        name: "the standard output is another file than what a cut left",
        folder: &[
            Change::File("kept", 7, 2050),
            Change::File(UNFINISHED, 9, 3),
        ],
        faults: &[Fault::Leads("/proc/self/fd/1", "kept")],
        ..NEW_CASE
    },
];

/// What a cut left of a store, untouched.
const UNFINISHED_ALONE: &[Sight] = &[
    Sight::IsAbsent(STORE),
    Sight::Holds(UNFINISHED, &[], 9, 3, &[]),
];

/// Whatever has one of the four names, at the end of a link or in another folder.
const KEPT: &[Case] = &[
    Case {
        name: "a link under the name of a store in the making leads to the standard output",
        folder: &[
            Change::File(STORE, 7, 2050),
            Change::File("kept", 9, 3),
            Change::Link("kept", UNFINISHED),
        ],
        ..TO_KEPT
    },
    Case {
        name: "a link under the log's name leads to the standard output",
        folder: &[
            Change::File(STORE, 7, 2050),
            Change::File("kept", 9, 3),
            Change::Link("kept", "taxi.log"),
        ],
        ..TO_KEPT
    },
    Case {
        name: "a link under the name of a log in the making leads to the standard output",
        folder: &[
            Change::File(STORE, 7, 2050),
            Change::File("kept", 9, 3),
            Change::Link("kept", "taxi.log.new"),
        ],
        ..TO_KEPT
    },
    Case {
        name: "the standard output is another folder's store",
        folder: &[
            Change::File(STORE, 7, 2050),
            Change::Folder("kept"),
            Change::File("kept/taxi.store", 9, 2048),
        ],
        faults: &[Fault::Leads("/proc/self/fd/1", "kept/taxi.store")],
        calls: NO_PRINT,
        left: UNTOUCHED,
        ..FOUND_CASE
    },
    Case {
        name: "the standard error is another folder's store in the making, and there is no store",
        folder: &[
            Change::Folder("kept"),
            Change::File("kept/taxi.store.new", 9, 3),
        ],
        faults: &[Fault::Leads("/proc/self/fd/2", "kept/taxi.store.new")],
        calls: NO_CALL_AT_ALL,
        left: NOTHING,
        ..NEW_CASE
    },
    Case {
        name: "the standard output is another folder's log",
        folder: &[Change::Folder("kept"), Change::File("kept/taxi.log", 9, 3)],
        faults: &[Fault::Leads("/proc/self/fd/1", "kept/taxi.log")],
        calls: NO_CALL_AT_ALL,
        left: NOTHING,
        ..NEW_CASE
    },
    Case {
        name: "the standard error is another folder's log in the making",
        folder: &[
            Change::File(STORE, 7, 2050),
            Change::Folder("kept"),
            Change::File("kept/taxi.log.new", 9, 3),
        ],
        faults: &[Fault::Leads("/proc/self/fd/2", "kept/taxi.log.new")],
        calls: NO_PRINT,
        left: UNTOUCHED,
        ..FOUND_CASE
    },
    Case {
        name: "nobody can look at the names that aren't needed",
        faults: &[
            Fault::Fails(Call::Metadata(UNFINISHED)),
            Fault::Fails(Call::Metadata("taxi.log")),
            Fault::Fails(Call::Metadata("taxi.log.new")),
        ],
        kinds: ALL,
        ..FOUND_CASE
    },
];

/// The standard output is a file to which a link leads.
const TO_KEPT: Case = Case {
    faults: &[Fault::Leads("/proc/self/fd/1", "kept")],
    calls: NO_PRINT,
    left: UNTOUCHED,
    ..FOUND_CASE
};

/// Errors for which no print waits.
const AT_ONCE: &[ErrorKind] = &[
    ErrorKind::Other,
    ErrorKind::StorageFull,
    ErrorKind::Interrupted,
    ErrorKind::BrokenPipe,
];

/// Prints that fail, as each must.
const PRINTS: &[Case] = &[
    Case {
        name: "a print fails beside a store",
        faults: &[Fault::Fails(Call::Print)],
        kinds: AT_ONCE,
        calls: &[
            (Print, false),
            (Read(7), true),
            (Print, false),
            (Write, true),
            (Sync, true),
        ],
        ..FOUND_CASE
    },
    Case {
        name: "a print fails, and there is no store",
        faults: &[Fault::Fails(Call::Print)],
        kinds: AT_ONCE,
        calls: &[(Print, false), (Read(0), true), (Write, true), (Sync, true)],
        left: MADE,
        ..NEW_CASE
    },
];

/// Prints on an output that takes one byte at a time, which has to be the next.
const FULL: &[Case] = &[
    Case {
        name: "an output takes one byte at a time",
        faults: &[Fault::Full(0, 0)],
        calls: &[(Print, true), (Print, true)],
        left: UNTOUCHED,
        ..FOUND_CASE
    },
    Case {
        name: "an output takes nothing for almost ten minutes, and then little before each of eight bytes",
        faults: &[Fault::Full(5_999, 2)],
        calls: &[(Print, true)],
        again: Again::Pauses(6_015),
        left: UNTOUCHED,
        ..FOUND_CASE
    },
    Case {
        name: "an output takes nothing for ten minutes",
        faults: &[Fault::Full(6_000, 0)],
        calls: &[(Print, false)],
        again: Again::Pauses(6_000),
        left: UNTOUCHED,
        ..FOUND_CASE
    },
];

/// A file of the system, and one with its inode number on another device. The root of a file system that is kept in
/// memory often has the number 1.
const TWINS: &[(&[Fault], &str, &str)] = &[
    (
        &[
            Fault::Leads(STORE, "/proc"),
            Fault::Leads("/proc/self/fd/1", "/dev"),
        ],
        "/proc",
        "/dev",
    ),
    (
        &[
            Fault::Leads(STORE, "/proc"),
            Fault::Leads("/proc/self/fd/1", "/sys"),
        ],
        "/proc",
        "/sys",
    ),
    (
        &[
            Fault::Leads(STORE, "/proc"),
            Fault::Leads("/proc/self/fd/1", "/dev/shm"),
        ],
        "/proc",
        "/dev/shm",
    ),
    (
        &[
            Fault::Leads(STORE, "/proc"),
            Fault::Leads("/proc/self/fd/1", "/dev/pts"),
        ],
        "/proc",
        "/dev/pts",
    ),
];

/// Whether two names lead to files of one inode number on two devices.
fn are_twins(rt: HostRuntime, one: &str, other: &str) -> bool {
    match (fs::metadata(&rt, one), fs::metadata(&rt, other)) {
        (Ok(one), Ok(other)) => one.ino() == other.ino() && one.dev() != other.dev(),
        _ => false,
    }
}

#[test]
fn outputs_that_are_the_store(rt: HostRuntime) -> Result<(), Fail> {
    play_all(rt, OUTPUTS)
}

#[test]
fn outputs_that_are_a_store_in_the_making(rt: HostRuntime) -> Result<(), Fail> {
    play_all(rt, UNFINISHED_OUTPUTS)
}

#[test]
fn outputs_of_the_other_names(rt: HostRuntime) -> Result<(), Fail> {
    play_all(rt, KEPT)
}

#[test]
fn prints_that_fail(rt: HostRuntime) -> Result<(), Fail> {
    play_all(rt, PRINTS)
}

#[test]
fn prints_on_a_full_output(rt: HostRuntime) -> Result<(), Fail> {
    play_all(rt, FULL)
}

#[test]
fn outputs_on_another_device(rt: HostRuntime) -> Result<(), Fail> {
    for (faults, one, other) in TWINS {
        if are_twins(rt, *one, *other) {
            let case = Case {
                name: "an output has the store's number of inode on another device",
                faults: *faults,
                calls: &[(Print, true)],
                left: UNTOUCHED,
                ..FOUND_CASE
            };
            return play_all(rt, &[case]);
        }
    }
    println!(rt; "skipped: no two files of one number of inode on two devices")?;
    Ok(())
}
