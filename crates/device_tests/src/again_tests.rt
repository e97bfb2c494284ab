//! What is done after a sync that failed: the same bytes are written again, or a name is made and removed, and no sync
//! follows. The cases are those of the system of which chosen calls fail.
use crate::faulty_system::{Again, Call, Fault};
use crate::faulty_tests::Ask::{Print, Read, Sync, Write, WriteLast};
use crate::faulty_tests::{
    ALL, Access, Case, FOUND_CASE, HARD, LINKED, NEW_CASE, NO_CALL, NO_MAKING, ONE, UNTOUCHED,
    play_all,
};
use crate::file_tests::{Change, STORE, Sight, UNFINISHED};
use std::io::ErrorKind;
use std::test::Fail;

/// The sync of an opening fails. A store that may be written is written again, and no other.
const OPENINGS: &[Case] = &[
    Case {
        name: "the sync of an opening to read fails",
        access: Access::Read,
        faults: &[Fault::Fails(Call::Sync(STORE))],
        kinds: ALL,
        calls: NO_CALL,
        again: Again::Bytes(0, 2048),
        left: UNTOUCHED,
        ..FOUND_CASE
    },
    Case {
        name: "the sync of an opening of a store that may only be read fails",
        access: Access::Read,
        faults: &[
            Fault::FailsSo(Call::OpenToWrite(STORE), ErrorKind::PermissionDenied),
            Fault::Fails(Call::Sync(STORE)),
        ],
        kinds: ALL,
        calls: NO_CALL,
        left: UNTOUCHED,
        ..FOUND_CASE
    },
    Case {
        name: "the sync of an opening fails, and nothing can be read",
        faults: &[
            Fault::Fails(Call::Sync(STORE)),
            Fault::Fails(Call::Read(STORE)),
        ],
        kinds: HARD,
        calls: NO_CALL,
        left: UNTOUCHED,
        ..FOUND_CASE
    },
    Case {
        name: "the sync of an opening fails, and the first of four pieces can't be read",
        faults: &[
            Fault::Fails(Call::Sync(STORE)),
            Fault::FailsFirst(Call::Read(STORE)),
        ],
        calls: NO_CALL,
        again: Again::Bytes(512, 2048),
        left: UNTOUCHED,
        ..FOUND_CASE
    },
    Case {
        name: "the sync of an opening fails, and the file is cut short meanwhile",
        faults: &[
            Fault::Meanwhile(Call::Sync(STORE), Change::File(STORE, 7, 2047)),
            Fault::Fails(Call::Sync(STORE)),
        ],
        calls: NO_CALL,
        left: &[Sight::Holds(STORE, &[], 7, 2047, &[])],
        ..FOUND_CASE
    },
];

/// A later sync fails. What was written since the last good one is written again, if the sync itself failed.
const LATER: &[Case] = &[
    Case {
        name: "what was synced before isn't written again",
        folder: &[Change::File(STORE, 7, 2048)],
        faults: &[Fault::Fails(Call::Sync(STORE))],
        kinds: ALL,
        before: &[WriteLast, Sync],
        calls: &[(Write, true), (Sync, false), (Read(1), false)],
        again: Again::Bytes(0, 1),
        left: &[Sight::Holds(STORE, &[1], 7, 2046, &[9])],
        ..FOUND_CASE
    },
    Case {
        name: "two writes before one sync are written again, and what lies between them",
        folder: &[Change::File(STORE, 7, 2048)],
        faults: &[Fault::Fails(Call::Sync(STORE))],
        before: &[Read(7), WriteLast],
        calls: &[(Write, true), (Sync, false), (Print, false)],
        again: Again::Bytes(0, 2048),
        left: &[Sight::Holds(STORE, &[1], 7, 2046, &[9])],
        ..FOUND_CASE
    },
    Case {
        name: "the first of two writes is written again, not the later one alone",
        folder: &[Change::File(STORE, 7, 2048)],
        faults: &[Fault::Fails(Call::Sync(STORE))],
        before: &[Read(7), Write],
        calls: &[(WriteLast, true), (Sync, false), (Print, false)],
        again: Again::Bytes(0, 2048),
        left: &[Sight::Holds(STORE, &[1], 7, 2046, &[9])],
        ..FOUND_CASE
    },
    Case {
        name: "a sync fails behind which nothing was written",
        faults: &[Fault::Fails(Call::Sync(STORE))],
        before: &[Write, Sync],
        calls: &[(Sync, false), (Read(1), false)],
        ..FOUND_CASE
    },
    Case {
        name: "a sync fails, and the file is emptied meanwhile",
        faults: &[
            Fault::Meanwhile(Call::Sync(STORE), Change::File(STORE, 7, 0)),
            Fault::Fails(Call::Sync(STORE)),
        ],
        before: &[Read(7)],
        calls: &[(Write, true), (Sync, false)],
        left: &[Sight::Holds(STORE, &[], 7, 0, &[])],
        ..FOUND_CASE
    },
    Case {
        name: "a sync is Ok, and the file is cut short meanwhile",
        faults: &[Fault::Meanwhile(Call::Sync(STORE), Change::File(STORE, 7, 2047))],
        before: &[Read(7)],
        calls: &[(Write, true), (Sync, false), (Print, false)],
        left: &[Sight::Holds(STORE, &[], 7, 2047, &[])],
        ..FOUND_CASE
    },
    Case {
        name: "a sync is Ok, and the name is gone meanwhile",
        faults: &[Fault::Meanwhile(Call::Sync(STORE), Change::Rename(STORE, "kept"))],
        before: &[Read(7)],
        calls: &[(Write, true), (Sync, false), (Print, false)],
        left: &[
            Sight::IsAbsent(STORE),
            Sight::Holds("kept", &[1], 7, 2049, &[]),
        ],
        ..FOUND_CASE
    },
    Case {
        name: "nobody tells how long the file is",
        faults: &[Fault::Fails(Call::Length(STORE))],
        kinds: ALL,
        before: &[Read(7)],
        calls: &[(Write, false), (Sync, false), (Print, false)],
        left: UNTOUCHED,
        ..FOUND_CASE
    },
];

/// The sync of a folder fails.
const FOLDERS: &[Case] = &[
    Case {
        name: "the sync of the folder of a store that is opened to read fails",
        access: Access::Read,
        faults: &[Fault::Fails(Call::Sync("."))],
        kinds: HARD,
        calls: NO_CALL,
        again: Again::Name,
        left: &[
            Sight::Holds(STORE, &[], 7, 2050, &[]),
            Sight::IsAbsent(UNFINISHED),
        ],
        ..FOUND_CASE
    },
    Case {
        name: "the sync of the folder at the end of a link fails",
        folder: LINKED,
        faults: &[Fault::Fails(Call::Sync("kept"))],
        kinds: HARD,
        calls: NO_CALL,
        again: Again::Name,
        left: &[
            Sight::Holds("kept/store", &[], 7, 2048, &[]),
            Sight::IsAbsent("kept/taxi.store.new"),
            Sight::IsAbsent(UNFINISHED),
        ],
        ..FOUND_CASE
    },
    Case {
        name: "the sync of a folder fails, in which another file has the name that is made",
        folder: &[
            Change::File(STORE, 7, 2050),
            Change::File(UNFINISHED, 9, 700),
        ],
        faults: &[Fault::Fails(Call::Sync("."))],
        kinds: HARD,
        calls: NO_CALL,
        left: &[
            Sight::Holds(STORE, &[], 7, 2050, &[]),
            Sight::Holds(UNFINISHED, &[], 9, 700, &[]),
        ],
        ..FOUND_CASE
    },
    Case {
        name: "the sync of a folder fails, and another has the lock of the name that is made",
        faults: &[
            Fault::Fails(Call::Sync(".")),
            Fault::FailsSo(Call::Lock(UNFINISHED), ErrorKind::WouldBlock),
        ],
        kinds: HARD,
        calls: NO_CALL,
        left: &[
            Sight::Holds(STORE, &[], 7, 2050, &[]),
            Sight::Holds(UNFINISHED, &[], 0, 0, &[]),
        ],
        ..FOUND_CASE
    },
    Case {
        name: "the sync of the folder of a new store fails, and its other name goes",
        faults: &[Fault::Fails(Call::Sync("."))],
        kinds: ONE,
        calls: NO_MAKING,
        again: Again::Name,
        left: &[
            Sight::Holds(STORE, &[], 0, 2048, &[]),
            Sight::IsAbsent(UNFINISHED),
        ],
        ..NEW_CASE
    },
];

#[test]
fn openings_behind_a_failed_sync(rt: HostRuntime) -> Result<(), Fail> {
    play_all(rt, OPENINGS)
}

#[test]
fn what_is_written_behind_a_failed_sync(rt: HostRuntime) -> Result<(), Fail> {
    play_all(rt, LATER)
}

#[test]
fn names_behind_a_failed_sync_of_a_folder(rt: HostRuntime) -> Result<(), Fail> {
    play_all(rt, FOLDERS)
}
