//! The names of a store, its mode, and what others do to them meanwhile. The cases are those of the system of which
//! chosen calls fail.
use crate::faulty_system::{Again, Call, Fault};
use crate::faulty_tests::{
    ALL, Case, FOUND_CASE, HARD, NEW_CASE, NO_CALL, NO_MAKING, UNTOUCHED, play_all,
};
use crate::file_tests::{Change, STORE, Sight, UNFINISHED};
use std::fs;
use std::io::ErrorKind;
use std::os::unix::fs::MetadataExt;
use std::test::Fail;

/// Another file comes, or takes a name, while a store is opened or a new one gets its name.
const MEANWHILE: &[Case] = &[
    Case {
        name: "another's file has the store's name as the one that was opened is locked",
        folder: &[Change::File(STORE, 7, 2048), Change::File("kept", 7, 2050)],
        faults: &[Fault::Meanwhile(Call::Lock(STORE), Change::Rename("kept", STORE))],
        calls: NO_CALL,
        left: UNTOUCHED,
        ..FOUND_CASE
    },
    Case {
        name: "another file has the name of what a cut left as that is opened",
        folder: &[Change::File(UNFINISHED, 9, 700), Change::File("kept", 7, 3)],
        faults: &[Fault::Meanwhile(
            Call::OpenToWrite(UNFINISHED),
            Change::Rename("kept", UNFINISHED),
        )],
        calls: NO_MAKING,
        left: &[
            Sight::IsAbsent(STORE),
            Sight::Holds(UNFINISHED, &[], 7, 3, &[]),
        ],
        ..NEW_CASE
    },
    Case {
        name: "nobody tells whether a cut left anything",
        faults: &[Fault::Fails(Call::OwnMetadata(UNFINISHED))],
        kinds: ALL,
        calls: NO_MAKING,
        left: &[Sight::IsAbsent(STORE)],
        ..NEW_CASE
    },
    Case {
        name: "where there are no second names, another's file has the store's name meanwhile",
        faults: &[
            Fault::Meanwhile(Call::Link(STORE), Change::File(STORE, 7, 2048)),
            Fault::FailsSo(Call::Link(STORE), ErrorKind::PermissionDenied),
        ],
        calls: NO_MAKING,
        left: &[Sight::Holds(STORE, &[], 7, 2048, &[])],
        ..NEW_CASE
    },
    Case {
        name: "the store's name is given to another's file, which is then no store of ours",
        folder: &[Change::File("kept", 7, 2048)],
        faults: &[Fault::Meanwhile(Call::Link(STORE), Change::Rename("kept", UNFINISHED))],
        calls: NO_MAKING,
        left: &[Sight::Holds(STORE, &[], 7, 2048, &[])],
        ..NEW_CASE
    },
    Case {
        name: "another's file gets the store's name first",
        faults: &[Fault::Meanwhile(Call::Link(STORE), Change::File(STORE, 7, 2048))],
        calls: NO_MAKING,
        left: &[Sight::Holds(STORE, &[], 7, 2048, &[])],
        ..NEW_CASE
    },
];

/// What a cut left of another user's store.
const ANOTHERS: Case = Case {
    name: "a store in the making is another user's",
    calls: NO_MAKING,
    left: &[
        Sight::IsAbsent(STORE),
        Sight::Holds(UNFINISHED, &[], 9, 700, &[]),
    ],
    ..NEW_CASE
};

/// For anybody but root it is enough that this process seems to belong to whoever has the root folder.
const ANYBODYS: &[Case] = &[Case {
    folder: &[Change::File(UNFINISHED, 9, 700)],
    faults: &[Fault::Leads("/proc/self", "/")],
    ..ANOTHERS
}];

/// The same for root, who can give a file away.
const ROOTS: &[Case] = &[Case {
    folder: &[
        Change::File(UNFINISHED, 9, 700),
        Change::Give(UNFINISHED, 1234),
    ],
    ..ANOTHERS
}];

/// The mode of a new store.
const MODES: &[Case] = &[
    Case {
        name: "a new store that its owner may only read becomes its owner's to write",
        faults: &[Fault::Masked(0o400)],
        left: &[
            Sight::Holds(STORE, &[1], 0, 2047, &[]),
            Sight::IsAllowed(STORE, 0o600),
        ],
        ..NEW_CASE
    },
    Case {
        name: "a new store that others may read becomes its owner's alone",
        faults: &[Fault::Masked(0o644)],
        left: &[Sight::IsAllowed(STORE, 0o600)],
        ..NEW_CASE
    },
    Case {
        name: "a new store of the right mode is left as it is",
        faults: &[Fault::Fails(Call::Allow(UNFINISHED))],
        kinds: HARD,
        left: &[Sight::IsAllowed(STORE, 0o600)],
        ..NEW_CASE
    },
    Case {
        name: "a file system has no modes",
        faults: &[Fault::Masked(0o755), Fault::Fails(Call::Allow(UNFINISHED))],
        kinds: &[ErrorKind::PermissionDenied, ErrorKind::Unsupported],
        left: &[
            Sight::Holds(STORE, &[1], 0, 2047, &[]),
            Sight::IsAllowed(STORE, 0o755),
        ],
        ..NEW_CASE
    },
    Case {
        name: "the mode of a new store can't be set",
        faults: &[Fault::Masked(0o755), Fault::Fails(Call::Allow(UNFINISHED))],
        kinds: HARD,
        calls: NO_MAKING,
        left: &[Sight::IsAbsent(STORE)],
        ..NEW_CASE
    },
];

/// A store whose file has the name of one in the making too.
const TWICE_NAMED: &[Change] = &[
    Change::File(STORE, 7, 2050),
    Change::SecondName(STORE, UNFINISHED),
];

/// The second name of a store.
const SECOND_NAMES: &[Case] = &[
    Case {
        name: "a second name goes",
        folder: TWICE_NAMED,
        left: &[
            Sight::Holds(STORE, &[1], 7, 2049, &[]),
            Sight::IsAbsent(UNFINISHED),
        ],
        ..FOUND_CASE
    },
    Case {
        name: "a second name may not be removed by us",
        folder: TWICE_NAMED,
        faults: &[Fault::Fails(Call::Remove(UNFINISHED))],
        kinds: &[ErrorKind::PermissionDenied, ErrorKind::ReadOnlyFilesystem],
        left: &[Sight::Holds(UNFINISHED, &[1], 7, 2049, &[])],
        ..FOUND_CASE
    },
    Case {
        name: "the removal of a second name fails",
        folder: TWICE_NAMED,
        faults: &[Fault::Fails(Call::Remove(UNFINISHED))],
        kinds: HARD,
        calls: NO_CALL,
        left: &[Sight::Holds(UNFINISHED, &[], 7, 2050, &[])],
        ..FOUND_CASE
    },
    Case {
        name: "the sync of the folder behind the removal of a second name fails",
        folder: TWICE_NAMED,
        faults: &[Fault::FailsLater(Call::Sync("."))],
        kinds: HARD,
        calls: NO_CALL,
        again: Again::Name,
        left: &[
            Sight::Holds(STORE, &[], 7, 2050, &[]),
            Sight::IsAbsent(UNFINISHED),
        ],
        ..FOUND_CASE
    },
    Case {
        name: "the only name of a store stays, whatever it is",
        folder: &[Change::File(STORE, 7, 2050), Change::File(UNFINISHED, 9, 3)],
        faults: &[Fault::Leads(UNFINISHED, STORE)],
        left: &[
            Sight::Holds(STORE, &[1], 7, 2049, &[]),
            Sight::Holds(UNFINISHED, &[], 9, 3, &[]),
        ],
        ..FOUND_CASE
    },
    Case {
        name: "nobody tells whether there is a second name",
        faults: &[Fault::Fails(Call::OwnMetadata(UNFINISHED))],
        kinds: HARD,
        calls: NO_CALL,
        left: UNTOUCHED,
        ..FOUND_CASE
    },
];

#[test]
fn names_that_another_takes_meanwhile(rt: HostRuntime) -> Result<(), Fail> {
    play_all(rt, MEANWHILE)
}

#[test]
fn a_store_in_the_making_of_another_user(rt: HostRuntime) -> Result<(), Fail> {
    let is_root = fs::metadata(&rt, "/proc/self")?.uid() == fs::metadata(&rt, "/")?.uid();
    play_all(rt, if is_root { ROOTS } else { ANYBODYS })
}

#[test]
fn modes_of_new_stores(rt: HostRuntime) -> Result<(), Fail> {
    play_all(rt, MODES)
}

#[test]
fn second_names_of_stores(rt: HostRuntime) -> Result<(), Fail> {
    play_all(rt, SECOND_NAMES)
}
