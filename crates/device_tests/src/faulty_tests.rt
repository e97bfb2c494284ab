//! The real device over a system of which chosen calls fail. Each case is played in a new folder of its own, once
//! for each error that is tried.
ghost use Rattle.std.specs.Prelude.{◌<◌, ◌≡◌};

use crate::board_tests::{Asked, call};
use crate::faulty_system::{Again, Call, Fault, FaultySystem, PRINTED, Trial};
use crate::file_tests::{Change, STORE, Sight, UNFINISHED, enter, is_seen, leave, make};
use crate::tests::must;
use outside::FileBoard;
use std::io::ErrorKind;
use std::marker::Brand;
use std::sync::ledger::{Blank, Ledger};
use std::test::Fail;
use taxi_units::Steps;

/// What is asked of the device.
#[derive(Clone, Copy)]
pub(crate) enum Ask {
    /// A read of the first byte. One that is Ok has to give this byte.
    Read(u8),

    /// A write of a 1 at the front.
    Write,

    /// A write of a 9 at the store's last place.
    WriteLast,

    /// A write of 1, 2, 3, 4 at the front.
    WriteFour,

    Sync,

    Print,
}

use Ask::{Print, Read, Sync, Write};

/// What a device is made for.
#[derive(Clone, Copy)]
pub(crate) enum Access {
    Read,
    Write,
}

/// A case, named for what it shows.
#[derive(Clone, Copy)]
pub(crate) struct Case {
    pub name: &'static str,
    pub folder: &'static [Change],
    pub access: Access,
    pub faults: &'static [Fault],

    /// The errors that are tried.
    pub kinds: &'static [ErrorKind],

    /// What is asked before the faults begin. Each is Ok.
    pub before: &'static [Ask],

    /// What is asked after that, and whether it is Ok.
    pub calls: &'static [(Ask, bool)],

    /// What is done again.
    pub again: Again,

    pub left: &'static [Sight],
}

/// The errors that most calls are tried with.
pub(crate) const ALL: &[ErrorKind] = &[
    ErrorKind::Other,
    ErrorKind::StorageFull,
    ErrorKind::Interrupted,
    ErrorKind::ReadOnlyFilesystem,
    ErrorKind::PermissionDenied,
    ErrorKind::InvalidInput,
    ErrorKind::Unsupported,
    ErrorKind::WouldBlock,
];

/// Errors that never mean that we can't do a thing.
pub(crate) const HARD: &[ErrorKind] = &[
    ErrorKind::Other,
    ErrorKind::StorageFull,
    ErrorKind::Interrupted,
    ErrorKind::WouldBlock,
];

/// One error of any kind.
pub(crate) const ONE: &[ErrorKind] = &[ErrorKind::Other];

/// A folder with a store of sevens, and a longer file.
pub(crate) const FOUND: &[Change] = &[Change::File(STORE, 7, 2050)];

/// That store, untouched.
pub(crate) const UNTOUCHED: &[Sight] = &[Sight::Holds(STORE, &[], 7, 2050, &[])];

/// That store with one byte written.
pub(crate) const WRITTEN: &[Sight] = &[Sight::Holds(STORE, &[1], 7, 2049, &[])];

/// A new store with one byte written, under its name alone.
pub(crate) const MADE: &[Sight] = &[
    Sight::Holds(STORE, &[1], 0, 2047, &[]),
    Sight::IsAbsent(UNFINISHED),
];

/// No store.
pub(crate) const NOTHING: &[Sight] = &[Sight::IsAbsent(STORE)];

/// Neither a store nor one in the making.
const NOTHING_AT_ALL: &[Sight] = &[Sight::IsAbsent(STORE), Sight::IsAbsent(UNFINISHED)];

/// Each call of a store of sevens fails.
pub(crate) const NO_CALL: &[(Ask, bool)] = &[
    (Read(7), false),
    (Sync, false),
    (Write, false),
    (Print, false),
];

/// The same, with a print as the first call.
pub(crate) const NO_PRINT: &[(Ask, bool)] = &[
    (Print, false),
    (Read(7), false),
    (Write, false),
    (Sync, false),
    (Print, false),
];

/// A making fails, and then each call.
pub(crate) const NO_MAKING: &[(Ask, bool)] = &[
    (Read(0), true),
    (Write, false),
    (Write, false),
    (Sync, false),
    (Read(0), false),
    (Print, false),
];

/// The store is read, written and synced.
pub(crate) const EACH_CALL: &[(Ask, bool)] = &[
    (Print, true),
    (Read(7), true),
    (Write, true),
    (Sync, true),
    (Read(1), true),
];

/// A new store is made and synced.
pub(crate) const A_MAKING: &[(Ask, bool)] = &[
    (Read(0), true),
    (Write, true),
    (Sync, true),
    (Read(1), true),
];

/// What holds for most cases, which change it.
pub(crate) const FOUND_CASE: Case = Case {
    name: "a found store",
    folder: FOUND,
    access: Access::Write,
    faults: &[],
    kinds: ONE,
    before: &[],
    calls: EACH_CALL,
    again: Again::Nothing,
    left: WRITTEN,
};

/// The same for a new store.
pub(crate) const NEW_CASE: Case = Case {
    name: "a new store",
    folder: &[],
    access: Access::Write,
    faults: &[],
    kinds: ONE,
    before: &[],
    calls: A_MAKING,
    again: Again::Nothing,
    left: MADE,
};

/// A store that was found, and is opened.
const OPENINGS: &[Case] = &[
    FOUND_CASE,
    Case {
        name: "the sync of an opening fails",
        faults: &[Fault::Fails(Call::Sync(STORE))],
        kinds: ALL,
        calls: NO_CALL,
        left: UNTOUCHED,
        again: Again::Bytes(0, 2048),
        ..FOUND_CASE
    },
    Case {
        name: "what is no plain file isn't opened",
        folder: &[Change::Folder(STORE)],
        faults: &[Fault::Meanwhile(Call::OpenToWrite(STORE), Change::File("kept", 7, 3))],
        calls: NO_CALL,
        left: &[Sight::IsAbsent("kept")],
        ..FOUND_CASE
    },
    Case {
        name: "a store can't be locked",
        faults: &[Fault::Fails(Call::Lock(STORE))],
        kinds: ALL,
        calls: NO_CALL,
        left: UNTOUCHED,
        ..FOUND_CASE
    },
];

/// The folder of a store that was found.
const FOLDERS: &[Case] = &[
    Case {
        name: "the folder of a found store can't be synced by us",
        faults: &[Fault::Fails(Call::Sync("."))],
        kinds: &[ErrorKind::InvalidInput, ErrorKind::Unsupported],
        ..FOUND_CASE
    },
    Case {
        name: "the sync of the folder of a found store fails",
        faults: &[Fault::Fails(Call::Sync("."))],
        kinds: &[
            ErrorKind::Other,
            ErrorKind::StorageFull,
            ErrorKind::Interrupted,
            ErrorKind::ReadOnlyFilesystem,
            ErrorKind::PermissionDenied,
        ],
        calls: NO_CALL,
        left: UNTOUCHED,
        again: Again::Name,
        ..FOUND_CASE
    },
    Case {
        name: "the folder of a found store can't be opened by us",
        faults: &[Fault::Fails(Call::Open("."))],
        kinds: &[ErrorKind::PermissionDenied],
        ..FOUND_CASE
    },
    Case {
        name: "the folder of a found store can't be opened",
        faults: &[Fault::Fails(Call::Open("."))],
        kinds: &[
            ErrorKind::Other,
            ErrorKind::NotFound,
            ErrorKind::ReadOnlyFilesystem,
            ErrorKind::InvalidInput,
            ErrorKind::Unsupported,
        ],
        calls: NO_CALL,
        left: UNTOUCHED,
        ..FOUND_CASE
    },
    Case {
        name: "the folder of a store that may only be read can't be synced",
        access: Access::Read,
        faults: &[
            Fault::FailsSo(Call::OpenToWrite(STORE), ErrorKind::PermissionDenied),
            Fault::Fails(Call::Sync(".")),
        ],
        kinds: &[
            ErrorKind::ReadOnlyFilesystem,
            ErrorKind::InvalidInput,
            ErrorKind::Unsupported,
        ],
        calls: &[
            (Print, true),
            (Sync, true),
            (Read(7), true),
            (Write, false),
            (Read(7), true),
        ],
        left: UNTOUCHED,
        ..FOUND_CASE
    },
    Case {
        name: "the sync of the folder of a store that may only be read fails",
        access: Access::Read,
        faults: &[
            Fault::FailsSo(Call::OpenToWrite(STORE), ErrorKind::PermissionDenied),
            Fault::Fails(Call::Sync(".")),
        ],
        kinds: &[
            ErrorKind::Other,
            ErrorKind::StorageFull,
            ErrorKind::Interrupted,
            ErrorKind::WouldBlock,
            ErrorKind::PermissionDenied,
        ],
        calls: NO_CALL,
        left: UNTOUCHED,
        ..FOUND_CASE
    },
    Case {
        name: "nobody tells whether a found store is at the end of a link",
        faults: &[Fault::Fails(Call::OwnMetadata(STORE))],
        kinds: ALL,
        calls: NO_CALL,
        left: UNTOUCHED,
        ..FOUND_CASE
    },
    Case {
        name: "the path at the end of a link can't be found",
        folder: LINKED,
        faults: &[Fault::Fails(Call::RealPath(STORE))],
        kinds: HARD,
        calls: NO_CALL,
        left: &[Sight::Holds("kept/store", &[], 7, 2048, &[])],
        ..FOUND_CASE
    },
    Case {
        name: "the path at the end of a link may not be followed by us, or is no text, so a second name stays",
        folder: TWICE_LINKED,
        faults: &[Fault::Fails(Call::RealPath(STORE))],
        kinds: &[ErrorKind::PermissionDenied, ErrorKind::InvalidFilename],
        left: &[Sight::Holds(UNFINISHED, &[1], 7, 2047, &[])],
        ..FOUND_CASE
    },
];

/// A store at the end of a link.
pub(crate) const LINKED: &[Change] = &[
    Change::Folder("kept"),
    Change::File("kept/store", 7, 2048),
    Change::Link("kept/store", STORE),
];

/// The same, with a second name here.
const TWICE_LINKED: &[Change] = &[
    Change::Folder("kept"),
    Change::File("kept/store", 7, 2048),
    Change::Link("kept/store", STORE),
    Change::SecondName("kept/store", UNFINISHED),
];

/// What may be done with the file, and what it is opened for.
const ACCESSES: &[Case] = &[
    Case {
        name: "a store may only be read, and is opened to be written",
        faults: &[Fault::Fails(Call::OpenToWrite(STORE))],
        kinds: ALL,
        calls: &[
            (Print, true),
            (Sync, false),
            (Read(7), false),
            (Print, false),
        ],
        left: UNTOUCHED,
        ..FOUND_CASE
    },
    Case {
        name: "a store may only be read, or has no room to be written, and is opened to be read",
        access: Access::Read,
        faults: &[Fault::Fails(Call::OpenToWrite(STORE))],
        kinds: &[
            ErrorKind::PermissionDenied,
            ErrorKind::ReadOnlyFilesystem,
            ErrorKind::StorageFull,
            ErrorKind::QuotaExceeded,
        ],
        calls: &[(Read(7), true), (Sync, true), (Write, false), (Print, true)],
        left: UNTOUCHED,
        ..FOUND_CASE
    },
    Case {
        name: "a store can't be opened",
        access: Access::Read,
        faults: &[Fault::Fails(Call::OpenToWrite(STORE))],
        kinds: &[
            ErrorKind::Other,
            ErrorKind::Interrupted,
            ErrorKind::WouldBlock,
        ],
        calls: NO_CALL,
        left: UNTOUCHED,
        ..FOUND_CASE
    },
    Case {
        name: "a store that may be written is opened to be read",
        access: Access::Read,
        calls: &[
            (Write, false),
            (Read(7), true),
            (Write, false),
            (Sync, true),
        ],
        left: UNTOUCHED,
        ..FOUND_CASE
    },
    Case {
        name: "no store is made where it is only to be read",
        access: Access::Read,
        calls: &[(Read(0), true), (Write, false), (Sync, true), (Print, true)],
        left: NOTHING,
        ..NEW_CASE
    },
];

/// A store that is open.
const LATER: &[Case] = &[
    Case {
        name: "a later sync fails",
        faults: &[Fault::Fails(Call::Sync(STORE))],
        kinds: ALL,
        before: &[Read(7), Write],
        calls: &[
            (Write, true),
            (Sync, false),
            (Sync, false),
            (Read(1), false),
            (Write, false),
            (Print, false),
        ],
        again: Again::Bytes(0, 1),
        ..FOUND_CASE
    },
    Case {
        name: "a later sync of a new store fails",
        faults: &[Fault::Fails(Call::Sync(UNFINISHED))],
        kinds: ALL,
        before: &[Write, Sync],
        calls: &[
            (Write, true),
            (Sync, false),
            (Sync, false),
            (Read(1), false),
        ],
        again: Again::Bytes(0, 1),
        ..NEW_CASE
    },
    Case {
        name: "a read fails",
        faults: &[Fault::Fails(Call::Read(STORE))],
        kinds: ALL,
        before: &[Sync],
        calls: &[(Read(7), false), (Write, true), (Sync, true)],
        ..FOUND_CASE
    },
    Case {
        name: "a write fails",
        faults: &[Fault::Fails(Call::Write(STORE))],
        kinds: ALL,
        before: &[Read(7)],
        calls: &[(Write, false), (Sync, true), (Read(7), true)],
        left: UNTOUCHED,
        ..FOUND_CASE
    },
];

/// A new store, by what becomes of its names.
const NAMINGS: &[Case] = &[
    NEW_CASE,
    Case {
        name: "the file system has no second names",
        faults: &[Fault::Fails(Call::Link(STORE))],
        kinds: &[
            ErrorKind::PermissionDenied,
            ErrorKind::Unsupported,
            ErrorKind::TooManyLinks,
        ],
        ..NEW_CASE
    },
    Case {
        name: "a new store gets no name",
        faults: &[Fault::Fails(Call::Link(STORE))],
        kinds: &[
            ErrorKind::Other,
            ErrorKind::StorageFull,
            ErrorKind::AlreadyExists,
            ErrorKind::ReadOnlyFilesystem,
        ],
        calls: NO_MAKING,
        left: NOTHING_AT_ALL,
        ..NEW_CASE
    },
    Case {
        name: "the other name of a new store doesn't go",
        faults: &[Fault::Fails(Call::Remove(UNFINISHED))],
        kinds: ALL,
        calls: NO_MAKING,
        left: &[Sight::Holds(STORE, &[], 0, 2048, &[])],
        ..NEW_CASE
    },
    Case {
        name: "what was left of a making doesn't go",
        folder: &[Change::File(UNFINISHED, 9, 700)],
        faults: &[Fault::Fails(Call::Remove(UNFINISHED))],
        kinds: ALL,
        calls: NO_MAKING,
        left: &[
            Sight::IsAbsent(STORE),
            Sight::Holds(UNFINISHED, &[], 9, 700, &[]),
        ],
        ..NEW_CASE
    },
    Case {
        name: "without second names the sync of a new store fails",
        faults: &[
            Fault::FailsSo(Call::Link(STORE), ErrorKind::PermissionDenied),
            Fault::Fails(Call::Sync(STORE)),
        ],
        kinds: ALL,
        calls: NO_MAKING,
        left: NOTHING_AT_ALL,
        again: Again::Bytes(0, 2048),
        ..NEW_CASE
    },
    Case {
        name: "without second names the medium is full",
        faults: &[
            Fault::FailsSo(Call::Link(STORE), ErrorKind::PermissionDenied),
            Fault::Fails(Call::Write(STORE)),
        ],
        kinds: ALL,
        calls: NO_MAKING,
        left: NOTHING_AT_ALL,
        ..NEW_CASE
    },
    Case {
        name: "without second names the sync of the folder of a new store fails",
        faults: &[
            Fault::FailsSo(Call::Link(STORE), ErrorKind::PermissionDenied),
            Fault::Fails(Call::Sync(".")),
        ],
        kinds: HARD,
        calls: NO_MAKING,
        left: &[
            Sight::Holds(STORE, &[], 0, 2048, &[]),
            Sight::IsAbsent(UNFINISHED),
        ],
        again: Again::Name,
        ..NEW_CASE
    },
];

/// A new store, by what becomes of its bytes and its folder.
const MAKINGS: &[Case] = &[
    Case {
        name: "the zeros of a new store can't be synced",
        faults: &[Fault::Fails(Call::Sync(UNFINISHED))],
        kinds: ALL,
        calls: NO_MAKING,
        left: NOTHING_AT_ALL,
        again: Again::Bytes(0, 2048),
        ..NEW_CASE
    },
    Case {
        name: "the zeros of a new store can't be written",
        faults: &[Fault::Fails(Call::Write(UNFINISHED))],
        kinds: ALL,
        calls: NO_MAKING,
        left: NOTHING_AT_ALL,
        ..NEW_CASE
    },
    Case {
        name: "a new store can't be locked",
        faults: &[Fault::Fails(Call::Lock(UNFINISHED))],
        kinds: ALL,
        calls: NO_MAKING,
        left: NOTHING,
        ..NEW_CASE
    },
    Case {
        name: "the folder of a new store can't be opened by us",
        faults: &[Fault::Fails(Call::Open("."))],
        kinds: &[ErrorKind::PermissionDenied],
        ..NEW_CASE
    },
    Case {
        name: "the folder of a new store can't be synced by us, and its other name goes",
        faults: &[Fault::Fails(Call::Sync("."))],
        kinds: &[ErrorKind::InvalidInput, ErrorKind::Unsupported],
        again: Again::Name,
        ..NEW_CASE
    },
    Case {
        name: "the folder of a new store can't be opened",
        faults: &[Fault::Fails(Call::Open("."))],
        kinds: HARD,
        calls: NO_MAKING,
        left: &[Sight::Holds(STORE, &[], 0, 2048, &[])],
        ..NEW_CASE
    },
    Case {
        name: "the sync of the folder of a new store fails",
        faults: &[Fault::Fails(Call::Sync("."))],
        kinds: &[
            ErrorKind::Other,
            ErrorKind::StorageFull,
            ErrorKind::Interrupted,
            ErrorKind::WouldBlock,
            ErrorKind::ReadOnlyFilesystem,
            ErrorKind::PermissionDenied,
        ],
        calls: NO_MAKING,
        left: &[Sight::Holds(STORE, &[], 0, 2048, &[])],
        again: Again::Name,
        ..NEW_CASE
    },
];

/// What is asked of a board.
fn asked_by(ask: &Ask) -> Asked<'static> {
    match ask {
        Ask::Read(_) => Asked::Read(0),
        Ask::Write => Asked::Write(0, &[1]),
        Ask::WriteLast => Asked::Write(2047, &[9]),
        Ask::WriteFour => Asked::Write(0, &[1, 2, 3, 4]),
        Ask::Sync => Asked::Sync,
        Ask::Print => Asked::Print(PRINTED),
    }
}

/// Whether a call fails, or is Ok, as it should; then a read gives what it should, and a print prints its nine bytes once.
fn comes<L: Ledger>(
    device: &mut FileBoard<FaultySystem>,
    trial: &Trial,
    ask: &Ask,
    is_ok: bool,
    steps: &mut Steps<L>,
) -> bool {
    let before = trial.printed();
    match (call(device, &asked_by(ask), steps), ask) {
        (Err(_), _) => !is_ok,
        (Ok(bytes), Ask::Read(want)) => is_ok && bytes[0] == *want,
        (Ok(_), Ask::Print) => is_ok && trial.printed().checked_sub(before) == Some(9),
        (Ok(_), _) => is_ok,
    }
}

/// The device of a case.
fn device_of(case: &Case, system: FaultySystem) -> FileBoard<FaultySystem> {
    let alloc = system.rt.alloc();
    match case.access {
        Access::Read => FileBoard::to_read(system, alloc),
        Access::Write => FileBoard::to_write(system, alloc),
    }
}

/// Makes a case's calls, each of which must come out as it says.
fn must_come<L: Ledger>(
    rt: HostRuntime,
    blank: Blank,
    case: &Case,
    kind: ErrorKind,
) -> Result<(), Fail>
    requires name { blank.name ≡ L.name }
    requires parts { blank.parts ≡ L.parts }
    requires one { 0 < blank.parts }
{
    let mut steps: Steps<L> = Steps::open(blank);
    let trial = Trial::new(rt.alloc(), case.faults, kind)?;
    let mut device = device_of(case, FaultySystem { rt, trial });
    for ask in case.before {
        must(
            comes(&mut device, trial, ask, true, &mut steps),
            case.name,
            0,
        )?;
    }
    trial.begin();
    for number in 0..case.calls.len() {
        let (ask, want) = &case.calls[number];
        let came = comes(&mut device, trial, ask, *want, &mut steps);
        must(came, case.name, number as u64 + 1)?;
    }
    must(trial.again() == case.again, case.name, 99)
}

/// Makes a case's calls, under a ledger of its own.
fn must_come_counted(rt: HostRuntime, case: &Case, kind: ErrorKind) -> Result<(), Fail> {
    must_come::<Brand>(rt, Blank::new(1), case, kind)
}

/// Plays a case in the working folder.
fn play(rt: HostRuntime, case: &Case, kind: ErrorKind) -> Result<(), Fail> {
    for change in case.folder {
        make(rt, change)?;
    }
    must_come_counted(rt, case, kind)?;
    for sight in case.left {
        must(is_seen(rt, sight)?, case.name, 100)?;
    }
    Ok(())
}

/// Plays a case in a new folder.
fn play_apart(rt: HostRuntime, case: &Case, kind: ErrorKind) -> Result<(), Fail> {
    let folder = enter(rt)?;
    play(rt, case, kind)?;
    leave(rt, folder.as_str())?;
    Ok(())
}

/// Plays each case, with each error that it tries.
pub(crate) fn play_all(rt: HostRuntime, cases: &[Case]) -> Result<(), Fail> {
    for case in cases {
        for kind in case.kinds {
            play_apart(rt, case, *kind)?;
        }
    }
    Ok(())
}

#[test]
fn openings_that_fail(rt: HostRuntime) -> Result<(), Fail> {
    play_all(rt, OPENINGS)
}

#[test]
fn folders_that_are_not_synced(rt: HostRuntime) -> Result<(), Fail> {
    play_all(rt, FOLDERS)
}

#[test]
fn stores_to_read_and_to_write(rt: HostRuntime) -> Result<(), Fail> {
    play_all(rt, ACCESSES)
}

#[test]
fn calls_of_an_open_store_that_fail(rt: HostRuntime) -> Result<(), Fail> {
    play_all(rt, LATER)
}

#[test]
fn namings_that_fail(rt: HostRuntime) -> Result<(), Fail> {
    play_all(rt, NAMINGS)
}

#[test]
fn makings_that_fail(rt: HostRuntime) -> Result<(), Fail> {
    play_all(rt, MAKINGS)
}
