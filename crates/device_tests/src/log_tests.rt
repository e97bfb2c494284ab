//! The real device at the size and under the names of the hiring log.
ghost use Rattle.std.specs.Prelude.{◌<◌, ◌≡◌};

use crate::file_tests::{Change, STORE, Sight, enter, is_seen, leave, make};
use crate::tests::must;
use outside::{Board, FileLog};
use std::marker::Brand;
use std::sync::ledger::{Blank, Ledger};
use std::test::Fail;
use taxi_units::Steps;

/// The log's name.
const LOG: &str = "taxi.log";

/// The name of a log in the making.
const UNFINISHED_LOG: &str = "taxi.log.new";

/// What is seen of a log of which the last byte was written: its own size, under its own names.
const MADE: &[Sight] = &[
    Sight::Holds(LOG, &[], 0, 131071, &[9]),
    Sight::IsAbsent(UNFINISHED_LOG),
    Sight::IsAbsent(STORE),
    Sight::Holds("taxi.store.new", &[], 5, 700, &[]),
];

/// Writes the last byte of a log in the working folder, and tells whether that was Ok.
fn writes_last<L: Ledger>(rt: HostRuntime, blank: Blank) -> bool
    requires name { blank.name ≡ L.name }
    requires parts { blank.parts ≡ L.parts }
    requires one { 0 < blank.parts }
{
    let mut steps: Steps<L> = Steps::open(blank);
    let mut log = FileLog::to_write(rt, rt.alloc());
    log.write_at(131071, &[9], &mut steps).is_ok() && log.sync(&mut steps).is_ok()
}

/// Writes the last byte of a log, under a ledger of its own.
fn writes_last_counted(rt: HostRuntime) -> bool {
    writes_last::<Brand>(rt, Blank::new(1))
}

/// Makes a log beside what cuts left of a log and of a store, and then tries one that has a store's size.
fn make_logs(rt: HostRuntime) -> Result<(), Fail> {
    make(rt, &Change::File(UNFINISHED_LOG, 5, 700))?;
    make(rt, &Change::File("taxi.store.new", 5, 700))?;
    must(writes_last_counted(rt), "a new log", 0)?;
    for sight in MADE {
        must(is_seen(rt, sight)?, "a new log", 1)?;
    }
    make(rt, &Change::File(LOG, 7, 2048))?;
    must(!writes_last_counted(rt), "a log of a store's size", 0)?;
    let short = Sight::Holds(LOG, &[], 7, 2048, &[]);
    must(is_seen(rt, &short)?, "a log of a store's size", 1)
}

#[test]
fn the_log_has_names_and_a_size_of_its_own(rt: HostRuntime) -> Result<(), Fail> {
    let folder = enter(rt)?;
    make_logs(rt)?;
    leave(rt, folder.as_str())?;
    Ok(())
}
