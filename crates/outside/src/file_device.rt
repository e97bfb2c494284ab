//! The board of the system: a file and the standard output.
ghost use Rattle.std.specs.Prelude.{[], ◌+◌, ◌≡◌, IsTrue, OnErr, false};
ghost use Rattle.outside.specs.{Faults.{HasCause}, FileState.{DeviceState, StaysLost, is_lost}};

use crate::board::{Board, LOG_SIZE, STORE_SIZE};
use crate::failures::counted;
use crate::fault::Failed;
use crate::file_store::FileStore;
use crate::heard::{Act, Heard};
use crate::held_file::HeldFile;
use crate::printer::Printer;
use crate::printing::print_whole;
use crate::store_file::Access;
use crate::store_names::{LOG, METER};
use std::alloc::Global;
use std::io;
use std::marker::Model;
use std::rt::{Clock, Files as HostSystem};
use std::sync::ledger::Ledger;
use taxi_units::Steps;

/// A store in a file of the working folder, of which the first `N` bytes are used, and the standard output. It tells
/// neither what the file holds nor what was printed: that both behave as a board's should is trusted. The count of
/// faults is the number of calls that failed, up to the last value of a `u64`. A call fails if the system answered an
/// error, but for those that docs/STORE.md names as passed over, or if the device itself finds something wrong. A
/// call that a signal interrupts is made again, a bounded number of times, and an output that takes nothing is waited
/// for, at most ten minutes. All of it is this project's own.
///
/// - The first call, even a print, looks at the standard output and the standard error, and for the file. If one of
///   them is the meter's store, the hiring log or one in the making, or a file of such a name in another folder, each
///   call fails, and so if the system doesn't tell what they are.
/// - A file that was found is opened at the first call of the store, and is locked from then on, even if it is only
///   read. If another has the lock, the call fails. A file that isn't plain, or that is shorter than the store, is
///   refused: nothing is ever written to it.
/// - An opening syncs the file and its folder: at the end of a symbolic link, the file's own. A device to write
///   removes the name of a store in the making if it is a second one of the store's file, in the working folder or
///   the file's own.
/// - If there was no file, the store reads as zeros, and the first write makes it: whole, on the medium, for its owner
///   alone, and only then under its name. If another has made it since, each call of the store fails.
/// - A device to read fails at each write. It opens even a file that may not be written; a device to write refuses that
///   at its opening. What stands behind the store's bytes is left as it is.
/// - A sync fails if the name no longer leads to this file. A sync and a write fail if the file is shorter than the
///   store.
/// - If the system could not sync, the same bytes are written again without a sync, so that the next process learns the
///   truth by its own. At an opening these are all bytes of a store that may be written.
/// - After an opening, a making or a sync that failed, or if the file was found to be cut short, the device is lost:
///   each later call fails.
#[derive(Drop)]
pub struct FileDevice<R: HostSystem + Print + Clock + Drop, const N: usize>
where
    R::File: HeldFile,
{
    rt: R,
    alloc: Global,
    store: FileStore<R::File>,
    failures: u64,
    heard: Heard,
}

/// The meter's board of the system, whose store is the file `taxi.store`.
pub type FileBoard<R> = FileDevice<R, STORE_SIZE>;

/// The hiring log's board of the system, whose store is the file `taxi.log`.
pub type FileLog<R> = FileDevice<R, LOG_SIZE>;

impl<R: HostSystem + Print + Clock + Drop, const N: usize> Model for FileDevice<R, N>
where
    R::File: HeldFile,
{
    ghost Value = { DeviceState };

    ghost view = { λ d. record { failed = d.failures; lost = is_lost d.store.state } };
}

impl<R: HostSystem + Print + Clock + Drop> FileDevice<R, STORE_SIZE>
where
    R::File: HeldFile,
{
    /// The board to read the meter's store: each write fails. It asks nothing of the system yet. Only the first call
    /// and an opening use the allocator, for the paths of the outputs and of a file at the end of a symbolic link.
    pub fn to_read(rt: R, alloc: Global) -> FileDevice<R, STORE_SIZE>
        ensures { result ≡ record { failed = 0; lost = false } }
    {
        FileDevice {
            rt,
            alloc,
            store: FileStore::new(METER, STORE_SIZE as u64, Access::Read),
            failures: 0,
            heard: Heard::nothing(),
        }
    }

    /// The board to read and write the meter's store. Its opening fails if the store may not be written.
    pub fn to_write(rt: R, alloc: Global) -> FileDevice<R, STORE_SIZE>
        ensures { result ≡ record { failed = 0; lost = false } }
    {
        FileDevice {
            rt,
            alloc,
            store: FileStore::new(METER, STORE_SIZE as u64, Access::Write),
            failures: 0,
            heard: Heard::nothing(),
        }
    }
}

impl<R: HostSystem + Print + Clock + Drop> FileDevice<R, LOG_SIZE>
where
    R::File: HeldFile,
{
    /// The board to read the hiring log, as the meter's to read its store.
    pub fn to_read(rt: R, alloc: Global) -> FileDevice<R, LOG_SIZE>
        ensures { result ≡ record { failed = 0; lost = false } }
    {
        FileDevice {
            rt,
            alloc,
            store: FileStore::new(LOG, LOG_SIZE as u64, Access::Read),
            failures: 0,
            heard: Heard::nothing(),
        }
    }

    /// The board to read and write the hiring log. Its opening fails if the log may not be written.
    pub fn to_write(rt: R, alloc: Global) -> FileDevice<R, LOG_SIZE>
        ensures { result ≡ record { failed = 0; lost = false } }
    {
        FileDevice {
            rt,
            alloc,
            store: FileStore::new(LOG, LOG_SIZE as u64, Access::Write),
            failures: 0,
            heard: Heard::nothing(),
        }
    }
}

impl<R: HostSystem + Print + Clock + Drop, const N: usize> FileDevice<R, N>
where
    R::File: HeldFile,
{
    /// What it has kept of its calls.
    pub fn heard(&self) -> &Heard {
        &self.heard
    }

    /// Prints if no output is the store.
    fn attempt_print(&mut self, bytes: &[u8]) -> io::Result<()>
        ensures stays { StaysLost self.old.lost self.new.lost result }
        ensures same { self.new.failed ≡ self.old.failed }
    {
        self.store.look(&self.rt, self.alloc)?;
        print_whole(&self.rt, bytes)
    }
}

impl<R: HostSystem + Print + Clock + Drop, const N: usize, L: Ledger> Printer<N, L>
    for FileDevice<R, N>
where
    R::File: HeldFile,
{
    ghost tells_image = { ⊥ };

    ghost tells_text = { ⊥ };

    ghost image = { λ _. [] };

    ghost in_flight = { λ _ _. ⊥ };

    ghost printed = { λ _. [] };

    ghost moment = { λ _. 0 };

    ghost left_since = { λ _ _ _ _. ⊥ };

    ghost faults = { λ b. b.failed };

    ghost store = { λ _ told. absurd told };

    ghost counts_now = { λ _ _ _ _ told _ _ _. absurd told };

    ghost only_now = { λ _ _ _ left. absurd left };

    fn print(&mut self, bytes: &[u8], steps: &mut Steps<L>) -> Result<(), Failed>
        ensures cause { HasCause self.old.failed self.new.failed result }
        ensures stays { StaysLost self.old.lost self.new.lost result }
        ensures step { steps.new ≡ steps.old + 1 }
    {
        steps.spend();
        let answer = self.attempt_print(bytes);
        self.heard.print(bytes);
        self.heard.fail(Act::Print, &answer);
        counted(&mut self.failures, answer)
    }
}

impl<R: HostSystem + Print + Clock + Drop, const N: usize, L: Ledger> Board<N, L>
    for FileDevice<R, N>
where
    R::File: HeldFile,
{
    fn read(&mut self, at: u32, buf: &mut [u8], steps: &mut Steps<L>) -> Result<(), Failed>
        ensures cause { HasCause self.old.failed self.new.failed result }
        ensures stays { StaysLost self.old.lost self.new.lost result }
        ensures step { steps.new ≡ steps.old + 1 }
    {
        steps.spend();
        let answer = self.store.read(&self.rt, self.alloc, at, buf);
        self.heard.read(at, buf);
        self.heard.fail(Act::Read, &answer);
        counted(&mut self.failures, answer)
    }

    fn write_at(&mut self, at: u32, bytes: &[u8], steps: &mut Steps<L>) -> Result<(), Failed>
        ensures cause { HasCause self.old.failed self.new.failed result }
        ensures stays { StaysLost self.old.lost self.new.lost result }
        ensures step { steps.new ≡ steps.old + 1 }
    {
        steps.spend();
        let answer = self.store.write_at(&self.rt, self.alloc, at, bytes);
        self.heard.write(at, bytes);
        self.heard.fail(Act::Write, &answer);
        counted(&mut self.failures, answer)
    }

    fn sync(&mut self, steps: &mut Steps<L>) -> Result<(), Failed>
        ensures cause { HasCause self.old.failed self.new.failed result }
        ensures stays { StaysLost self.old.lost self.new.lost result }
        ensures lost { OnErr result (IsTrue self.new.lost) }
        ensures step { steps.new ≡ steps.old + 1 }
    {
        steps.spend();
        let answer = self.store.sync(&self.rt, self.alloc);
        self.heard.fail(Act::Sync, &answer);
        counted(&mut self.failures, answer)
    }
}
