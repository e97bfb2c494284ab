//! For tests: a system of which chosen calls fail, and which checks the order of its calls.
ghost use Rattle.std.specs.Prelude.{◌≤◌, IfOk, length};

use crate::file_tests::{Change, make};
use outside::HeldFile;
use std::alloc::{Allocator, Global};
use std::cell::Cell;
use std::fmt::Display;
use std::fs::{File, Metadata, OpenFile, OpenOptions, Permissions};
use std::io;
use std::io::{ErrorKind, Read, Seek, SeekFrom, Write};
use std::os::unix::fs::PermissionsExt;
use std::path::PathBuf;
use std::rt::{Clock, Files as HostSystem};
use std::test::Fail;
use std::time::Duration;

/// A call of the system, with the name that it is asked of.
#[derive(Clone, Copy, PartialEq, Eq)]
pub(crate) enum Call {
    Open(&'static str),
    OpenToWrite(&'static str),
    Metadata(&'static str),
    OwnMetadata(&'static str),

    /// The path at the end of all links.
    RealPath(&'static str),

    /// The path to which a link leads.
    OwnPath(&'static str),

    Link(&'static str),
    Remove(&'static str),
    Allow(&'static str),
    Lock(&'static str),
    Length(&'static str),
    Sync(&'static str),
    Read(&'static str),
    Write(&'static str),
    Print,
}

/// What goes wrong in a system.
#[derive(Clone, Copy)]
pub(crate) enum Fault {
    /// This call fails with the error that is tried.
    Fails(Call),

    /// This call fails with this error.
    FailsSo(Call, ErrorKind),

    /// This call fails with the error that is tried, the first time that it is made.
    FailsFirst(Call),

    /// This call fails with the error that is tried, but for the first time that it is made.
    FailsLater(Call),

    /// Whoever asks for the first name, or for its path, is told of the second.
    Leads(&'static str, &'static str),

    /// As this call is made for the first time, another makes this change in the folder.
    Meanwhile(Call, Change),

    /// A new file gets this mode.
    Masked(u32),

    /// A read or a write of a file moves one byte. Before each, this number of signals interrupts it, and after this
    /// number of bytes the medium is full.
    Stubborn(u8, u8),

    /// A print moves one byte. Before the first, the output takes nothing this number of times, and that number of
    /// times before each later one.
    Full(u16, u16),
}

/// What was done again.
#[derive(Clone, Copy, PartialEq, Eq)]
pub(crate) enum Again {
    Nothing,

    /// After a sync that failed, bytes of the file were written, from the first place up to the end.
    Bytes(u64, u64),

    /// A name was taken away in the folder whose sync failed.
    Name,

    /// The file was synced once more.
    Synced,

    /// Of stubborn files this number of reads and writes was asked for.
    Moves(u32),

    /// This number of times it was waited for a tenth of a second.
    Pauses(u32),
}

/// Which sync failed last.
#[derive(Clone, Copy, PartialEq, Eq)]
enum FailedSync {
    Neither,
    OfFile,
    OfFolder,

    /// Of the folder at the end of a link.
    OfLinkedFolder,
}

/// The most bytes that may be written at once.
const PIECE: usize = 512;

/// What each print prints.
pub(crate) const PRINTED: &[u8; 9] = b"FOR HIRE\n";

/// The faults, the error that is tried, and what is known of the order of the calls.
#[derive(Drop)]
pub(crate) struct Trial {
    faults: &'static [Fault],
    kind: ErrorKind,

    /// The faults have begun.
    has_begun: Cell<bool>,

    /// Bytes were written since a file's sync was last asked for.
    has_bytes: Cell<bool>,

    /// A name was given since a folder's sync was last asked for.
    has_names: Cell<bool>,

    /// A call was made that fails later, or during which another changes the folder.
    was_made: Cell<bool>,

    failed: Cell<FailedSync>,

    again: Cell<Again>,

    /// How many signals came since the last byte of a stubborn file.
    signals: Cell<u8>,

    /// How many bytes of stubborn files were moved.
    bytes: Cell<u8>,

    /// How often a full output took nothing since its last byte.
    refusals: Cell<u16>,

    /// How many bytes were printed.
    printed: Cell<usize>,
}

impl Trial {
    /// A trial of these faults, which have not begun. It stays to the end of the process, so that no system and no file
    /// has its lifetime.
    pub(crate) fn new(
        alloc: Global,
        faults: &'static [Fault],
        kind: ErrorKind,
    ) -> Result<&'static Trial, Fail> {
        let trial = Trial {
            faults,
            kind,
            has_begun: Cell::new(false),
            has_bytes: Cell::new(false),
            has_names: Cell::new(false),
            was_made: Cell::new(false),
            failed: Cell::new(FailedSync::Neither),
            again: Cell::new(Again::Nothing),
            signals: Cell::new(0),
            bytes: Cell::new(0),
            refusals: Cell::new(0),
            printed: Cell::new(0),
        };
        match Box::new(alloc, trial) {
            Ok(place) => Ok(&*Box::leak(place)),
            Err(_) => Err(Fail::new("no memory for a trial")),
        }
    }

    /// From now on calls fail.
    pub(crate) fn begin(&self) {
        self.has_begun.set(true);
    }

    /// What was done again.
    pub(crate) fn again(&self) -> Again {
        self.again.get()
    }

    /// How many bytes were printed.
    pub(crate) fn printed(&self) -> usize {
        self.printed.get()
    }

    /// Fails if a fault says so of this call.
    fn pass(&self, rt: HostRuntime, call: Call) -> io::Result<()> {
        if !self.has_begun.get() {
            return Ok(());
        }
        for fault in self.faults {
            match fault {
                Fault::Meanwhile(of, change) if *of == call && !self.was_made.get() => {
                    self.was_made.set(true);
                    make(rt, change)?;
                }
                Fault::FailsFirst(of) if *of == call && !self.was_made.get() => {
                    self.was_made.set(true);
                    return Err(io::Error::from(self.kind));
                }
                Fault::FailsLater(of) if *of == call && !self.was_made.get() => {
                    self.was_made.set(true);
                }
                Fault::FailsLater(of) if *of == call => return Err(io::Error::from(self.kind)),
                Fault::Fails(of) if *of == call => return Err(io::Error::from(self.kind)),
                Fault::FailsSo(of, kind) if *of == call => return Err(io::Error::from(*kind)),
                _ => {}
            }
        }
        Ok(())
    }

    /// Notes a sync with its answer, and whether it came after one that failed.
    fn sync(&self, of: FailedSync, answer: io::Result<()>) -> io::Result<()> {
        if self.failed.get() == FailedSync::OfFile && of == FailedSync::OfFile {
            self.again.set(Again::Synced);
        }
        if answer.is_err() {
            self.failed.set(of);
        }
        answer
    }

    /// Notes that bytes are written in a file from this place on.
    fn note_write(&self, at: u64, count: usize) {
        if self.failed.get() != FailedSync::OfFile {
            return;
        }
        let end = at.saturating_add(count as u64);
        self.again.set(match self.again.get() {
            Again::Nothing => Again::Bytes(at, end),
            Again::Bytes(first, last) => Again::Bytes(first.min(at), last.max(end)),
            other => other,
        });
    }

    /// Notes that a name is removed, in one of the two folders.
    fn note_removal(&self, path: &str) {
        let folder = if path.ends_with("/kept/taxi.store.new") {
            FailedSync::OfLinkedFolder
        } else {
            FailedSync::OfFolder
        };
        if self.failed.get() == folder {
            self.again.set(Again::Name);
        }
    }

    /// The mode that a new file gets, if it isn't the one that was asked for.
    fn mask(&self) -> Option<u32> {
        for fault in self.faults {
            if let Fault::Masked(mode) = fault {
                return Some(*mode);
            }
        }
        None
    }

    /// How many of these bytes a read or a write moves: each, but of a stubborn file one at most.
    fn moved(&self, count: usize) -> io::Result<usize>
        ensures within { IfOk result (λ moved. moved ≤ count) }
    {
        for fault in self.faults {
            if let Fault::Stubborn(signals, bytes) = fault {
                if self.has_begun.get() {
                    self.note_move();
                    self.interrupt(*signals, *bytes)?;
                    return Ok(count.min(1));
                }
            }
        }
        Ok(count)
    }

    /// Notes a read or a write of a stubborn file.
    fn note_move(&self) {
        let before = match self.again.get() {
            Again::Moves(count) => count,
            _ => 0,
        };
        self.again.set(Again::Moves(before.saturating_add(1)));
    }

    /// Fails if a signal is still to come before the next byte, or if the medium is full.
    fn interrupt(&self, signals: u8, bytes: u8) -> io::Result<()> {
        let (came, moved) = (self.signals.get(), self.bytes.get());
        if came < signals {
            self.signals.set(came + 1);
            return Err(io::Error::from(ErrorKind::Interrupted));
        }
        if moved >= bytes {
            return Err(io::Error::from(ErrorKind::StorageFull));
        }
        self.signals.set(0);
        self.bytes.set(moved + 1);
        Ok(())
    }

    /// How many of these bytes a print moves: each, but on a full output one at most. They have to be those of a print
    /// that weren't printed yet.
    fn taken(&self, bytes: &[u8]) -> io::Result<usize>
        ensures within { IfOk result (λ taken. taken ≤ length bytes.now) }
    {
        let printed = self.printed.get();
        if PRINTED.get(printed % 9..) != Some(bytes) {
            return Err(disorder());
        }
        let mut most = bytes.len();
        for fault in self.faults {
            if let Fault::Full(first, later) = fault {
                self.refuse(if printed == 0 { *first } else { *later })?;
                most = 1;
            }
        }
        let count = most.min(bytes.len());
        self.printed.set(printed.saturating_add(count));
        Ok(count)
    }

    /// Fails if a full output is still to take nothing before the next byte.
    fn refuse(&self, times: u16) -> io::Result<()> {
        let refusals = self.refusals.get();
        if refusals < times {
            self.refusals.set(refusals + 1);
            return Err(io::Error::from(ErrorKind::WouldBlock));
        }
        self.refusals.set(0);
        Ok(())
    }

    /// The name that is told in place of this one.
    fn led<'b>(&self, name: &'b str) -> &'b str {
        if !self.has_begun.get() {
            return name;
        }
        for fault in self.faults {
            if let Fault::Leads(from, to) = fault {
                if *from == name {
                    return *to;
                }
            }
        }
        name
    }
}

/// The system under a trial.
#[derive(Clone, Copy)]
pub(crate) struct FaultySystem {
    pub rt: HostRuntime,
    pub trial: &'static Trial,
}

/// A file of such a system.
#[derive(Drop)]
pub(crate) struct FaultyFile {
    file: File,
    name: &'static str,
    is_synced: Cell<bool>,
    rt: HostRuntime,
    trial: &'static Trial,
}

impl FaultyFile {
    /// Fails if a fault says so of this call.
    fn pass(&self, call: Call) -> io::Result<()> {
        self.trial.pass(self.rt, call)
    }
}

/// The names whose calls may fail.
const NAMES: [&str; 11] = [
    "taxi.store",
    "taxi.store.new",
    "taxi.log",
    "taxi.log.new",
    ".",
    "kept",
    "kept/store",
    "/proc/self",
    "/proc/self/fd",
    "/proc/self/fd/1",
    "/proc/self/fd/2",
];

/// The name of files whose calls don't fail by their name.
const ANOTHER: &str = "another";

/// The name, if its calls may fail, or else one whose calls don't. The folder at the end of a link has a path that ends
/// in its name.
fn listed(name: &str) -> &'static str {
    for one in NAMES {
        if one == name {
            return one;
        }
    }
    if name.ends_with("/kept") {
        "kept"
    } else {
        ANOTHER
    }
}

/// The error of a call in the wrong order.
fn disorder() -> io::Error {
    io::Error::from(ErrorKind::Deadlock)
}

impl FaultySystem {
    /// Fails if a fault says so of this call.
    fn pass(&self, call: Call) -> io::Result<()> {
        self.trial.pass(self.rt, call)
    }

    /// The file, which gets the mode of a trial if it is new.
    fn opened(&self, how: &OpenOptions, path: &str) -> io::Result<File> {
        let file = how.open(&self.rt, path)?;
        if how.asks_create_new() {
            if let Some(mode) = self.trial.mask() {
                file.set_permissions(Permissions::from_mode(mode))?;
            }
        }
        Ok(file)
    }
}

impl HostSystem for FaultySystem {
    type File = FaultyFile;

    type Dir = <HostRuntime as HostSystem>::Dir;

    fn open_file(&self, how: &OpenOptions, path: &str) -> io::Result<FaultyFile> {
        let name = listed(path);
        let passed = self.pass(if how.asks_write() {
            Call::OpenToWrite(name)
        } else {
            Call::Open(name)
        });
        if passed.is_err() {
            // A folder that can't be opened can't be synced, and that is no disorder.
            self.trial.has_names.set(false);
        }
        passed?;
        Ok(FaultyFile {
            file: self.opened(how, path)?,
            name,
            is_synced: Cell::new(name == ANOTHER),
            rt: self.rt,
            trial: self.trial,
        })
    }

    fn open_dir(&self, path: &str) -> io::Result<Self::Dir> {
        self.rt.open_dir(path)
    }

    fn metadata(&self, path: &str) -> io::Result<Metadata> {
        self.pass(Call::Metadata(listed(path)))?;
        self.rt.metadata(self.trial.led(path))
    }

    fn symlink_metadata(&self, path: &str) -> io::Result<Metadata> {
        self.pass(Call::OwnMetadata(listed(path)))?;
        self.rt.symlink_metadata(self.trial.led(path))
    }

    fn copy(&self, from: &str, to: &str) -> io::Result<u64> {
        self.rt.copy(from, to)
    }

    fn rename(&self, from: &str, to: &str) -> io::Result<()> {
        self.rt.rename(from, to)
    }

    fn remove_file(&self, path: &str) -> io::Result<()> {
        self.pass(Call::Remove(listed(path)))?;
        if self.trial.has_names.get() {
            return Err(disorder());
        }
        self.rt.remove_file(path)?;
        self.trial.note_removal(path);
        Ok(())
    }

    fn create_dir(&self, path: &str) -> io::Result<()> {
        self.rt.create_dir(path)
    }

    fn remove_dir(&self, path: &str) -> io::Result<()> {
        self.rt.remove_dir(path)
    }

    fn remove_dir_all<B: Allocator>(&self, alloc: B, path: &str) -> io::Result<()> {
        self.rt.remove_dir_all(alloc, path)
    }

    fn canonicalize<B: Allocator>(&self, alloc: B, path: &str) -> io::Result<PathBuf<B>> {
        self.pass(Call::RealPath(listed(path)))?;
        self.rt.canonicalize(alloc, path)
    }

    fn read_link<B: Allocator>(&self, alloc: B, path: &str) -> io::Result<PathBuf<B>> {
        self.pass(Call::OwnPath(listed(path)))?;
        let led = self.trial.led(path);
        if led == path {
            self.rt.read_link(alloc, path)
        } else {
            self.rt.canonicalize(alloc, led)
        }
    }

    fn hard_link(&self, original: &str, link: &str) -> io::Result<()> {
        self.pass(Call::Link(listed(link)))?;
        if self.trial.has_bytes.get() {
            return Err(disorder());
        }
        self.rt.hard_link(original, link)?;
        self.trial.has_names.set(true);
        Ok(())
    }

    fn set_permissions(&self, path: &str, allowed: Permissions) -> io::Result<()> {
        self.rt.set_permissions(path, allowed)
    }
}

/// What is printed is compared and counted.
impl Print for FaultySystem {
    fn print<D: Display + Drop>(&self, _value: D) -> io::Result<()> {
        Ok(())
    }

    fn println<D: Display + Drop>(&self, _value: D) -> io::Result<()> {
        Ok(())
    }

    fn write_all(&self, _bytes: &[u8]) -> io::Result<()> {
        Err(disorder())
    }

    fn write_some(&self, bytes: &[u8]) -> io::Result<usize>
        ensures bound { IfOk result (λ n. n ≤ length bytes.now) }
    {
        self.pass(Call::Print)?;
        self.trial.taken(bytes)
    }
}

/// A pause takes no time, and is counted.
impl Clock for FaultySystem {
    fn monotonic(&self) -> io::Result<Duration> {
        Err(disorder())
    }

    fn since_1970(&self) -> io::Result<Duration> {
        Err(disorder())
    }

    fn sleep(&self, duration: Duration) {
        let before = match self.trial.again.get() {
            Again::Pauses(count) => count,
            _ => 0,
        };
        if duration == Duration::from_millis(100) {
            self.trial
                .again
                .set(Again::Pauses(before.saturating_add(1)));
        }
    }
}

impl OpenFile for FaultyFile {
    fn metadata(&self) -> io::Result<Metadata> {
        self.pass(Call::Length(self.name))?;
        self.file.metadata()
    }

    fn set_len(&self, size: u64) -> io::Result<()> {
        self.file.set_len(size)
    }

    fn sync_all(&self) -> io::Result<()> {
        // A sync that fails was asked for too, so one that is passed over isn't taken for disorder.
        self.is_synced.set(true);
        let of = if !self.file.metadata()?.is_dir() {
            self.trial.has_bytes.set(false);
            FailedSync::OfFile
        } else {
            self.trial.has_names.set(false);
            if self.name == "kept" {
                FailedSync::OfLinkedFolder
            } else {
                FailedSync::OfFolder
            }
        };
        let answer = self.pass(Call::Sync(self.name));
        self.trial.sync(of, answer)?;
        self.file.sync_all()
    }

    fn set_permissions(&self, allowed: Permissions) -> io::Result<()> {
        self.pass(Call::Allow(self.name))?;
        self.file.set_permissions(allowed)
    }

    fn sync_data(&self) -> io::Result<()> {
        Err(disorder())
    }
}

impl Read for FaultyFile {
    fn read(&mut self, buf: &mut [u8]) -> io::Result<usize> {
        self.pass(Call::Read(self.name))?;
        if !self.is_synced.get() {
            return Err(disorder());
        }
        let count = self.trial.moved(buf.len())?;
        self.file.read(&mut buf[..count])
    }
}

impl Write for FaultyFile {
    fn write(&mut self, buf: &[u8]) -> io::Result<usize> {
        self.pass(Call::Write(self.name))?;
        if self.trial.has_names.get() || buf.len() > PIECE {
            return Err(disorder());
        }
        let count = self.trial.moved(buf.len())?;
        self.trial.has_bytes.set(true);
        let at = self.file.seek(SeekFrom::Current(0))?;
        self.trial.note_write(at, count);
        self.file.write(&buf[..count])
    }

    fn flush(&mut self) -> io::Result<()> {
        self.file.flush()
    }
}

impl Seek for FaultyFile {
    fn seek(&mut self, to: SeekFrom) -> io::Result<u64> {
        self.file.seek(to)
    }
}

impl HeldFile for FaultyFile {
    fn lock_alone(&self) -> io::Result<()> {
        self.pass(Call::Lock(self.name))?;
        self.file.lock_alone()
    }

    fn above_streams(self) -> io::Result<FaultyFile> {
        Ok(self)
    }
}
