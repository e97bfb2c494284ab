//! What a device asks of its open file.
ghost use Rattle.std.specs.Prelude.{◌↔◌, ◌≤ℤ◌, IsTrue, pos};

use std::fs::{File, OpenFile};
use std::io;
use std::io::{Read, Seek, Write};
use std::os::fd::AsRawFd;

/// The last number of a standard stream.
const LAST_STREAM: i32 = 2;

/// Whether this is the number of a standard stream, open or closed.
fn is_of_stream(number: i32) -> bool
    ensures { IsTrue result ↔ number ≤ℤ pos 2 }
{
    number <= LAST_STREAM
}

/// An open file of a system, with what a `FileDevice` asks of it beside reading, writing, seeking and `OpenFile`. It is
/// there for systems of one's own: a `FileDevice` takes any system whose files have it. The kit's `File` has it. It is
/// this project's own.
pub trait HeldFile: OpenFile + Read + Write + Seek + Drop {
    /// Takes the system's lock on the file for this opening, which has it until it is closed. If another opening has
    /// it, this fails, and it never waits.
    fn lock_alone(&self) -> io::Result<()>;

    /// The same open file, under a number above those of the standard streams, so that no output for a stream that was
    /// closed at the start gets into the store. A file without a number is given back as it is.
    fn above_streams(self) -> io::Result<Self>
    where
        Self: Sized;
}

impl HeldFile for File {
    fn lock_alone(&self) -> io::Result<()> {
        Ok(self.try_lock()?)
    }

    fn above_streams(self) -> io::Result<File> {
        if is_of_stream(self.as_raw_fd()) {
            self.try_clone()
        } else {
            Ok(self)
        }
    }
}
