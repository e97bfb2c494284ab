//! A print on the standard output, which is waited for while it takes nothing.
use crate::retried::write_whole;
use std::io::{ErrorKind, Write};
use std::rt::Clock;
use std::time::Duration;
use std::{io, thread};

/// How often an output is tried that takes nothing.
const TRIES: u16 = 6_000;

/// How many milliseconds it is waited for between two tries.
const PAUSE: u64 = 100;

/// The standard output.
#[derive(Drop)]
struct Output<'a, R> {
    rt: &'a R,
}

/// Whoever started the program may have set the output so that it refuses what it has no room for.
impl<R: Print + Clock> Write for Output<'_, R> {
    fn write(&mut self, bytes: &[u8]) -> io::Result<usize> {
        for _ in 0..TRIES {
            match self.rt.write_some(bytes) {
                Err(error) if error.kind() == ErrorKind::WouldBlock => {
                    thread::sleep(self.rt, Duration::from_millis(PAUSE));
                }
                answer => return answer,
            }
        }
        Err(io::Error::from(ErrorKind::WouldBlock))
    }

    fn flush(&mut self) -> io::Result<()> {
        Ok(())
    }
}

/// Prints all of the bytes. If the output takes nothing for ten minutes, it fails. A beginning of them may be printed
/// then.
pub(crate) fn print_whole<R: Print + Clock>(rt: &R, bytes: &[u8]) -> io::Result<()> {
    write_whole(&mut Output { rt }, bytes)
}
