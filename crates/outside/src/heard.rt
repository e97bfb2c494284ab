//! What a device of the system keeps of its calls, for whoever tells people of them. No clause speaks of it, and no
//! call goes by it.
use std::io;
use taxi_units::{Line, put_bytes};

/// A call of the device that failed, and the answer of the system, or of the device where that found something wrong.
#[derive(Clone, Copy)]
pub struct Failure {
    /// What was to be done.
    pub act: Act,

    /// Why it wasn't.
    pub error: io::Error,
}

/// What a device is asked for.
#[derive(Clone, Copy, PartialEq, Eq)]
pub enum Act {
    Print,
    Read,
    Write,
    Sync,
}

/// What a device keeps of its calls.
#[derive(Drop)]
pub struct Heard {
    printed: Line,
    failure: Option<Failure>,
    seals: [[u8; SEALS_SIZE]; 2],
    has_seals: bool,
}

/// The first place of the meter's seals.
const SEALS: usize = 1024;

/// How many bytes they have.
pub const SEALS_SIZE: usize = 1024;

impl Heard {
    /// Of no call.
    pub(crate) fn nothing() -> Heard {
        Heard {
            printed: Line::new(),
            failure: None,
            seals: [[0; SEALS_SIZE]; 2],
            has_seals: false,
        }
    }

    /// What was printed last, in one piece.
    pub fn printed(&self) -> &[u8] {
        self.printed.as_slice()
    }

    /// The first call that failed, if one did.
    pub fn failure(&self) -> Option<Failure> {
        self.failure
    }

    /// The bytes of the meter's seals as they were found, and as they are, if they were read.
    pub fn seals(&self) -> Option<(&[u8; SEALS_SIZE], &[u8; SEALS_SIZE])> {
        if self.has_seals {
            Some((&self.seals[0], &self.seals[1]))
        } else {
            None
        }
    }

    /// Keeps the bytes of a print.
    pub(crate) fn print(&mut self, bytes: &[u8]) {
        self.printed.clear();
        let _ = put_bytes(&mut self.printed, bytes);
    }

    /// Keeps the error of a call, if it is the first one.
    pub(crate) fn fail<T>(&mut self, act: Act, answer: &io::Result<T>) {
        if let (None, Err(error)) = (self.failure, answer) {
            self.failure = Some(Failure { act, error: *error });
        }
    }

    /// Keeps the bytes of the seals that were read; those that were found are the first ones.
    pub(crate) fn read(&mut self, at: u32, bytes: &[u8]) {
        let from = at as usize;
        if from >= SEALS {
            if !self.has_seals {
                put(&mut self.seals[0], from - SEALS, bytes);
            }
            put(&mut self.seals[1], from - SEALS, bytes);
            self.has_seals = from > SEALS || self.has_seals;
        }
    }

    /// Keeps the bytes of the seals that were written.
    pub(crate) fn write(&mut self, at: u32, bytes: &[u8]) {
        let from = at as usize;
        if from >= SEALS {
            put(&mut self.seals[1], from - SEALS, bytes);
        }
    }
}

/// Puts bytes at a place, where there is room for them.
fn put(seals: &mut [u8; SEALS_SIZE], at: usize, bytes: &[u8]) {
    if let Some(to) = at.checked_add(bytes.len())
        && let Some(room) = seals.get_mut(at..to)
        && room.len() == bytes.len()
    {
        room.copy_from_slice(bytes);
    }
}
