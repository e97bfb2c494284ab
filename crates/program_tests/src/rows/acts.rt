//! What is done in a row: stores are put and compared, and the programs are called.
use super::calls::{is_wanted, words_of};
use super::packed::Packed;
use crate::log::keep_log_tests;
use crate::meter::tests::status_of;
use memory_devices::{MemoryBoard, MemoryLog};
use outside::{LOG_SIZE, STORE_SIZE};
use std::alloc::Global;
use std::test::Fail;

/// The stores of a row: the meter's, and the log's, which is made once it is needed. The log has a device from one call
/// to the next, unless its bytes were put in between.
#[derive(Drop)]
pub(crate) struct Stores {
    alloc: Global,
    totals: [u8; STORE_SIZE],
    log: Vec<u8>,
    device: Option<MemoryLog>,
}

impl Stores {
    /// Stores of zeros, for a folder that has none.
    pub(crate) fn new(alloc: Global) -> Stores {
        Stores {
            alloc,
            totals: [0; STORE_SIZE],
            log: Vec::new(alloc),
            device: None,
        }
    }

    /// Makes the log, if it isn't there.
    fn make_log(&mut self) -> Result<(), Fail> {
        if self.log.is_empty() {
            self.log = vec![in self.alloc; 0u8; LOG_SIZE]?;
        }
        Ok(())
    }

    /// Carries out the next act, and says whether all is as it has to be.
    pub(crate) fn act(&mut self, rows: &mut Packed) -> Result<bool, Fail> {
        let kind = rows.kind()?;
        if kind == b'l' || kind == b'L' || kind == b'h' {
            self.make_log()?;
        }
        match kind {
            b's' => put(rows, &mut self.totals),
            b'l' => {
                self.device = None;
                put(rows, self.log.as_mut_slice())
            }
            b'S' => is_left(self.alloc, rows, &self.totals),
            b'L' => is_left(self.alloc, rows, self.log.as_slice()),
            b't' => self.call_taxi(rows),
            b'h' => self.call_log(rows),
            _ => Err(Fail::new("no act begins so")),
        }
    }

    /// Calls the meter.
    fn call_taxi(&mut self, rows: &mut Packed) -> Result<bool, Fail> {
        let (words, mut files) = words_of(self.alloc, rows)?;
        let mut board = MemoryBoard::new(self.alloc, &self.totals, &[])?;
        let status = status_of(self.alloc, words.as_slice(), &mut files, &mut board);
        let is_printed = is_wanted(rows, board.printed())?;
        let has_status = rows.number()? == usize::from(status);
        let may_write = rows.number()? == 1;
        let is_kept = may_write || *board.image() == self.totals;
        if may_write {
            self.totals = *board.image();
        }
        Ok(is_printed && has_status && is_kept)
    }

    /// The log's device, which is taken from the row.
    fn take_device(&mut self) -> Result<MemoryLog, Fail> {
        match self.device.take() {
            Some(device) => Ok(device),
            None => keep_log_tests::log_of(self.alloc, self.log.as_slice(), &[]),
        }
    }

    /// Calls the hiring log.
    fn call_log(&mut self, rows: &mut Packed) -> Result<bool, Fail> {
        let (words, mut files) = words_of(self.alloc, rows)?;
        let mut log = self.take_device()?;
        let printed_before = log.printed().len();
        let status = keep_log_tests::status_of(words.as_slice(), &mut files, &mut log);
        let is_printed = is_wanted(rows, behind_first(log.printed(), printed_before)?)?;
        let has_status = rows.number()? == usize::from(status);
        let may_write = rows.number()? == 1;
        let is_kept = may_write || log.image().as_slice() == self.log.as_slice();
        if may_write {
            copy(log.image().as_slice(), self.log.as_mut_slice())?;
        }
        self.device = Some(log);
        Ok(is_printed && has_status && is_kept)
    }
}

/// What is behind the first bytes of a text, of a number.
fn behind_first(text: &[u8], count: usize) -> Result<&[u8], Fail> {
    if count > text.len() {
        return Err(Fail::new("a text has become shorter"));
    }
    Ok(&text[count..])
}

/// Copies bytes over others, which are as many.
fn copy(bytes: &[u8], over: &mut [u8]) -> Result<(), Fail> {
    if bytes.len() != over.len() {
        return Err(Fail::new("stores have two sizes"));
    }
    over.copy_from_slice(bytes);
    Ok(())
}

/// Puts a piece at its place in a store.
fn put_piece(store: &mut [u8], place: usize, piece: &[u8]) -> Result<(), Fail> {
    if place > store.len() || piece.len() > store.len() - place {
        return Err(Fail::new("a piece lies beyond its store"));
    }
    store[place..place + piece.len()].copy_from_slice(piece);
    Ok(())
}

/// Puts pieces into the bytes of a store, each at its place, and says that all is well.
fn put(rows: &mut Packed, store: &mut [u8]) -> Result<bool, Fail> {
    for _ in 0..rows.number()? {
        let place = rows.number()?;
        put_piece(store, place, rows.text()?)?;
    }
    Ok(true)
}

/// Whether a store has these pieces over zeros.
fn is_left(alloc: Global, rows: &mut Packed, store: &[u8]) -> Result<bool, Fail> {
    let mut wanted = vec![in alloc; 0u8; store.len()]?;
    put(rows, wanted.as_mut_slice())?;
    Ok(wanted.as_slice() == store)
}
