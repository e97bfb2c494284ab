//! The sync of a file. If it fails, the same bytes are written once more.
//!
//! A system that could not write the bytes of a sync says so once. Many then count these bytes as written, and give
//! them to whoever reads: the next sync would be Ok, though the medium never had them. Bytes that are written again
//! wait for the next sync: it fails as long as the medium does, and if it is Ok, the medium has them.
use crate::held_file::HeldFile;
use crate::named_file::require_size;
use crate::retried::{read_whole_piece, write_whole};
use std::io;
use std::io::SeekFrom;

/// How many bytes are written again at once.
const PIECE: usize = 512;

/// The places of a file from `first` up to `end`: all that were written since the last good sync, and those between
/// them.
#[derive(Clone, Copy)]
pub(crate) struct Unsynced {
    first: u64,
    end: u64,
}

impl Unsynced {
    /// No place.
    pub(crate) fn none() -> Unsynced {
        Unsynced {
            first: u64::MAX,
            end: 0,
        }
    }

    /// Each place of a store of this size.
    pub(crate) fn whole(size: u64) -> Unsynced {
        Unsynced {
            first: 0,
            end: size,
        }
    }

    /// These places, and those of one more write.
    pub(crate) fn with(self, at: u32, count: usize) -> Unsynced {
        let first = u64::from(at);
        Unsynced {
            first: self.first.min(first),
            end: self.end.max(first.saturating_add(count as u64)),
        }
    }
}

/// Waits until the medium has the file's bytes, and gives the system's answer. If that is an error, these places are
/// written again, unless the file is shorter than a store of this size. No sync follows.
pub(crate) fn sync_or_write_again<F: HeldFile>(
    file: &mut F,
    size: u64,
    places: Unsynced,
) -> io::Result<()> {
    let answer = file.sync_all();
    if answer.is_err() && require_size(file, size).is_ok() {
        write_again(file, places);
    }
    answer
}

/// Writes what stands in these places once more, piece by piece. A piece that can't be read whole is left out, so the
/// file gets no longer; the others are still written.
fn write_again<F: HeldFile>(file: &mut F, places: Unsynced) {
    let mut buf = [0; PIECE];
    let mut at = places.first;
    while at < places.end {
        let count = (places.end - at).min(PIECE as u64);
        write_piece_again(file, at, &mut buf[..count as usize]).ok();
        at += count;
    }
}

/// Writes what stands from a place on once more. The buffer is room for it.
fn write_piece_again<F: HeldFile>(file: &mut F, at: u64, buf: &mut [u8]) -> io::Result<()> {
    file.seek(SeekFrom::Start(at))?;
    read_whole_piece(file, buf)?;
    file.seek(SeekFrom::Start(at))?;
    write_whole(file, buf)
}
