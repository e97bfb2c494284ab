//! The files in memory, and texts that are read whole.
use crate::meter::tests::{files_of, must_at};
use memory_devices::MemoryFiles;
use outside::{Files, RoomFault, TextFault, read_text, read_whole};
use std::alloc::Global;
use std::test::Fail;

/// Reads of files in memory into three bytes, of which the second and the fifth fail: the word, and what comes.
const READS: &[(usize, Option<&[u8]>)] = &[
    (1, Some(b"abc")),
    (1, None),
    (1, Some(b"def")),
    (3, Some(b"xy")),
    (4, None),
    (4, Some(b"")),
    (1, Some(b"g")),
    (1, Some(b"")),
    (2, Some(b"")),
];

/// Whether a read of a word's file gives these bytes, or fails if there are none.
fn reads(files: &mut MemoryFiles, word: usize, want: &Option<&[u8]>) -> bool {
    let mut buf = [0; 3];
    let count = files.read(word, &mut buf);
    count.ok().map(|count| &buf[..count]) == *want
}

#[test]
fn reads_of_memory_files(rt: HostRuntime) -> Result<(), Fail> {
    let mut files = files_of(rt.alloc(), &["abcdefg", "", "xy"], &[2, 5])?;
    for (word, want) in READS {
        must_at(reads(&mut files, *word, want), "word", *word as u64)?;
    }
    Ok(())
}

/// Buffers of this size over a file of seven bytes, the read that fails, and the answer.
const WHOLE: &[(usize, u64, Result<usize, RoomFault>)] = &[
    (8, 0, Ok(7)),
    (7, 0, Ok(7)),
    (6, 0, Err(RoomFault::TooLong)),
    (0, 0, Err(RoomFault::TooLong)),
    (8, 2, Err(RoomFault::DeviceFailed)),
    (7, 2, Err(RoomFault::DeviceFailed)),
];

/// The answer of a reading into a buffer of this size.
fn whole(files: &mut MemoryFiles, room: usize) -> Result<usize, RoomFault> {
    let mut buf = [0; 8];
    match buf.get_mut(..room) {
        Some(front) => read_whole(files, 1, front),
        None => Err(RoomFault::TooLong),
    }
}

/// The length of a text that has the file's seven bytes, or why it wasn't read, if memory isn't to blame.
fn length_of(text: Result<Vec<u8>, TextFault>) -> Option<Result<usize, RoomFault>> {
    match text {
        Ok(text) => {
            if text.as_slice() == b"abcdefg".as_slice() {
                Some(Ok(text.len()))
            } else {
                None
            }
        }
        Err(TextFault::TooLong) => Some(Err(RoomFault::TooLong)),
        Err(TextFault::DeviceFailed) => Some(Err(RoomFault::DeviceFailed)),
        Err(TextFault::NoMemory) => None,
    }
}

/// Fails unless both ways of reading a whole text give this.
fn must_read_whole(
    alloc: Global,
    room: usize,
    fail: u64,
    want: &Result<usize, RoomFault>,
) -> Result<(), Fail> {
    let mut files = files_of(alloc, &["abcdefg"], &[fail])?;
    let is_so = whole(&mut files, room) == *want;
    must_at(is_so, "a buffer of", room as u64)?;
    let mut files = files_of(alloc, &["abcdefg"], &[fail])?;
    let text = read_text(alloc, &mut files, 1, room);
    must_at(length_of(text) == Some(*want), "a text of", room as u64)
}

#[test]
fn reads_whole_texts(rt: HostRuntime) -> Result<(), Fail> {
    for (room, fail, want) in WHOLE {
        must_read_whole(rt.alloc(), *room, *fail, want)?;
    }
    // A full buffer asks for one byte more, a text for all that fits and that byte.
    let mut files = files_of(rt.alloc(), &["abcdefg"], &[2])?;
    let is_failed = whole(&mut files, 6) == Err(RoomFault::DeviceFailed);
    must_at(is_failed, "a buffer of", 6)?;
    let mut files = files_of(rt.alloc(), &["abcdefg"], &[2])?;
    let text = read_text(rt.alloc(), &mut files, 1, 6);
    must_at(
        length_of(text) == Some(Err(RoomFault::TooLong)),
        "a text of",
        6,
    )
}
