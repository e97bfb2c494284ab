//! What a port keeps of a stream, and what one byte changes of it.
ghost use Rattle.std.specs.Prelude.{[], ◌++◌, ◌+◌, ◌<◌, ◌^◌, ◌≡◌, ◌≤◌, IfErr, OnOk, false, length, true};
ghost use Rattle.{arrayvec.specs.ArrayVec.{array_vec_len}, data_port.specs.Reading.{HasSense, HasTaken, between}};
ghost use Rattle.data_port.specs.{Items.{item_count}, ReadingStages.{has_codes, last_code, request_in}};
ghost use Rattle.data_port.specs.ReadingStages.{after_byte, ended_by, follows, follows_codes, follows_start, has_all};

use crate::contents::ITEM_COUNT;
use crate::port::BadFrame;
use crate::reply::{END, START};
use crate::request::Request;
use arrayvec::ArrayVec;

/// How many bytes a request has before the last one, at most: 0x02, the count, and the codes.
const PART_SIZE: usize = ITEM_COUNT + 2;

/// How many bytes were taken, those of an unfinished request, and whether a bad place came, which is then `taken`.
#[derive(Drop)]
pub(crate) struct State {
    pub(crate) taken: u64,
    pub(crate) part: ArrayVec<u8, PART_SIZE>,
    pub(crate) failed: bool,
}

impl State {
    ghost use Rattle.data_port.specs.State.{standing_of};

    /// Before the first byte.
    pub(crate) fn new() -> State
        ensures new { standing_of result ≡ between 0 }
        ensures taken { HasTaken (standing_of result) [] }
    {
        State {
            taken: 0,
            part: ArrayVec::new(),
            failed: false,
        }
    }

    /// Takes a byte, and appends the request that it ends, if it ends one. `BadFrame` with its place if no stream of
    /// requests has it there.
    pub(crate) fn take(&mut self, byte: u8, out: &mut ArrayVec<Request, 64>) -> Result<(), BadFrame>
        requires sense { HasSense (standing_of self.old) }
        requires going { self.old.failed ≡ false }
        requires few { self.old.taken + 1 < 2 ^ 64 }
        requires room { array_vec_len out.old < 64 }
        ensures state { standing_of self.new ≡ after_byte (standing_of self.old) byte }
        ensures out { out.new.items ≡ out.old.items ++ ended_by (standing_of self.old) byte }
        ensures ok { OnOk result (self.new.failed ≡ false) }
        ensures err { IfErr result (λ e. (self.new.failed ≡ true) × (e.place ≡ self.new.taken)) }
    {
        if !may_follow(self.part.as_slice(), byte) {
            self.part.clear();
            self.failed = true;
            return Err(BadFrame { place: self.taken });
        }
        self.taken += 1;
        if is_whole(self.part.as_slice()) {
            out.push(request_of(self.part.as_slice()));
            self.part.clear();
        } else {
            self.part.push(byte);
        }
        Ok(())
    }
}

/// Whether this byte may follow those of an unfinished request.
fn may_follow(part: &[u8], byte: u8) -> bool
    ensures { result ≡ follows part.now byte }
{
    match part.split_first() {
        None => byte == START,
        Some((_, part)) => may_follow_start(part, byte),
    }
}

/// Whether it may follow 0x02 and these bytes.
fn may_follow_start(part: &[u8], byte: u8) -> bool
    ensures { result ≡ follows_start part.now byte }
{
    match part.split_first() {
        None => 1 <= byte && usize::from(byte) <= ITEM_COUNT,
        Some((count, codes)) => may_follow_codes(*count, codes, byte),
    }
}

/// Whether it may follow the count of a request and these codes.
fn may_follow_codes(count: u8, codes: &[u8], byte: u8) -> bool
    ensures { result ≡ follows_codes count codes.now byte }
{
    if codes.len() == usize::from(count) {
        byte == END
    } else {
        last_of(codes) < byte
            && usize::from(byte) + usize::from(count) <= codes.len() + (ITEM_COUNT + 1)
    }
}

/// The last code, or 0 if there is none.
fn last_of(codes: &[u8]) -> u8
    ensures { result ≡ last_code codes.now }
{
    if codes.is_empty() {
        return 0;
    }
    codes[codes.len() - 1]
}

/// Whether all codes of the request have come.
fn is_whole(part: &[u8]) -> bool
    ensures { result ≡ has_all part.now }
{
    match part.split_first() {
        None => false,
        Some((_, part)) => has_its_codes(part),
    }
}

/// Whether as many codes follow a count as it says.
fn has_its_codes(part: &[u8]) -> bool
    ensures { result ≡ has_codes part.now }
{
    match part.split_first() {
        None => false,
        Some((count, codes)) => codes.len() == usize::from(*count),
    }
}

/// The request that has these bytes before its last.
fn request_of(part: &[u8]) -> Request
    requires low { 2 ≤ length part.now }
    requires high { length part.now ≤ item_count + 2 }
    ensures { result ≡ request_in part.now }
{
    let mut items = ArrayVec::new();
    let _ = items.try_extend_from_slice(&part[2..]);
    Request { items }
}
