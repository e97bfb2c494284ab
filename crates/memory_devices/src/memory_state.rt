//! What a board in memory keeps.
ghost use Rattle.{std.specs.{List.{All}, Prelude.{take, true}}, memory_devices.specs.Common.{IsImage, SameBut}};
ghost use Rattle.std.specs.Prelude.{[], ◌++◌, ◌+◌, ◌^◌, ◌↔◌, ◌∷◌, ◌≡◌, ◌≤◌, Contains, IfOk, OnErr, OnOk, drop, length};
ghost use Rattle.memory_devices.specs.Calls.{Contents, IsInSome, Print, Read, Sync, Write, after, after_all};
ghost use Rattle.memory_devices.specs.MemoryBoard.{IsDone, IsUndone, contents_inside, image_of, left_since_of};
ghost use Rattle.memory_devices.specs.{MemoryBoard.{new_board, refused_on, text_of}, Replays.{IsInStore, call_end}};
ghost use Rattle.memory_devices.specs.Requests.{call_of};

use crate::kept_call::{KeptCall, Request};
use crate::replay::{Fill, begin, pass, put};
use outside::Failed;
use std::alloc::Global;
use std::marker::Model;
use taxi_units::NoMemory;

/// The calls that a board in memory keeps, and what they leave.
#[derive(Drop)]
pub(crate) struct MemoryState<const N: usize> {
    alloc: Global,
    start: Vec<u8>,
    image: Vec<u8>,
    text: Vec<u8>,
    fail: Vec<u64>,
    calls: Vec<KeptCall>,
    refused: u64,
}

impl<const N: usize> Model for MemoryState<N> {
    ghost use Rattle.std.specs.{List.{All}, Prelude.{◌^◌, ◌≡◌, ◌≤◌, length}};
    ghost use Rattle.memory_devices.specs.{Calls.{after_all, opened}, Replays.{IsInStore, Mirrors}};
    ghost use Rattle.memory_devices.specs.MemoryBoard.{BoardState};

    ghost Value = { BoardState };

    ghost view = { λ m.
        record { start = m.start.items; fail = m.fail.items; calls = m.calls.items; refused = m.refused } };

    ghost invariant = { λ m.
        Mirrors (after_all (opened m.start.items) m.calls.items) m.image.items m.text.items
        × All (IsInStore N) m.calls.items × (N ≤ 2 ^ 32)
        × (length m.start.items ≡ N) × (length m.image.items ≡ N) };
}

impl<const N: usize> MemoryState<N> {
    /// The state before the first call.
    pub(crate) fn new(alloc: Global, image: &[u8], fail: &[u64]) -> Result<MemoryState<N>, NoMemory>
        requires size { N ≤ 2 ^ 32 }
        requires image { length image.now ≡ N }
        ensures state { IfOk result (λ m. m ≡ new_board image.now fail.now) }
        ensures is_image { IfOk result (λ m. IsImage N (image_of m)) }
    {
        let Ok(fail) = Vec::from_slice(alloc, fail) else {
            return Err(NoMemory);
        };
        let Ok(start) = Vec::from_slice(alloc, image) else {
            return Err(NoMemory);
        };
        let Ok(copy) = Vec::from_slice(alloc, image) else {
            return Err(NoMemory);
        };
        Ok(MemoryState {
            alloc,
            start,
            image: copy,
            text: Vec::new(alloc),
            fail,
            calls: Vec::new(alloc),
            refused: 0,
        })
    }

    /// How many calls were kept.
    pub(crate) fn calls(&self) -> u64
        ensures { result ≡ length self.now.calls }
    {
        self.calls.len() as u64
    }

    /// What was printed.
    pub(crate) fn printed(&self) -> &[u8]
        ensures { result.now ≡ text_of self.now }
    {
        self.text.as_slice()
    }

    /// What a read gives.
    pub(crate) fn image(&self) -> &[u8; N]
        ensures { result.now ≡ image_of self.now }
    {
        match <&[u8; N]>::try_from(self.image.as_slice()) {
            Ok(image) => image,
            Err(_) => unreachable!(),
        }
    }

    /// How many calls found no memory.
    pub(crate) fn refused(&self) -> u64
        ensures { result ≡ self.now.refused }
    {
        self.refused
    }

    /// Puts into `left` an image that a cut inside the call with this number may leave; 0 is before the first. What was
    /// in flight before the call still is, inside a sync too, and so is the range that the call itself writes. `fill`
    /// says what the bytes in flight become; all others are those that a read gave before the call. `image` and
    /// `settled` are room of the store's size.
    pub(crate) fn cut_into(
        &self,
        call: u64,
        fill: Fill,
        image: &mut [u8],
        settled: &mut [u8],
        left: &mut [u8],
    )
        requires call { call ≤ length self.now.calls }
        requires image { length image.old ≡ N }
        requires settled { length settled.old ≡ N }
        requires left { length left.old ≡ N }
        ensures left { left_since_of self.now 0 left.new (contents_inside self.now call).text }
        ensures inside { SameBut (IsInSome (contents_inside self.now call).ranges)
            (contents_inside self.now call).image left.new }
        ensures settled { (contents_inside self.now call).ranges ≡ []
            → left.new ≡ (contents_inside self.now call).image }
        ensures zero { call ≡ 0 → left.new ≡ self.now.start }
    {
        let count = call as usize;
        left.copy_from_slice(self.start.as_slice());
        if count == 0 {
            return;
        }
        image.copy_from_slice(self.start.as_slice());
        settled.copy_from_slice(self.start.as_slice());
        for kept in &self.calls[..count - 1] {
            pass(image, settled, left, kept, fill);
        }
        begin(settled, left, &self.calls[count - 1], fill);
    }

    /// Counts a call that found no memory, and gives its failure.
    fn refuse(&mut self) -> Failed
        ensures refused { self.new ≡ refused_on self.old }
    {
        self.refused = self.refused.saturating_add(1);
        Failed
    }

    /// Keeps a read, and fills the buffer if it doesn't fail.
    pub(crate) fn keep_read(&mut self, at: u32, buf: &mut [u8]) -> Result<(), Failed>
        requires { at + length buf.old ≤ N }
        ensures bytes { OnOk result (buf.new ≡ take (length buf.old) (drop at (image_of self.old))) }
        ensures kept { OnOk result (IsDone self.old Read self.new) }
        ensures failed { OnErr result (IsUndone self.old Read self.new) }
    {
        let Ok(failed) = add_call::<N>(&mut self.calls, &self.fail, Request::Read) else {
            return Err(self.refuse());
        };
        if failed {
            return Err(Failed);
        }
        let from = at as usize;
        let to = from + buf.len();
        let image = &self.image[..];
        buf.copy_from_slice(&image[from..to]);
        Ok(())
    }

    /// Keeps a write, and puts its bytes if it doesn't fail.
    pub(crate) fn keep_write(&mut self, at: u32, bytes: &[u8]) -> Result<(), Failed>
        requires { at + length bytes.now ≤ N }
        ensures kept { OnOk result (IsDone self.old (Write at bytes.now) self.new) }
        ensures failed { OnErr result (IsUndone self.old (Write at bytes.now) self.new) }
    {
        let Ok(copy) = Vec::from_slice(self.alloc, bytes) else {
            return Err(self.refuse());
        };
        let Ok(failed) = add_call::<N>(&mut self.calls, &self.fail, Request::Write(at, copy)) else {
            return Err(self.refuse());
        };
        if failed {
            return Err(Failed);
        }
        put(self.image.as_mut_slice(), at as usize, bytes);
        Ok(())
    }

    /// Keeps a sync.
    pub(crate) fn keep_sync(&mut self) -> Result<(), Failed>
        ensures kept { OnOk result (IsDone self.old Sync self.new) }
        ensures failed { OnErr result (IsUndone self.old Sync self.new) }
    {
        let Ok(failed) = add_call::<N>(&mut self.calls, &self.fail, Request::Sync) else {
            return Err(self.refuse());
        };
        if failed { Err(Failed) } else { Ok(()) }
    }

    /// Keeps a print, and puts its bytes behind the text if it doesn't fail.
    pub(crate) fn keep_print(&mut self, bytes: &[u8]) -> Result<(), Failed>
        ensures kept { OnOk result (IsDone self.old (Print bytes.now) self.new) }
        ensures failed { OnErr result (IsUndone self.old (Print bytes.now) self.new) }
    {
        let Ok(piece) = Vec::from_slice(self.alloc, bytes) else {
            return Err(self.refuse());
        };
        let count = self.text.len();
        let Ok(()) = self.text.extend_from_slice(bytes) else {
            return Err(self.refuse());
        };
        let Ok(failed) = add_call::<N>(&mut self.calls, &self.fail, Request::Print(piece)) else {
            self.text.truncate(count);
            return Err(self.refuse());
        };
        if failed {
            self.text.truncate(count);
            return Err(Failed);
        }
        Ok(())
    }
}

/// Keeps a call, and tells whether it fails by its number. A call that finds no memory isn't kept.
fn add_call<const N: usize>(
    calls: &mut Vec<KeptCall>,
    fail: &[u64],
    request: Request,
) -> Result<bool, NoMemory>
    requires fits { All (IsInStore N) calls.old.items }
    requires inside { call_end (call_of request) ≤ N }
    ensures fits { All (IsInStore N) calls.new.items }
    ensures kept { IfOk result (λ failed.
        calls.new.items ≡ calls.old.items ++ record { call = call_of request; failed = failed } ∷ []) }
    ensures leaves { IfOk result (λ failed. (held : Contents)
        → after_all held calls.new.items ≡ after (after_all held calls.old.items)
        (record { call = call_of request; failed = failed })) }
    ensures listed { IfOk result (λ failed. failed ≡ true ↔ Contains fail.now (length calls.old.items + 1)) }
    ensures same { OnErr result (calls.new.items ≡ calls.old.items) }
{
    let number = calls.len() as u64 + 1;
    let failed = fail.contains(&number);
    let Ok(()) = calls.push(KeptCall { request, failed }) else {
        return Err(NoMemory);
    };
    Ok(failed)
}
