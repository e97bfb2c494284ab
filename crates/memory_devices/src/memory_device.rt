//! The board in memory, of which chosen calls fail.
ghost use Rattle.std.specs.Prelude.{[], ◌+◌, ◌<◌, ◌^◌, ◌≡◌, ◌≤◌, IfOk, length};
ghost use Rattle.{outside.specs.Disk.{IsPiece, piece_size}, memory_devices.specs.MomentLaws.{counts_now, only_now}};
ghost use Rattle.memory_devices.specs.{Calls.{IsInSome, opened}, Common.{IsImage, SameBut}};
ghost use Rattle.memory_devices.specs.MemoryBoard.{IsNew, Memory, contents_inside, faults_of, image_of, in_flight_of};
ghost use Rattle.memory_devices.specs.MemoryBoard.{left_since_of, moment_of, new_board, text_of};
ghost use Rattle.memory_devices.specs.MemoryCalls.{PrintsPiece, ReadsPiece, SyncsStore, WritesPiece};

use crate::memory_state::MemoryState;
use crate::replay::Fill;
use outside::{Board, Failed, LOG_SIZE, Printer, STORE_SIZE};
use std::alloc::Global;
use std::marker::Model;
use std::sync::ledger::Ledger;
use taxi_units::{NoMemory, Steps};

/// A store of `N` bytes in memory and a printer, which tell what they hold, and of which chosen calls fail. A call that
/// finds no memory fails, raises `refused` by one and changes nothing else: it isn't kept and takes no number. All
/// other calls are kept and numbered from 1, and exactly those with chosen numbers fail. A write that fails by its
/// number leaves the image as it was, and its range in flight; such a print prints nothing. The count of faults is
/// `refused` and the number of calls that failed by their numbers, together. It stops at the last value of a `u64`, as
/// `refused` does. All of it is this project's own.
#[derive(Drop)]
pub struct MemoryDevice<const N: usize> {
    state: MemoryState<N>,
    ghost is_image: { IsImage N (image_of state) },
}

/// The meter's board in memory.
pub type MemoryBoard = MemoryDevice<STORE_SIZE>;

/// The hiring log's board in memory.
pub type MemoryLog = MemoryDevice<LOG_SIZE>;

impl<const N: usize> Model for MemoryDevice<N> {
    ghost Value = { Memory N };

    ghost view = { λ d. record { state = d.state; is_image = d.is_image } };
}

impl<const N: usize> MemoryDevice<N> {
    /// A device at moment 0, whose store holds these bytes, with nothing in flight, nothing printed and no faults. The
    /// calls with the numbers in `fail` will fail. `NoMemory`: there is no memory.
    pub fn new(alloc: Global, image: &[u8; N], fail: &[u64]) -> Result<MemoryDevice<N>, NoMemory>
        requires { N ≤ 2 ^ 32 }
        ensures state { IfOk result (λ d. d.state ≡ new_board image.now fail.now) }
        ensures new { IfOk result (λ d. IsNew image.now d.state) }
    {
        let state = MemoryState::new(alloc, image, fail)?;
        Ok(MemoryDevice { state })
    }

    /// How many calls were kept, those that failed by their numbers too.
    pub fn calls(&self) -> u64
        ensures { result ≡ length self.now.state.calls }
    {
        self.state.calls()
    }

    /// What was printed.
    pub fn printed(&self) -> &[u8]
        ensures { result.now ≡ text_of self.now.state }
    {
        self.state.printed()
    }

    /// What a read gives: the bytes of the store.
    pub fn image(&self) -> &[u8; N]
        ensures { result.now ≡ image_of self.now.state }
    {
        self.state.image()
    }

    /// How many calls found no memory.
    pub fn refused(&self) -> u64
        ensures { result ≡ self.now.state.refused }
    {
        self.state.refused()
    }

    /// An image that a cut inside the call with this number may leave; 0 is before the first. What was in flight before
    /// the call still is, inside a sync too, and so is the range that the call itself writes. `fill` says what the
    /// bytes in flight become; all others are those that a read gave before the call.
    pub fn cut(&self, call: u64, fill: Fill) -> [u8; N]
        requires { call ≤ length self.now.state.calls }
        ensures left { left_since_of self.now.state 0 result (contents_inside self.now.state call).text }
        ensures inside { SameBut (IsInSome (contents_inside self.now.state call).ranges)
            (contents_inside self.now.state call).image result }
        ensures settled { (contents_inside self.now.state call).ranges ≡ []
            → result ≡ (contents_inside self.now.state call).image }
        ensures zero { call ≡ 0 → result ≡ self.now.state.start }
    {
        let mut image = [0; N];
        let mut settled = [0; N];
        let mut left = [0; N];
        self.state
            .cut_into(call, fill, &mut image, &mut settled, &mut left);
        left
    }

    /// Puts into `left` the image that `cut` gives, for a store too large for the stack. `image` and `settled` are room
    /// of the store's size.
    pub fn cut_into(
        &self,
        call: u64,
        fill: Fill,
        image: &mut [u8],
        settled: &mut [u8],
        left: &mut [u8],
    )
        requires call { call ≤ length self.now.state.calls }
        requires image { length image.old ≡ N }
        requires settled { length settled.old ≡ N }
        requires left { length left.old ≡ N }
        ensures left { left_since_of self.now.state 0 left.new (contents_inside self.now.state call).text }
        ensures inside { SameBut (IsInSome (contents_inside self.now.state call).ranges)
            (contents_inside self.now.state call).image left.new }
        ensures settled { (contents_inside self.now.state call).ranges ≡ []
            → left.new ≡ (contents_inside self.now.state call).image }
        ensures zero { call ≡ 0 → left.new ≡ self.now.state.start }
    {
        self.state.cut_into(call, fill, image, settled, left);
    }
}

impl<const N: usize, L: Ledger> Printer<N, L> for MemoryDevice<N> {
    ghost tells_image = { Unit {0} };

    ghost tells_text = { Unit {0} };

    ghost image = { λ b. image_of b.state };

    ghost in_flight = { λ b. in_flight_of b.state };

    ghost printed = { λ b. text_of b.state };

    ghost moment = { λ b. moment_of b.state };

    ghost left_since = { λ b. left_since_of b.state };

    ghost faults = { λ b. faults_of b.state };

    ghost store = { λ b _. b.is_image };

    ghost counts_now = { λ b start left_image left_text _ _ le now.
        counts_now (opened b.state.start) b.state.calls start left_image left_text le now };

    ghost only_now = { λ b left_image left_text left.
        only_now (opened b.state.start) b.state.calls left_image left_text left };

    fn print(&mut self, bytes: &[u8], steps: &mut Steps<L>) -> Result<(), Failed>
        requires some { 0 < length bytes.now }
        requires few { length bytes.now ≤ piece_size }
        ensures prints { PrintsPiece self.old.state bytes.now self.new.state result }
        ensures step { steps.new ≡ steps.old + 1 }
    {
        steps.spend();
        self.state.keep_print(bytes)
    }
}

impl<const N: usize, L: Ledger> Board<N, L> for MemoryDevice<N> {
    fn read(&mut self, at: u32, buf: &mut [u8], steps: &mut Steps<L>) -> Result<(), Failed>
        requires { IsPiece N at (length buf.old) }
        ensures reads { ReadsPiece self.old.state at buf.old buf.new self.new.state result }
        ensures step { steps.new ≡ steps.old + 1 }
    {
        steps.spend();
        self.state.keep_read(at, buf)
    }

    fn write_at(&mut self, at: u32, bytes: &[u8], steps: &mut Steps<L>) -> Result<(), Failed>
        requires { IsPiece N at (length bytes.now) }
        ensures writes { WritesPiece self.old.state at bytes.now self.new.state result }
        ensures step { steps.new ≡ steps.old + 1 }
    {
        steps.spend();
        self.state.keep_write(at, bytes)
    }

    fn sync(&mut self, steps: &mut Steps<L>) -> Result<(), Failed>
        ensures syncs { SyncsStore self.old.state self.new.state result }
        ensures step { steps.new ≡ steps.old + 1 }
    {
        steps.spend();
        self.state.keep_sync()
    }
}
