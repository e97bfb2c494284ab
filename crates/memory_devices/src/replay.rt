//! Goes through the kept calls of a board again, up to a cut.
ghost use Rattle.std.specs.Prelude.{ℕ, ◌+◌, ◌≡◌, ◌≤◌, List, length};
ghost use Rattle.memory_devices.specs.{Calls.{Contents, after, begun, overwrite}, Replays.{AreLeftOf, call_end}};
ghost use Rattle.memory_devices.specs.Common.{IsWithin, SameBut};

use crate::kept_call::{KeptCall, Request};

/// What the bytes in flight are after a cut.
#[derive(Clone, Copy, Debug)]
pub enum Fill {
    /// The bytes of the last good sync.
    Old,

    /// The bytes that were written last, those of the call itself too.
    New,

    /// In the first half of each range, rounded down, the bytes that were written, and those of the last good sync in
    /// its rest. If ranges overlap, the later one decides.
    Half,

    /// This byte at each place.
    Byte(u8),
}

/// Puts into `left` what a cut inside a call leaves of the bytes that the call writes.
pub(crate) fn begin(settled: &[u8], left: &mut [u8], kept: &KeptCall, fill: Fill)
    requires inside { call_end kept.now.call ≤ length left.old }
    requires alike { length settled.now ≡ length left.old }
    ensures { (held : Contents) (image : List ℕ) → AreLeftOf held image left.old
        → AreLeftOf (begun held kept.now.call) image left.new }
{
    if let Request::Write(at, bytes) = &kept.request {
        put_fill(left, settled, *at as usize, bytes, fill);
    }
}

/// Makes of the images before a call those after it: what a read gives, what the last good sync had, and what a cut
/// leaves.
pub(crate) fn pass(
    image: &mut [u8],
    settled: &mut [u8],
    left: &mut [u8],
    kept: &KeptCall,
    fill: Fill,
)
    requires inside { call_end kept.now.call ≤ length left.old }
    requires image { length image.old ≡ length left.old }
    requires settled { length settled.old ≡ length left.old }
    ensures { (held : Contents) → AreLeftOf held image.old left.old
        → AreLeftOf (after held kept.now) image.new left.new }
{
    begin(settled, left, kept, fill);
    if kept.failed {
        return;
    }
    match &kept.request {
        Request::Read | Request::Print(_) => {}
        Request::Sync => {
            settled.copy_from_slice(image);
            left.copy_from_slice(image);
        }
        Request::Write(at, bytes) => put(image, *at as usize, bytes),
    }
}

/// Puts bytes from a place on.
pub(crate) fn put(image: &mut [u8], from: usize, bytes: &[u8])
    requires { from + length bytes.now ≤ length image.old }
    ensures put { image.new ≡ overwrite from bytes.now image.old }
    ensures same { SameBut (IsWithin from (length bytes.now)) image.old image.new }
{
    image[from..from + bytes.len()].copy_from_slice(bytes);
}

/// Puts what a cut leaves of bytes that were written from a place on.
#[tactic(auto, using(crate::proofs::Overwriting::same_inside))]
fn put_fill(left: &mut [u8], settled: &[u8], from: usize, bytes: &[u8], fill: Fill)
    requires inside { from + length bytes.now ≤ length left.old }
    requires alike { length settled.now ≡ length left.old }
    ensures { SameBut (IsWithin from (length bytes.now)) left.old left.new }
{
    let to = from + bytes.len();
    match fill {
        Fill::Old => put(left, from, &settled[from..to]),
        Fill::New => put(left, from, bytes),
        Fill::Half => {
            let middle = from + bytes.len() / 2;
            put(left, from, &bytes[..middle - from]);
            put(left, middle, &settled[middle..to]);
        }
        Fill::Byte(byte) => left[from..to].fill(byte),
    }
}
