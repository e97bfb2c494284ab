//! The board of the log in memory, from bytes and back to bytes that stand on no stack.
ghost use Rattle.std.specs.Prelude.{[], ◌≡◌, ◌≤◌, IfOk, length};
ghost use Rattle.{outside.specs.Disk.{SameBut, log_size}, memory_devices.specs.Calls.{IsInSome}};
ghost use Rattle.memory_devices.specs.MemoryBoard.{IsNew, contents_inside, left_since_of, new_board};

use memory_devices::{Fill, MemoryLog};
use outside::LOG_SIZE;
use std::alloc::Global;
use taxi_units::NoMemory;

/// A board at moment 0 with these bytes in its store. The calls with the numbers in `fail` will fail. `NoMemory` only
/// if there is no memory.
pub fn memory_log(alloc: Global, image: &[u8], fail: &[u64]) -> Result<MemoryLog, NoMemory>
    requires { length image.now ≡ log_size }
    ensures state { IfOk result (λ b. b.state ≡ new_board image.now fail.now) }
    ensures new { IfOk result (λ b. IsNew image.now b.state) }
{
    MemoryLog::new(alloc, whole(image), fail)
}

/// The image that the board's `cut` gives. `NoMemory` only if there is no memory.
pub fn cut_of(alloc: Global, log: &MemoryLog, call: u64, fill: Fill) -> Result<Vec<u8>, NoMemory>
    requires { call ≤ length log.now.state.calls }
    ensures size { IfOk result (λ cut. length cut.items ≡ log_size) }
    ensures left { IfOk result
        (λ cut. left_since_of log.now.state 0 cut.items (contents_inside log.now.state call).text) }
    ensures inside { IfOk result (λ cut. SameBut (IsInSome (contents_inside log.now.state call).ranges)
        (contents_inside log.now.state call).image cut.items) }
    ensures settled { IfOk result (λ cut. (contents_inside log.now.state call).ranges ≡ []
        → cut.items ≡ (contents_inside log.now.state call).image) }
    ensures zero { IfOk result (λ cut. call ≡ 0 → cut.items ≡ log.now.state.start) }
{
    let mut image = room(alloc)?;
    let mut settled = room(alloc)?;
    let mut left = room(alloc)?;
    log.cut_into(
        call,
        fill,
        image.as_mut_slice(),
        settled.as_mut_slice(),
        left.as_mut_slice(),
    );
    Ok(left)
}

/// The bytes of a store, as an array of their number.
fn whole(image: &[u8]) -> &[u8; LOG_SIZE]
    requires { length image.now ≡ log_size }
    ensures { result.now ≡ image.now }
{
    match <&[u8; LOG_SIZE]>::try_from(image) {
        Ok(whole) => whole,
        Err(_) => unreachable!(),
    }
}

/// As many bytes as the store has, each of them zero.
fn room(alloc: Global) -> Result<Vec<u8>, NoMemory>
    ensures { IfOk result (λ room. length room.items ≡ log_size) }
{
    match vec![in alloc; 0u8; LOG_SIZE] {
        Ok(room) => Ok(room),
        Err(_) => Err(NoMemory),
    }
}
