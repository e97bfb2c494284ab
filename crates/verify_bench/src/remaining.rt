//! What is left of a generated drive.
ghost use Rattle.std.specs.Prelude.{[], ◌++◌, ◌-◌, ◌<◌, ◌≡◌, ◌≤◌, length, min, take};
ghost use Rattle.{arrayvec.specs.ArrayVec.{array_vec_len}, verify_bench.specs.Generated.{generated}};

use crate::writing::Writing;

/// What was written of a drive, how many bytes of it were given, and how many trips are to come.
#[derive(Drop)]
pub(crate) struct Remaining {
    pub(crate) writing: Writing,
    pub(crate) given: usize,
    pub(crate) trips: u32,
}

impl Remaining {
    ghost use Rattle.verify_bench.specs.Left.{HasRoomForTrips, bytes_left};

    /// A whole drive.
    pub(crate) fn new(seed: u64, trips: u32) -> Remaining
        requires { (1 ≤ trips) × (trips ≤ 1000) }
        ensures left { bytes_left result ≡ generated seed trips }
        ensures sound { HasRoomForTrips result }
    {
        let mut writing = Writing::new(seed);
        writing.put_up();
        Remaining {
            writing,
            given: 0,
            trips,
        }
    }

    /// Moves the next bytes into the front of a buffer, and answers how many: some, if some are left and the buffer
    /// isn't empty.
    pub(crate) fn take(&mut self, buf: &mut [u8]) -> usize
        requires sound { HasRoomForTrips self.old }
        requires some { 0 < length buf.old }
        ensures within { result ≤ length buf.old }
        ensures taken { bytes_left self.old ≡ take result buf.new ++ bytes_left self.new }
        ensures over { result ≡ 0 → bytes_left self.old ≡ [] }
        ensures sound { HasRoomForTrips self.new }
    {
        self.write_on();
        self.give(buf)
    }

    /// Writes the next trip, if there is one and all that was written is given.
    fn write_on(&mut self)
        requires sound { HasRoomForTrips self.old }
        ensures left { bytes_left self.new ≡ bytes_left self.old }
        ensures sound { HasRoomForTrips self.new }
        ensures some { self.new.given ≡ array_vec_len self.new.writing.text → self.new.trips ≡ 0 }
    {
        if self.given < self.writing.text.len() {
            return;
        }
        if self.trips == 0 {
            return;
        }
        self.write_trip();
    }

    /// Writes the next trip, after all that was written is given.
    fn write_trip(&mut self)
        requires sound { HasRoomForTrips self.old }
        requires all { self.old.given ≡ array_vec_len self.old.writing.text }
        requires some { 0 < self.old.trips }
        ensures left { bytes_left self.new ≡ bytes_left self.old }
        ensures sound { HasRoomForTrips self.new }
        ensures some { self.new.given < array_vec_len self.new.writing.text }
    {
        self.given = 0;
        self.trips -= 1;
        self.writing.clear();
        self.writing.put_trip();
    }

    /// Gives bytes that are written.
    fn give(&mut self, buf: &mut [u8]) -> usize
        requires sound { HasRoomForTrips self.old }
        ensures count { result ≡ min (length buf.old) (array_vec_len self.old.writing.text - self.old.given) }
        ensures taken { bytes_left self.old ≡ take result buf.new ++ bytes_left self.new }
        ensures sound { HasRoomForTrips self.new }
    {
        let count = copy_front(buf, &self.writing.text.as_slice()[self.given..]);
        self.given += count;
        count
    }
}

/// Copies as many bytes as there are and have room, and answers how many.
fn copy_front(buf: &mut [u8], bytes: &[u8]) -> usize
    ensures count { result ≡ min (length buf.old) (length bytes.now) }
    ensures copied { take result buf.new ≡ take result bytes.now }
{
    let count = buf.len().min(bytes.len());
    buf[..count].copy_from_slice(&bytes[..count]);
    count
}
