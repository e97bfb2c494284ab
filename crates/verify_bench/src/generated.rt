//! What a generated drive means.
ghost use Rattle.std.specs.Prelude.{ℕ, ◌<◌, ◌≡◌, ◌≤◌, None, length};
ghost use Rattle.drive_text.specs.{Drive.{events_in}, Ending.{stream_limit}};
ghost use Rattle.verify_bench.specs.{Common.{bad_at_end, runs_in}, Generated.{generated, generated_lines}};

use crate::writing::Writing;

/// How many events the generated drive of a seed and of 1 to 1,000 trips has. No memory.
pub fn generated_events(seed: u64, trips: u32) -> u64
    requires { (1 ≤ trips) × (trips ≤ 1000) }
    ensures { result ≡ length (events_in (generated seed trips)) }
{
    let mut writing = Writing::new(seed);
    writing.put_up();
    for trip in 0..trips {
        writing.clear_text();
        writing.put_trip();
    }
    writing.events
}

/// A law: each line of a generated drive is a line of a drive, and the drive means its lines in turn. It is shorter
/// than the bytes that are taken of a drive.
pub fn generated_drives_mean_their_lines()
    ensures good { (seed trips : ℕ) → trips ≤ 1000 → bad_at_end (generated seed trips) ≡ None }
    ensures lines { (seed trips : ℕ) → trips ≤ 1000 → runs_in (generated seed trips) ≡ generated_lines seed trips }
    ensures short { (seed trips : ℕ) → trips ≤ 1000 → length (generated seed trips) < stream_limit }
{}
