//! The command `check`.
ghost use Rattle.{std.specs.Prelude.{ℕ, List}, call_ends.specs.Carried.{no_board}};
ghost use Rattle.tariff_commands.specs.{Check.{check_command}, Common.{Carries}};

use call_ends::{Ended, read_tariff, refused_by};
use outside::Files;
use std::alloc::Global;

/// Reads the tariff of word 1, and says how many cells it has and its common measure.
pub fn check_tariff<F: Files>(alloc: Global, files: &mut F) -> Ended
    ensures { (image : List ℕ) → Carries F.Files (no_board image) check_command files.old files.new tt tt 0 0 result }
{
    match read_tariff(alloc, files, 1) {
        Ok(checked) => Ended::Sound(checked.cells(), checked.measure()),
        Err(fault) => refused_by(fault),
    }
}
