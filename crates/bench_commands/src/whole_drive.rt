//! Reads a drive whole into memory.
ghost use Rattle.std.specs.Prelude.{◌↔◌, ◌≡◌, All, IfErr, IfOk, IsTrue, Some};
ghost use Rattle.bench_commands.specs.BenchSteps.{IsNoDrive, IsWholeDrive, fault_by};
ghost use Rattle.bench_commands.specs.Common.{IsRunInRange, ReadsWord};

use arrayvec::ArrayVec;
use call_ends::Ended;
use drive_source::{Source, Stop};
use drive_text::Run;
use outside::Files;
use std::alloc::Global;

/// Reads the drive of a word to its end, and gives its runs.
pub fn read_drive<F: Files>(alloc: Global, files: &mut F, word: usize) -> Result<Vec<Run>, Ended>
    ensures whole { F.tells → IfOk result (λ runs.
        IsWholeDrive (F.rest files.old word) (F.rest files.new word) runs.items) }
    ensures range { IfOk result (λ runs. All IsRunInRange runs.items) }
    ensures refused { F.tells → IfErr result (IsNoDrive (F.rest files.old word) (F.rest files.new word)) }
    ensures reads { ReadsWord F.Files word files.old files.new result }
{
    let mut source = Source::new();
    let mut part: ArrayVec<Run, 64> = ArrayVec::new();
    let mut runs = Vec::new(alloc);
    loop {
        let stop = source.next(files, word, &mut part);
        if has_failed(stop) {
            return Err(Ended::ReadFault);
        }
        match runs.extend_from_slice(part.as_slice()) {
            Ok(()) => {}
            Err(_) => return Err(Ended::NoMemory),
        }
        if let Some(stop) = stop {
            return match fault_of(stop) {
                None => Ok(runs),
                Some(why) => Err(why),
            };
        }
    }
}

/// Whether the reading of a drive stopped because a read failed.
fn has_failed(stop: Option<Stop>) -> bool
    ensures { IsTrue result ↔ (stop ≡ Some Stop.ReadFault) }
{
    match stop {
        Some(Stop::ReadFault) => true,
        _ => false,
    }
}

/// How a command ends by a drive whose reading stopped so, if that gives no runs.
fn fault_of(stop: Stop) -> Option<Ended>
    ensures { result ≡ fault_by stop }
{
    match stop {
        Stop::Whole => None,
        Stop::BadLine(line) => Some(Ended::BadDrive(line)),
        Stop::TooLong => Some(Ended::EndlessDrive),
        Stop::ReadFault => Some(Ended::ReadFault),
    }
}
