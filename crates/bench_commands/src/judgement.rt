//! Judges readings by a drive.
ghost use Rattle.std.specs.Prelude.{ℕ, ◌≡◌, All, IfErr, IfOk, List, Ok, flat_map};
ghost use Rattle.store_commands.specs.{Opened.{also_told}, SealedTariff.{MayLackSealed}};
ghost use Rattle.bench_commands.specs.Bench.{bench_command, ended_for_readings};
ghost use Rattle.bench_commands.specs.BenchSteps.{AreRefused, IsSealedBy, ended_with, judged_pass, judged_text};
ghost use Rattle.bench_commands.specs.Common.{FailsOr, IsRunInRange, Makes, ReadsWord, end_made, readings_in};
ghost use Rattle.bench_commands.specs.Common.{run_events, text_made, tree_of};

use crate::whole_drive::read_drive;
use call_ends::{Ended, Made};
use drive_text::Run;
use outside::{Files, TextFault, read_text};
use seal_record::Seal;
use std::alloc::Global;
use store_commands::read_sealed;
use tariff_check::Checked;
use taxi_units::NoMemory;
use verify_bench::{
    Reading, ReadingsFault, cross_overs, do_all_pass, expect, read_readings, report,
};

/// How many bytes a text of readings has at most.
const MOST: usize = 1_048_576;

/// Reads the sealed tariff of word 1, the drive of word 2 and the readings of word 3, and gives what is printed of
/// them.
pub fn judgement<F: Files>(alloc: Global, seal: &Seal, files: &mut F) -> Result<Made, Ended>
    ensures makes { (image : List ℕ) → Makes (also_told F.Files (IsSealedBy image seal.now)) bench_command image
        files.old files.new (text_made result) (end_made result) }
    ensures memory { F.tells → end_made result ≡ Ended.NoMemory
        → MayLackSealed seal.now.digest (F.rest files.old 1) (F.rest files.new 1) }
{
    let checked = read_sealed(alloc, files, &seal.digest)?;
    let runs = read_drive(alloc, files, 2)?;
    let readings = readings_of_word(alloc, files, 3, checked.decimals())?;
    match judge_readings(alloc, &checked, seal, runs.as_slice(), readings.as_slice()) {
        Ok(made) => Ok(made),
        Err(_) => Err(Ended::NoMemory),
    }
}

/// How the command ended that couldn't read its readings.
fn refused_readings(fault: ReadingsFault) -> Ended
    ensures { result ≡ ended_for_readings fault }
{
    match fault {
        ReadingsFault::TooLong => Ended::LongReadings,
        ReadingsFault::BadRow(row) => Ended::BadReadings(row),
        ReadingsFault::NoMemory => Ended::NoMemory,
    }
}

/// Reads the readings of a word, to the end of its file if they are accepted.
fn readings_of_word<F: Files>(
    alloc: Global,
    files: &mut F,
    word: usize,
    decimals: u8,
) -> Result<Vec<Reading>, Ended>
    ensures found { F.tells → IfOk result (λ readings.
        readings_in decimals (F.rest files.old word) ≡ Ok readings.items) }
    ensures refused { F.tells → IfErr result (FailsOr (AreRefused decimals (F.rest files.old word))) }
    ensures reads { ReadsWord F.Files word files.old files.new result }
{
    match read_text(alloc, files, word, MOST) {
        Ok(text) => match read_readings(alloc, text.as_slice(), decimals) {
            Ok(readings) => Ok(readings),
            Err(fault) => Err(refused_readings(fault)),
        },
        Err(TextFault::TooLong) => Err(Ended::LongReadings),
        Err(TextFault::DeviceFailed) => Err(Ended::ReadFault),
        Err(TextFault::NoMemory) => Err(Ended::NoMemory),
    }
}

/// Judges readings by the runs of a drive, under a tariff and a seal.
fn judge_readings(
    alloc: Global,
    checked: &Checked,
    seal: &Seal,
    runs: &[Run],
    readings: &[Reading],
) -> Result<Made, NoMemory>
    requires { All IsRunInRange runs.now }
    ensures text { IfOk result (λ made. made.text.items
        ≡ judged_text (record { seal = seal.now; tree = tree_of checked.now }) (flat_map run_events runs.now)
        readings.now) }
    ensures ended { IfOk result (λ made. made.ended
        ≡ ended_with (judged_pass (record { seal = seal.now; tree = tree_of checked.now })
        (flat_map run_events runs.now) readings.now)) }
{
    let (step, _) = checked.step();
    let decimals = checked.decimals();
    let expected = expect(alloc, checked, seal, runs)?;
    let mut text = cross_overs(alloc, checked)?;
    let rows = report(alloc, expected.as_slice(), readings, step, decimals)?;
    match text.extend_from_slice(rows.as_slice()) {
        Ok(()) => {}
        Err(_) => return Err(NoMemory),
    }
    let ended = judged(do_all_pass(expected.as_slice(), readings, step));
    Ok(Made { text, ended })
}

/// How the command ended that printed its report.
fn judged(pass: bool) -> Ended
    ensures { result ≡ ended_with pass }
{
    if pass { Ended::Done } else { Ended::NotPassed }
}
