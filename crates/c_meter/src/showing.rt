//! What a meter shows of a drive.
ghost use Rattle.std.specs.Prelude.{◌++◌, ◌<◌, ◌≡◌, ◌≤◌, ◌⊎◌, Err, IfErr, IfOk, IsErr, OnOk, length, take};
ghost use Rattle.{outside.specs.Faults.{Rose}, memory_devices.specs.MemoryBoard.{faults_of, text_of}};
ghost use Rattle.{memory_devices.specs.MemoryFiles.{rest_of}, meter_model.specs.Setting.{Setting}};
ghost use Rattle.{meter_states.specs.Setting.{IsSettingOf}, c_meter.specs.Shown.{ShowsDrive}};
ghost use Rattle.c_meter.specs.Common.{Whole, drive_end, drive_shown};
ghost use Rattle.c_meter.specs.Shown.{HasNoDrive, HasNoParams, HasNoRoom, HasNoTariff, IsNotWhole, IsOfLines};

use crate::making::{Stop, made_of};
use memory_devices::{MemoryBoard, MemoryFiles};
use meter_run::{RunFault, dry_run};
use outside::STORE_SIZE;
use seal_record::Seal;
use std::alloc::Global;
use std::sync::ledger::{Blank, Ledger};
use tariff_compile::Tables;
use taxi_units::Steps;

/// Puts lines into the caller's memory, and answers their length.
fn put_lines(lines: &[u8], text: &mut [u8]) -> Result<usize, Stop>
    ensures put { IfOk result (λ used. (used ≡ length lines.now) × (take used text.new ≡ lines.now)) }
    ensures within { IfOk result (λ used. used ≤ length text.old) }
    ensures no_room { IsErr result → length text.old < length lines.now }
    ensures why { IfErr result (λ stop. stop ≡ Stop.NoRoom) }
{
    let used = lines.len();
    if used > text.len() {
        return Err(Stop::NoRoom);
    }
    text[..used].copy_from_slice(lines);
    Ok(used)
}

/// Carries out the drive of word 0 on a board in memory, which gets the lines that are shown. `NoMemory` only if a call
/// of the files or of the board failed, so its count of faults rose.
fn carry_out<L: Ledger>(
    tables: &Tables,
    seal: &Seal,
    files: &mut MemoryFiles,
    board: &mut MemoryBoard,
    steps: &mut Steps<L>,
) -> Result<(), Stop>
    requires constant { tables.now.constant ≡ seal.now.params.constant }
    ensures shown { OnOk result ((s : Setting) → IsSettingOf s tables.now seal.now
        → text_of board.new.state ≡ text_of board.old.state ++ drive_shown s (rest_of files.old 0)) }
    ensures whole { OnOk result (drive_end (rest_of files.old 0) ≡ Whole) }
    ensures no_drive { result ≡ Err Stop.NoDrive → IsNotWhole (rest_of files.old 0) }
    ensures memory { result ≡ Err Stop.NoMemory → Rose files.old.failed files.new.failed
        ⊎ Rose (faults_of board.old.state) (faults_of board.new.state) }
    ensures why { IfErr result (λ stop. (stop ≡ Stop.NoDrive) ⊎ (stop ≡ Stop.NoMemory)) }
{
    match dry_run(tables, seal, files, 0, board, steps) {
        Ok(()) => Ok(()),
        Err(RunFault::BadDrive(_)) => Err(Stop::NoDrive),
        Err(RunFault::TooLong) => Err(Stop::NoDrive),
        // Both fail only if memory ran out.
        Err(RunFault::ReadFault) => Err(Stop::NoMemory),
        Err(RunFault::BoardFault) => Err(Stop::NoMemory),
    }
}

/// Carries out a drive on a board in memory, which gets the lines that are shown.
fn board_of<L: Ledger>(
    alloc: Global,
    tables: &Tables,
    seal: &Seal,
    drive: &[u8],
    steps: &mut Steps<L>,
) -> Result<MemoryBoard, Stop>
    requires constant { tables.now.constant ≡ seal.now.params.constant }
    ensures shown { IfOk result (λ board. (s : Setting) → IsSettingOf s tables.now seal.now
        → text_of board.state ≡ drive_shown s drive.now) }
    ensures whole { OnOk result (drive_end drive.now ≡ Whole) }
    ensures no_drive { result ≡ Err Stop.NoDrive → IsNotWhole drive.now }
    ensures why { IfErr result (λ stop. (stop ≡ Stop.NoDrive) ⊎ (stop ≡ Stop.NoMemory)) }
{
    let Ok(mut files) = MemoryFiles::new(alloc, &[]) else {
        return Err(Stop::NoMemory);
    };
    let Ok(()) = files.add(drive) else {
        return Err(Stop::NoMemory);
    };
    let Ok(mut board) = MemoryBoard::new(alloc, &[0; STORE_SIZE], &[]) else {
        return Err(Stop::NoMemory);
    };
    match carry_out(tables, seal, &mut files, &mut board, steps) {
        Ok(()) => Ok(board),
        Err(stop) => Err(stop),
    }
}

/// Puts the lines that a meter shows of a drive into the caller's memory, under its one counter of steps, and answers
/// their length.
pub(crate) fn show_drive<L: Ledger>(
    alloc: Global,
    tariff: &[u8],
    params: &[u8],
    drive: &[u8],
    text: &mut [u8],
    blank: Blank,
) -> Result<usize, Stop>
    requires name { blank.name ≡ L.name }
    requires parts { blank.parts ≡ L.parts }
    requires some { 0 < blank.parts }
    ensures shown { IfOk result (λ used. ShowsDrive tariff.now params.now drive.now (take used text.new)) }
    ensures within { IfOk result (λ used. used ≤ length text.old) }
    ensures no_tariff { result ≡ Err Stop.NoTariff → HasNoTariff tariff.now }
    ensures no_params { result ≡ Err Stop.NoParams → HasNoParams tariff.now params.now }
    ensures no_drive { result ≡ Err Stop.NoDrive → HasNoDrive tariff.now params.now drive.now }
    ensures no_room { result ≡ Err Stop.NoRoom → HasNoRoom tariff.now params.now drive.now (length text.old) }
    ensures memory { result ≡ Err Stop.NoMemory → IsOfLines tariff.now }
{
    let (tables, seal) = match made_of(alloc, tariff, params) {
        Ok(made) => made,
        Err(stop) => return Err(stop),
    };
    let mut steps: Steps<L> = Steps::open(blank);
    match board_of(alloc, &tables, &seal, drive, &mut steps) {
        Ok(board) => put_lines(board.printed(), text),
        Err(stop) => Err(stop),
    }
}
