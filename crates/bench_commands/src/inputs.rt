//! What a text of a drive is made of, read into memory.
ghost use Rattle.{std.specs.Prelude.{ℕ, All, IfOk, List}, bench_commands.specs.Common.{Event, IsRunInRange, Setting}};
ghost use Rattle.bench_commands.specs.ExplainSteps.{ReadsInputs};

use crate::whole_drive::read_drive;
use call_ends::{Ended, read_tariff, refused_by};
use drive_text::Run;
use outside::Files;
use seal_record::Params;
use std::alloc::Global;
use store_commands::{read_parameters, refused_params};
use tariff_check::Checked;

/// A tariff, parameters, and the runs of a drive.
#[derive(Drop)]
pub struct Inputs {
    pub checked: Checked,
    pub params: Params,
    pub runs: Vec<Run>,
}

/// Reads the tariff of word 1, the parameters of word 3 and the drive of word 2.
pub fn read_inputs<F: Files>(alloc: Global, files: &mut F) -> Result<Inputs, Ended>
    ensures reads { (text : Setting → List Event → List ℕ) (image : List ℕ)
        → ReadsInputs F.Files text image files.old files.new result }
    ensures range { IfOk result (λ inputs. All IsRunInRange inputs.runs.items) }
{
    let checked = match read_tariff(alloc, files, 1) {
        Ok(checked) => checked,
        Err(fault) => return Err(refused_by(fault)),
    };
    let params = match read_parameters(alloc, files, 3) {
        Ok(params) => params,
        Err(fault) => return Err(refused_params(fault)),
    };
    let runs = read_drive(alloc, files, 2)?;
    Ok(Inputs {
        checked,
        params,
        runs,
    })
}
