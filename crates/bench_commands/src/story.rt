//! The command `story`.
ghost use Rattle.std.specs.Prelude.{ℕ, ◌≡◌, All, IfOk, List};
ghost use Rattle.bench_commands.specs.Common.{Carries, IsRunInRange, Makes, end_made, text_made};
ghost use Rattle.bench_commands.specs.{ExplainSteps.{text_of_inputs}, Story.{story_command, telling_text}};

use crate::inputs::{Inputs, read_inputs};
use crate::story_text::text_of_stories;
use call_ends::{Ended, Made, print_made};
use outside::{Files, Printer, STORE_SIZE};
use std::alloc::Global;
use std::sync::ledger::Ledger;
use taxi_units::{NoMemory, Steps};
use verify_bench::narrate;

/// Reads the tariff of word 1, the parameters of word 3 and the drive of word 2, and prints what happened in each of
/// its hirings, moment by moment, as on a new store. It prints nothing before all is known, and opens no store.
pub fn tell_stories<F: Files, B: Printer<STORE_SIZE, L>, L: Ledger>(
    alloc: Global,
    files: &mut F,
    board: &mut B,
    steps: &mut Steps<L>,
) -> Ended
    ensures { Carries F.Files B.Printer story_command files.old files.new board.old board.new
        steps.old steps.new result }
{
    print_made(telling(alloc, files), board, steps)
}

/// Reads the words in turn, and gives what is printed of the drive. Nothing is left of what was read.
fn telling<F: Files>(alloc: Global, files: &mut F) -> Result<Made, Ended>
    ensures { (image : List ℕ) → Makes F.Files story_command image files.old files.new
        (text_made result) (end_made result) }
{
    let inputs = match read_inputs(alloc, files) {
        Ok(inputs) => inputs,
        Err(why) => return Err(why),
    };
    match told_by(alloc, &inputs) {
        Ok(text) => Ok(Made {
            text,
            ended: Ended::Done,
        }),
        Err(_) => Err(Ended::NoMemory),
    }
}

/// The text by which the stories of the hirings of a drive are told.
fn told_by(alloc: Global, inputs: &Inputs) -> Result<Vec<u8>, NoMemory>
    requires { All IsRunInRange inputs.now.runs.items }
    ensures { IfOk result (λ text. text.items ≡ text_of_inputs telling_text inputs.now) }
{
    let stories = narrate(
        alloc,
        &inputs.checked,
        &inputs.params,
        inputs.runs.as_slice(),
    )?;
    text_of_stories(alloc, inputs.checked.decimals(), stories.as_slice())
}
