//! Reads the parameters of a word.
ghost use Rattle.std.specs.Prelude.{[], ℕ, ◌≡◌, ◌≢◌, Err, IfOk, OnOk};
ghost use Rattle.seal_record.specs.{Ranges.{IsParams}, Reading.{params_read}};
ghost use Rattle.store_commands.specs.{Common.{LeavesOthers, Rose}, StoreEnds.{ended_for_params}};

use call_ends::Ended;
use outside::{Files, read_text};
use seal_record::{ParamFault, Params, read_params};
use std::alloc::Global;

/// Why parameters weren't read.
#[derive(Clone, Copy)]
pub enum ParamsFault {
    /// A read failed.
    ReadFault,
    /// The parameters aren't accepted.
    Refused(ParamFault),
    /// Memory ran out.
    NoMemory,
}

/// How many bytes a parameter text has at most.
const MOST: usize = 65_536;

/// Reads the parameters of a word, to the end of its file if they are accepted. `NoMemory`: nothing was read.
#[tactic(auto, unfolding(seal_record::specs::Reading::params_read))]
pub fn read_parameters<F: Files>(
    alloc: Global,
    files: &mut F,
    word: usize,
) -> Result<Params, ParamsFault>
    ensures found { F.tells → IfOk result (λ params. params_read (F.rest files.old word) ≡ Ok params) }
    ensures ranges { IfOk result IsParams }
    ensures ended { F.tells → OnOk result (F.rest files.new word ≡ []) }
    ensures refused { (why : ParamFault) → F.tells → result ≡ Err (ParamsFault.Refused why)
        → params_read (F.rest files.old word) ≡ Err why }
    ensures memory { result ≡ Err ParamsFault.NoMemory → files.new ≡ files.old }
    ensures read_fault { result ≡ Err ParamsFault.ReadFault → Rose (F.faults files.old word) (F.faults files.new word) }
    ensures others { LeavesOthers F.rest word files.old files.new }
    ensures counts { result ≢ Err ParamsFault.ReadFault
        → (other : ℕ) → F.faults files.new other ≡ F.faults files.old other }
{
    match read_text(alloc, files, word, MOST) {
        Ok(text) => match read_params(text.as_slice()) {
            Ok(params) => Ok(params),
            Err(fault) => Err(ParamsFault::Refused(fault)),
        },
        Err(outside::TextFault::TooLong) => Err(ParamsFault::Refused(ParamFault::TooLong)),
        Err(outside::TextFault::DeviceFailed) => Err(ParamsFault::ReadFault),
        Err(outside::TextFault::NoMemory) => Err(ParamsFault::NoMemory),
    }
}

/// How a command ended that couldn't read its parameters.
pub fn refused_params(fault: ParamsFault) -> Ended
    ensures { result ≡ ended_for_params fault }
{
    match fault {
        ParamsFault::ReadFault => Ended::ReadFault,
        ParamsFault::Refused(why) => Ended::BadParams(why),
        ParamsFault::NoMemory => Ended::NoMemory,
    }
}
