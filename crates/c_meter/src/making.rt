//! A meter made of two texts.
ghost use Rattle.std.specs.Prelude.{◌≡◌, ◌≤◌, ◌⊎◌, Err, IfErr, IfOk, IsErr, Ok, OnErr, OnOk, length};
ghost use Rattle.{seal_record.specs.{Ranges.{IsParams}, Reading.{params_read}}, meter_texts.specs.MadeOf.{AreMadeOf}};
ghost use Rattle.c_meter.specs.Common.{IsSound, Reads, tree_of};
ghost use Rattle.c_meter.specs.Shown.{HasNoParams, HasNoTariff, IsOfLines, status_of};

use seal_record::{Params, Seal, read_params};
use std::alloc::Global;
use tariff_check::{CheckFault, Checked, check};
use tariff_compile::{Tables, compile};
use tariff_syntax::{ParseFault, parse};

/// Why a drive isn't shown.
#[derive(Clone, Copy)]
pub(crate) enum Stop {
    /// The tariff is too long, has a bad line or isn't sound.
    NoTariff,
    /// The parameters are refused.
    NoParams,
    /// The drive has a bad line or is too long.
    NoDrive,
    /// The lines don't fit into the caller's memory.
    NoRoom,
    /// Memory ran out.
    NoMemory,
}

impl Stop {
    /// The status of this stop.
    pub(crate) fn status(self) -> u8
        ensures { result ≡ status_of self }
    {
        match self {
            Stop::NoTariff => 2,
            Stop::NoDrive => 3,
            Stop::NoRoom => 8,
            Stop::NoParams => 9,
            Stop::NoMemory => 12,
        }
    }
}

/// The sound tariff of a text. `NoMemory` comes only if the lines are those of a tariff, sound or not.
#[tactic(auto, using(tariff_syntax::proofs::Laws::parsed_is_writable))]
fn sound_tariff(alloc: Global, text: &[u8]) -> Result<Checked, Stop>
    ensures read { IfOk result (λ c. Reads text.now (tree_of c) × IsSound (tree_of c)) }
    ensures no_tariff { result ≡ Err Stop.NoTariff → HasNoTariff text.now }
    ensures memory { result ≡ Err Stop.NoMemory → IsOfLines text.now }
    ensures few { OnOk result (length text.now ≤ 65536) }
    ensures why { IfErr result (λ stop. (stop ≡ Stop.NoTariff) ⊎ (stop ≡ Stop.NoMemory)) }
{
    match parse(alloc, text) {
        Ok(tariff) => match check(alloc, tariff) {
            Ok(checked) => Ok(checked),
            Err(CheckFault::NoMemory) => Err(Stop::NoMemory),
            Err(_) => Err(Stop::NoTariff),
        },
        Err(ParseFault::NoMemory) => Err(Stop::NoMemory),
        Err(_) => Err(Stop::NoTariff),
    }
}

/// The parameters of a text. It takes no memory.
fn params_of(text: &[u8]) -> Result<Params, Stop>
    ensures said { IfOk result (λ params. params_read text.now ≡ Ok params) }
    ensures ranges { IfOk result IsParams }
    ensures no_params { OnErr result (IsErr (params_read text.now)) }
    ensures why { IfErr result (λ stop. stop ≡ Stop.NoParams) }
{
    match read_params(text) {
        Ok(params) => Ok(params),
        Err(_) => Err(Stop::NoParams),
    }
}

/// The tables of a tariff's text, and a seal with the parameters of the other text. The seal has no digest: only
/// receipts print one.
pub(crate) fn made_of(alloc: Global, tariff: &[u8], params: &[u8]) -> Result<(Tables, Seal), Stop>
    ensures made { IfOk result (λ made. AreMadeOf tariff.now params.now made.0 made.1) }
    ensures constant { IfOk result (λ made. made.0.constant ≡ made.1.params.constant) }
    ensures few { OnOk result (length tariff.now ≤ 65536) }
    ensures no_tariff { result ≡ Err Stop.NoTariff → HasNoTariff tariff.now }
    ensures no_params { result ≡ Err Stop.NoParams → HasNoParams tariff.now params.now }
    ensures memory { result ≡ Err Stop.NoMemory → IsOfLines tariff.now }
    ensures why { IfErr result (λ stop. (stop ≡ Stop.NoTariff) ⊎ ((stop ≡ Stop.NoParams) ⊎ (stop ≡ Stop.NoMemory))) }
{
    let checked = match sound_tariff(alloc, tariff) {
        Ok(checked) => checked,
        Err(stop) => return Err(stop),
    };
    let params = match params_of(params) {
        Ok(params) => params,
        Err(stop) => return Err(stop),
    };
    let Ok(tables) = compile(alloc, &checked, params.constant) else {
        return Err(Stop::NoMemory);
    };
    let seal = Seal {
        seal_number: 1,
        params,
        digest: [0; 32],
        decimals: tables.decimals(),
    };
    Ok((tables, seal))
}
