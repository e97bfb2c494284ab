//! The command `seal`.
ghost use Rattle.std.specs.{Option.{ForSome}, Prelude.{[], ◌<◌, ◌≡◌, ◌≢◌, ◌≤◌, ◌⊎◌, Err, IfOk, Ok, OnOk}};
ghost use Rattle.{slot_store.specs.Scan.{IsValidFinding}, meter_store.specs.Sealing.{seal_found, totals_found}};
ghost use Rattle.store_commands.specs.Common.{Carries, IsOfLines, IsSeal, found_number, last_seal_number, next_number};
ghost use Rattle.store_commands.specs.{Opened.{IsOpeningInRange}, ReadInTurn.{HasFailed, ReadsInTurn}};
ghost use Rattle.store_commands.specs.Seal.{HasDecimals, MayLackTexts, seal_command, seal_read};
ghost use Rattle.store_commands.specs.SealSteps.{IsNoSeal, IsNoTariff, IsTariffWith, SealReachesLine};
ghost use Rattle.store_commands.specs.Seal as spec;

use crate::opening::{Opening, open_store, refused_store};
use crate::params::{read_parameters, refused_params};
use call_ends::{Ended, refused_by, tariff_of_text, text_of_word};
use meter_store::place_seal;
use outside::{Board, Files, STORE_SIZE};
use seal_record::{LAST_SEAL_NUMBER, Seal};
use sha2::{Digest, Sha256};
use slot_store::{Found, Place};
use std::alloc::Global;
use std::sync::ledger::Ledger;
use taxi_units::Steps;
use totals_record::Durable;

/// What a sealing starts from: the totals and the seal that were found, and the decimals of that seal.
#[derive(Drop)]
pub struct Base {
    pub totals: Option<Durable>,
    pub found: Option<(Place, u64)>,
    pub decimals: Option<u8>,
}

/// What a sealing starts from. `TripHeld`: the totals hold a trip. `SealEnded`: the found seal has the last number.
fn base_of(opening: Opening) -> Result<Base, Ended>
    requires { IsOpeningInRange opening }
    ensures answer { result ≡ spec.over_totals opening.totals opening.seal }
    ensures totals { IfOk result (λ base. base.totals ≡ totals_found opening.totals) }
    ensures found { IfOk result (λ base. base.found ≡ seal_found opening.seal) }
    ensures slot { IfOk result (λ base. ForSome base.found (λ latest. latest.0.slot ≤ 1)) }
    ensures number { IfOk result (λ base. ForSome base.found (λ latest. latest.1 < last_seal_number)) }
    ensures refused { (ended : Ended) → result ≡ Err ended → (ended ≡ Ended.TripHeld) ⊎ (ended ≡ Ended.SealEnded) }
{
    match opening.totals {
        Found::Blank => over_seal(None, opening.seal),
        Found::Latest { body: durable, .. } => {
            if durable.hold.is_some() {
                return Err(Ended::TripHeld);
            }
            over_seal(Some(durable), opening.seal)
        }
    }
}

/// What a sealing starts from, if the totals hold no trip.
fn over_seal(totals: Option<Durable>, seal: Found<Seal>) -> Result<Base, Ended>
    requires { IsValidFinding IsSeal seal }
    ensures answer { result ≡ spec.over_seal totals seal }
    ensures totals { IfOk result (λ base. base.totals ≡ totals) }
    ensures found { IfOk result (λ base. base.found ≡ seal_found seal) }
    ensures slot { IfOk result (λ base. ForSome base.found (λ latest. latest.0.slot ≤ 1)) }
    ensures number { IfOk result (λ base. ForSome base.found (λ latest. latest.1 < last_seal_number)) }
    ensures refused { (ended : Ended) → result ≡ Err ended → ended ≡ Ended.SealEnded }
{
    match seal {
        Found::Blank => Ok(Base {
            totals,
            found: None,
            decimals: None,
        }),
        Found::Latest { place, body: seal } => {
            if seal.seal_number == LAST_SEAL_NUMBER {
                return Err(Ended::SealEnded);
            }
            Ok(Base {
                totals,
                found: Some((place, seal.seal_number)),
                decimals: Some(seal.decimals),
            })
        }
    }
}

/// Whether a tariff has the decimals of the found seal, if there is one.
fn are_decimals(found: Option<u8>, own: u8) -> Result<(), Ended>
    ensures { result ≡ spec.are_decimals found own }
{
    match found {
        None => Ok(()),
        Some(found) => {
            if found == own {
                Ok(())
            } else {
                Err(Ended::OtherDecimals(found, own))
            }
        }
    }
}

/// The decimals of a text's tariff, if they are those of the found seal, or none was found.
fn decimals_of(alloc: Global, text: &[u8], found: Option<u8>) -> Result<u8, Ended>
    ensures range { IfOk result (λ decimals. decimals ≤ 3) }
    ensures sound { IfOk result (λ decimals. IsTariffWith found decimals text.now) }
    ensures refused { (ended : Ended) → result ≡ Err ended → IsNoTariff found text.now ended }
    ensures memory { result ≡ Err Ended.NoMemory → IsOfLines text.now }
{
    let decimals = match tariff_of_text(alloc, text) {
        Ok(checked) => checked.decimals(),
        Err(fault) => return Err(refused_by(fault)),
    };
    are_decimals(found, decimals)?;
    Ok(decimals)
}

/// Reads the tariff of word 1 and the parameters of word 2, and makes a seal of them.
fn read_seal<F: Files>(
    alloc: Global,
    files: &mut F,
    number: u64,
    found: Option<u8>,
) -> Result<Seal, Ended>
    requires { 1 ≤ number × number ≤ last_seal_number }
    ensures valid { IfOk result IsSeal }
    ensures number { IfOk result (λ seal. seal.seal_number ≡ number) }
    ensures read { F.tells
        → IfOk result (λ seal. seal_read number found (F.rest files.old 1) (F.rest files.old 2) ≡ Ok seal) }
    ensures tariff_ended { F.tells → OnOk result (F.rest files.new 1 ≡ []) }
    ensures params_ended { F.tells → OnOk result (F.rest files.new 2 ≡ []) }
    ensures refused { (why : Ended) → F.tells → result ≡ Err why
        → IsNoSeal number found (F.rest files.old 1) (F.rest files.old 2) (HasFailed F.Files files.old files.new) why }
    ensures memory { F.tells → result ≡ Err Ended.NoMemory → MayLackTexts (F.rest files.old) (F.rest files.new) }
    ensures not_board { result ≢ Err Ended.BoardFault }
    ensures reads { ReadsInTurn F.Files 1 2 (HasDecimals found (F.rest files.old 1)) (result ≡ Err Ended.ReadFault)
        files.old files.new }
{
    let text = match text_of_word(alloc, files, 1) {
        Ok(text) => text,
        Err(fault) => return Err(refused_by(fault)),
    };
    let decimals = decimals_of(alloc, text.as_slice(), found)?;
    let params = match read_parameters(alloc, files, 2) {
        Ok(params) => params,
        Err(fault) => return Err(refused_params(fault)),
    };
    Ok(Seal {
        seal_number: number,
        params,
        digest: Sha256::digest(text.as_slice()),
        decimals,
    })
}

/// The number of the new seal.
fn number_after(found: Option<(Place, u64)>) -> u64
    requires { ForSome found (λ latest. latest.1 < last_seal_number) }
    ensures value { result ≡ next_number (found_number found) }
    ensures range { 1 ≤ result × result ≤ last_seal_number }
{
    match found {
        None => 1,
        Some((_, number)) => number + 1,
    }
}

/// Scans the store, reads the tariff of word 1 and the parameters of word 2, and seals the store with them. Totals that
/// were found stay, and else they begin at zero.
pub fn seal_store<F: Files, B: Board<STORE_SIZE, L>, L: Ledger>(
    alloc: Global,
    files: &mut F,
    board: &mut B,
    steps: &mut Steps<L>,
) -> Ended
    ensures carries { Carries F.Files B.Printer seal_command files.old files.new board.old board.new
        steps.old steps.new result }
    ensures memory { F.tells → result ≡ Ended.NoMemory → MayLackTexts (F.rest files.old) (F.rest files.new) }
    ensures comes { F.tells → B.tells_image → SealReachesLine F.Files B.Printer files.old board.old board.new result }
{
    let opening = match open_store(board, steps) {
        Ok(opening) => opening,
        Err(fault) => return refused_store(fault),
    };
    let base = match base_of(opening) {
        Ok(base) => base,
        Err(ended) => return ended,
    };
    let number = number_after(base.found);
    let seal = match read_seal(alloc, files, number, base.decimals) {
        Ok(seal) => seal,
        Err(ended) => return ended,
    };
    match place_seal(board, base.totals, base.found, &seal, steps) {
        Ok(()) => Ended::Sealed(number),
        Err(_) => Ended::BoardFault,
    }
}
