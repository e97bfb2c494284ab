//! The seal that stands in for a store's in the command `fare`.
ghost use Rattle.std.specs.Prelude.{[], ◌∷◌, ◌≡◌, codes, pos, replicate};
ghost use Rattle.{seal_record.specs.Limits.{first_day}, drive_commands.specs.Common.{Single, first_second}};

use arrayvec::ArrayVec;
use drive_modes::{Constant, Mode};
use interval_clock::Offsets;
use seal_record::{FIRST_DAY, Params, Seal};
use taxi_units::FIRST_SECOND;

/// The seal of a meter without a store: in mode S, with a hold of a minute, and local time that is UTC.
/// It is the first of the taxi `DRY`, secured on the first day of 2000, for a tariff of these decimals
/// whose digest is zeros. This project's own.
pub fn fare_seal(constant: Constant, decimals: u8) -> Seal
    ensures number { result.seal_number ≡ 1 }
    ensures taxi { result.params.taxi.items ≡ codes "DRY" }
    ensures constant { result.params.constant ≡ constant }
    ensures mode { result.params.mode ≡ Single }
    ensures hold { result.params.hold_time ≡ 60 }
    ensures offsets { result.params.offsets ≡ (first_second, pos 0) ∷ [] }
    ensures secured { result.params.secured ≡ pos first_day }
    ensures digest { result.digest ≡ replicate 32 0 }
    ensures decimals { result.decimals ≡ decimals }
{
    let mut taxi = ArrayVec::new();
    taxi.push(b'D');
    taxi.push(b'R');
    taxi.push(b'Y');
    Seal {
        seal_number: 1,
        params: Params {
            taxi,
            constant,
            mode: Mode::Single,
            hold_time: 60,
            offsets: utc(),
            secured: FIRST_DAY,
        },
        digest: [0; 32],
        decimals,
    }
}

/// The offsets of local time that is UTC.
#[tactic(auto, using(crate::proofs::TariffDrives::is_utc))]
fn utc() -> Offsets
    ensures { result ≡ (first_second, pos 0) ∷ [] }
{
    Offsets::from_pairs(&[(FIRST_SECOND, 0)]).unwrap()
}
