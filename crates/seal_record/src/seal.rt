//! The seal: the parameters with the digest and the decimals of the tariff that they were sealed with.

use crate::decoding::seal_in;
use crate::names::is_text;
use crate::params::Params;
use crate::spelling::spell;
use slot_bodies::{BODY_SIZE, Body};

/// How many bytes a digest has.
pub(crate) const DIGEST_SIZE: usize = 32;

/// What a taximeter is sealed with.
#[derive(Drop)]
pub struct Seal {
    /// How often the store was sealed, 1 to 10^15.
    pub seal_number: u64,
    /// The secured parameters.
    pub params: Params,
    /// The SHA-256 of the tariff's text.
    pub digest: [u8; DIGEST_SIZE],
    /// The decimals of the tariff's money, 0 to 3.
    pub decimals: u8,
}

/// A seal is the body of a slot of the pair at place 1,024 of the store. docs/STORE.md has the table of
/// its bytes, and `IsSeal` its ranges.
impl Body for Seal {
    ghost use Rattle.seal_record.specs.{Decoding.{reads}, Ranges.{IsSeal, seal_number_of}, SealLaws.{seals_are_bodies}};
    ghost use Rattle.seal_record.specs.Spelling.{spelling};

    ghost valid = { IsSeal };

    ghost number_of = { seal_number_of };

    ghost spelling = { spelling };

    ghost reads = { reads };

    ghost bodies = { seals_are_bodies };

    fn number(&self) -> u64 {
        self.seal_number
    }

    fn put(&self, out: &mut [u8; BODY_SIZE]) {
        out.copy_from_slice(spell(self).as_slice());
    }

    fn get(bytes: &[u8; BODY_SIZE]) -> Option<Seal> {
        let seal = seal_in(bytes)?;
        if !is_text(spell(&seal).as_slice(), bytes) {
            return None;
        }
        Some(seal)
    }
}
