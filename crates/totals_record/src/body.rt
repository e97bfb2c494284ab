//! A durable state as the body of a slot.
ghost use Rattle.totals_record.specs.{Ranges.{IsDurable, state_number_of}, Reading.{reads}, Spelling.{spelling}};

use crate::Durable;
use crate::ranges::is_durable;
use crate::table::{decode, spell};
use slot_bodies::{BODY_SIZE, Body};

impl Body for Durable {
    ghost use Rattle.totals_record.specs.Reading.{states_are_bodies};

    ghost valid = { IsDurable };

    ghost number_of = { state_number_of };

    ghost spelling = { spelling };

    ghost reads = { reads };

    ghost bodies = { states_are_bodies };

    fn number(&self) -> u64 {
        self.number
    }

    fn put(&self, out: &mut [u8; BODY_SIZE]) {
        *out = spell(self);
    }

    fn get(bytes: &[u8; BODY_SIZE]) -> Option<Durable> {
        let durable = decode(bytes);
        if !is_durable(&durable) {
            return None;
        }
        if spell(&durable) != *bytes {
            return None;
        }
        Some(durable)
    }
}
