//! The core: the state of the meter, and the cache beside it.
ghost use Rattle.std.specs.Prelude.{◌≡◌};
ghost use Rattle.meter_states.specs.{Common.{Off, Seal, TableParts}, Lawful.{IsLawful}};

use crate::cache::Cache;
use crate::meter_state::State;
use std::marker::Model;
use taxi_units::Operating;

/// The core: the meter's state, and what was looked up for it and still serves. It takes no memory.
#[derive(Drop)]
pub struct Core {
    pub(crate) state: State,
    pub(crate) cache: Cache,
}

impl Model for Core {
    ghost use Rattle.meter_states.specs.Cache.{CachedCore};

    ghost Value = { CachedCore };

    ghost view = { λ c. record { state = c.state; cache = c.cache } };
}

impl Core {
    /// A core that is off, as the meter begins, with an empty cache.
    pub fn off() -> Core
        ensures off { result.state.operating ≡ Off }
        ensures lawful { (tables : TableParts) (seal : Seal) → IsLawful tables seal result }
    {
        Core {
            state: State::off(),
            cache: Cache::empty(),
        }
    }

    /// The operating position.
    pub fn operating(&self) -> Operating
        ensures { result ≡ self.now.state.operating }
    {
        self.state.operating
    }
}
