//! The meter on a store, and what it knows of it.
ghost use Rattle.std.specs.Prelude.{◌≡◌, None};
ghost use Rattle.meter_run.specs.Common.{IsLawful, Off, Seal, TableParts};

use meter_states::Core;
use slot_store::Place;
use totals_record::Durable;

/// What a powered meter knows of the store: the durable state of the pair of totals, and its place.
#[derive(Clone, Copy)]
pub(crate) struct Known {
    pub(crate) durable: Durable,
    pub(crate) place: Place,
}

/// A meter on a store. While it's off it knows nothing of the store, which is read as the supply comes.
#[derive(Drop)]
pub struct StoreMeter {
    pub(crate) core: Core,
    pub(crate) known: Option<Known>,
}

impl StoreMeter {
    /// A meter before the supply first comes.
    pub fn new() -> StoreMeter
        ensures off { result.core.state.operating ≡ Off }
        ensures lawful { (tables : TableParts) (seal : Seal) → IsLawful tables seal result.core }
        ensures unknown { result.known ≡ None }
    {
        StoreMeter {
            core: Core::off(),
            known: None,
        }
    }
}
