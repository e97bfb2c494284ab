//! The stories of a drive, moment by moment.
ghost use Rattle.std.specs.Prelude.{[], ◌∷◌, ◌≡◌, OnOk};
ghost use Rattle.verify_bench.specs.{Story.{kind_in}, Told.{Adds}};

use crate::moment::{Happening, Moment, Story};
use std::alloc::Global;
use std::mem;
use taxi_units::{Kind, NoMemory};

/// The stories of the hirings that are closed so far, and the moments of the trip that is begun.
#[derive(Drop)]
pub(crate) struct Stories {
    pub(crate) closed: Vec<Story>,
    pub(crate) begun: Vec<Moment>,
}

impl Stories {
    /// No stories.
    pub(crate) fn new(alloc: Global) -> Stories
        ensures closed { result.closed.items ≡ [] }
        ensures begun { result.begun.items ≡ [] }
    {
        Stories {
            closed: Vec::new(alloc),
            begun: Vec::new(alloc),
        }
    }

    /// Adds a moment, which may be the end of its hiring.
    pub(crate) fn add(&mut self, moment: Moment, alloc: Global) -> Result<(), NoMemory>
        ensures { OnOk result (Adds (moment ∷ []) self.old self.new) }
    {
        self.begun.push(moment).map_err(|_| NoMemory)?;
        match kind_in(moment.happening) {
            None => Ok(()),
            Some(kind) => {
                let moments = mem::replace(&mut self.begun, Vec::new(alloc));
                self.closed
                    .push(Story { kind, moments })
                    .map_err(|_| NoMemory)
            }
        }
    }
}

/// How a trip ended, if a happening is its end.
fn kind_in(happening: Happening) -> Option<Kind>
    ensures { result ≡ kind_in happening }
{
    match happening {
        Happening::Ended { kind, .. } => Some(kind),
        _ => None,
    }
}
