//! What the meter does.
ghost use Rattle.std.specs.Prelude.{◌<◌};
ghost use Rattle.meter_model.specs.Common.{Refuse};

use arrayvec::ArrayVec;
use taxi_units::{Display, Receipt, Why};
use totals_record::{Entry, Trip};

/// What the meter does at an event.
#[derive(Clone, Copy)]
pub enum Act {
    /// Shows a display.
    Show(Display),
    /// Refuses an event or a key.
    Refuse(Why),
    /// Commits an entry of the totalisers.
    Enter(Entry),
    /// Commits the saved form of a trip, which is held from now on.
    Hold(Trip),
    /// Prints the receipt of the trip whose entry stands directly before.
    Receipt(Receipt),
}

/// A place that holds no act yet.
impl Default for Act {
    fn default() -> Act {
        Act::Refuse(Why::NotNow)
    }
}

/// The acts of one event, in order.
pub type Acts = ArrayVec<Act, 4>;
