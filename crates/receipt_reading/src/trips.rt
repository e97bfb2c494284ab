//! The lines of a trip, read back.
ghost use Rattle.receipt_reading.specs.Common.{Gives};
ghost use Rattle.receipt_text.specs.Lines as spec;

use crate::amounts::amount_behind;
use crate::figures::number_behind;
use crate::stamps::stamp_behind;
use receipt_text::TripLines;
use taxi_units::word;

/// The lines of the trip at the front of a text, and the text behind them.
#[tactic(auto, unfolding(receipt_text::specs::Lines::trip_at))]
pub fn trip_at(text: &[u8]) -> Option<(TripLines, &[u8])>
    ensures { Gives (λ x. (x.0, x.1.now)) result (spec.trip_at text.now) }
{
    let (start, text) = stamp_behind(text, b"START ")?;
    let (finish, text) = stamp_behind(text, b"\nFINISH ")?;
    let (position, text) = number_behind(text, b"\nPOSITION ", 100)?;
    let (hired, text) = amount_behind(text, b"\nDISTANCE ", 100_000_000_000_000_000_000_000)?;
    let rest = word(text, b" m\n")?;
    let trip = TripLines {
        start,
        finish,
        position: position as u8,
        hired_mm: hired.units,
    };
    Some((trip, rest))
}
