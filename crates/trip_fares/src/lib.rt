//! Laws alone: of which trip each receipt of a run is, what its fare comes to by the trip's intervals in Hired, and how
//! near that is at even speeds.
#![tactic(auto)]

mod fare_laws;

pub use fare_laws::{
    even_trips_are_shown_nearly, receipts_are_of_their_trips, trips_are_charged_by_their_intervals,
};
