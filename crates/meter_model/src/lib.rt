//! The meter's definitions and the types that they speak of: what the meter does, what a key does, what a core keeps of
//! a trip. The definitions name no table.
#![tactic(auto)]

mod act;
mod core_trip;
mod display_laws;
mod key_act;
mod key_laws;
mod resume_laws;

pub use act::{Act, Acts};
pub use core_trip::{CoreTrip, Fees};
pub use display_laws::{
    displays_are_compared_by_their_fields, the_last_display_is_one_of_the_meter,
};
pub use key_act::KeyAct;
pub use key_laws::accepted_keys_act;
pub use resume_laws::{fares_depend_on_the_intervals_in_hired, resumed_trips_go_on};
