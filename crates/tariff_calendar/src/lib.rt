//! The cuts of a tariff under a constant, and its holidays: lists of numbers that are looked up by halving.
#![tactic(auto)]

mod collecting;
mod cut_laws;
mod cuts;
mod lookups;

pub use cut_laws::{
    counts_are_places, cuts_are_the_fewest_pulses, cuts_decide_conditions, holidays_are_dates,
    lists_are_ordered,
};
pub use cuts::Cuts;
pub use lookups::count_at_most;
