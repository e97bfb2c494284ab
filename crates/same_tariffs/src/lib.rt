//! Laws of tariffs that are the same: every run under them comes to the same. And laws of the contexts of a meter, in
//! which runs charge their intervals and begin their hirings.
#![tactic(auto)]

mod reached_laws;
mod same_laws;

pub use reached_laws::{
    each_context_is_reached, events_of_drives_are_timely,
    intervals_are_charged_in_contexts_of_a_meter,
};
pub use same_laws::{same_charges_show_the_same_steps, same_tariffs_run_alike};
