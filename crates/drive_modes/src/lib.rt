//! From pulses to a fare: the constant of the distance signal generator, the pulses of the measuring interval that
//! runs, and their distance; the charge of each interval, the fare of all charges, and the cross-over speed.
//!
//! Charges are counted in a unit so small that no rate of a tariff leaves a fraction: the measure of a tariff says how
//! many of these units make the smallest unit of money.
#![tactic(auto)]

mod charges;
mod constant;
mod distance;
mod even_fare_laws;
mod even_speed_laws;
mod gate;
mod meterage;
mod speed;

pub use charges::{
    Mode, Weights, charge, charge_by_crossover, mode_s_changes_over_at_the_cross_over,
};
pub use constant::{BadConstant, Constant, GREATEST_CONSTANT, LEAST_CONSTANT};
pub use distance::{distances_are_whole_millimetres, millimetres, reached};
pub use even_fare_laws::{even_fares_are_shown_nearly, fares_rise_with_their_charge};
pub use even_speed_laws::{
    charges_in_mode_s_lie_between, even_speeds_are_charged_nearly,
    the_cross_over_speed_reaches_the_bound,
};
pub use gate::{Gate, a_gate_counts_the_sum};
pub use meterage::{Meterage, Rounding, fares_add_up, steps_are_whole_steps};
pub use speed::cross_over;
