//! The command that makes a tariff with a common measure of one that has none: each rate by the nearest amounts for one
//! pair of measures.
#![tactic(auto)]

mod conditions;
mod copies;
pub mod near;
mod near_laws;
mod nearest;
mod rates;

pub use near_laws::{
    amounts_are_nearest, near_charges_are_within_the_share, near_fares_are_within_a_step,
    near_tariffs_are_sound, near_tariffs_choose_alike,
};
