//! The commands that say something of a tariff's rates: how fine a constant is for them.
#![tactic(auto)]

mod constants;
mod fineness;
mod fineness_laws;
pub mod rates;
mod wide;

pub use fineness_laws::{excess_is_the_most_of_even_speeds, fine_constants_are_nearest};
