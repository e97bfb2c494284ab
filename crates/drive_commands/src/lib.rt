//! The commands that carry out a drive on the meter: on a store, without one, or a drive that is generated.
#![tactic(auto)]

mod drive_ends;
pub mod fare;
mod fare_seal;
pub mod generate;
pub mod run;
