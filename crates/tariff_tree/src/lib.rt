//! The tree of a tariff, and what its conditions mean.
#![tactic(auto)]

mod condition;
mod context;
mod meaning;
mod meaning_laws;
mod tariff;

pub use condition::Cond;
pub use context::Context;
pub use meaning::{initial_of, minimum_of, rate_of, sat};
pub use meaning_laws::first_lines_hold;
pub use tariff::{
    InitialLine, InitialNumbers, Item, Lines, MinimumLine, RateLine, RateNumbers, Tariff,
    TariffLine,
};
