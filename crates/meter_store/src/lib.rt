//! The store of a meter: the commit of a new durable state, and the sealing. A cut of the power leaves each of them old
//! or new. The pair of totals begins at place 0 of the board's store, the pair of seals at place 1,024. All of it is
//! this project's own.
#![tactic(auto)]

mod committing;
mod sealing;
mod sealing_laws;

pub use committing::{DeviceFailed, commit};
pub use sealing::place_seal;
pub use sealing_laws::scans_find_what_a_sealing_asks_for;
