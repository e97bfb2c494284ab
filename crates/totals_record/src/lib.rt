//! The totals of the meter and the trip that it holds over a loss of supply: what an entry adds to them, and the body
//! of 511 bytes that keeps them in a slot. The five totals are those of the measuring instruments directive; all else
//! is this project's own.
#![tactic(auto)]

mod body;
mod body_laws;
mod bytes;
mod change;
mod durable_state;
mod entry;
mod range_laws;
mod ranges;
mod state_laws;
mod sum_laws;
mod table;
mod totals;
mod trip;

pub use body_laws::states_are_read_by_their_table;
pub use change::Change;
pub use durable_state::Durable;
pub use entry::Entry;
pub use range_laws::commits_keep_the_ranges;
pub use state_laws::changes_add_up;
pub use sum_laws::entries_add_up;
pub use totals::{Share, Totals};
pub use trip::Trip;
