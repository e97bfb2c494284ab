//! The top call of the taximeter: words in, a status out, over any files and any board.
#![tactic(auto)]

mod command_laws;
mod top;
mod words;

pub use command_laws::six_commands_only_look;
pub use store_commands::Years;
pub use top::taxi;
pub use words::{Row, Trips, row_in};
