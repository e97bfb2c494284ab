//! A sound tariff over all contexts that a meter can have: the first one in which a line counts, and the first one in
//! which two tariffs differ.
#![tactic(auto)]

mod asking;
mod costs;
mod day;
mod difference;
mod difference_laws;
mod difference_lines;
mod difference_texts;
mod grid;
mod kinds;
mod meter_context;
mod question;
mod search;
mod side;
mod texts;
mod uses;

pub use difference::{Difference, first_difference};
pub use difference_laws::{
    differences_are_first, first_contexts_are_first, first_parts_differ, meters_have_their_times,
};
pub use difference_texts::print_difference;
pub use meter_context::MeterContext;
pub use texts::print_uses;
pub use uses::{LineUse, line_uses};
