//! What a command is, how a call of one may end, and the tariff of a word.
#![tactic(auto)]

mod ending;
mod last_line;
mod made;
mod number_line;
mod pieces;
mod tariff;

pub use ending::{BOARD_FAULT, Ended, NO_MEMORY, finish, refused_by};
pub use last_line::bad_tariff_line;
pub use made::{Made, ended_behind, print_made};
pub use number_line::push_number_line;
pub use pieces::print_text;
pub use tariff::{Refusal, TextFault, read_tariff, tariff_of_text, text_of_word};
