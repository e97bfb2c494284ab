//! What the programs are to say on standard error beside their output, and their help. No contract speaks of it:
//! output, statuses and the store are `commands`' and `log_commands`' alone. It opens files to read alone, plain ones
//! alone, and never a store. It is this project's own.
#![tactic(auto)]

mod asked;
mod failures;
mod fault_lines;
mod fault_texts;
mod files;
mod help;
mod places;
mod rows;
mod seals;
mod shown;
mod speaking;
mod status_texts;
mod statuses;
mod streams;
mod table;
mod tariffs;
mod telling;
mod texts;
mod tree;
mod version;
mod warnings;
mod words;

pub use asked::{Asked, answer_asked};
pub use places::{Moment, is_unchanged};
pub use speaking::{is_quiet, now_of, print_answer, said_behind, say};
pub use statuses::no_words;
pub use table::{HIRING_LOG, Program, TAXI};
pub use tariffs::{constant_in_mode_s, has_coarse_rate, said_of_faults, said_of_rates};
pub use telling::Call;
pub use warnings::passed_over;
