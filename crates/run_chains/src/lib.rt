//! Any number of runs of a program, as the taximeter is, with cuts of the power between them or inside; and runs under
//! tariffs that are the same.
#![tactic(auto)]

mod chain_laws;
mod chains;
mod new_store_laws;
mod program;
mod same_run_laws;

pub use chain_laws::{chains_add_up, receipts_are_in_their_prefix};
pub use chains::{chain, may_begin};
pub use new_store_laws::explanations_are_of_the_run;
pub use program::{Program, Taximeter};
pub use same_run_laws::same_tariffs_print_the_same;
