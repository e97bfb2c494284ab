//! Carries out recorded drives on the meter: their bytes are read in pieces, each event moves the core, and what the
//! meter does is printed. It takes no memory. All of it is this project's own.
#![tactic(auto)]

mod carrier;
mod cut_laws;
mod display_laws;
mod drive;
mod dry;
mod dry_drive;
mod fault;
mod on_store;
mod printing;
mod reading;
mod runs;
mod store_drive;
mod stored;
mod storing;
mod supply;

pub use cut_laws::{
    cuts_open_the_next_run, lines_follow_a_run, receipts_are_numbered_in_order,
    receipts_have_their_entries, runs_leave_the_seals, the_number_tells_the_commits,
};
pub use display_laws::displays_are_shown_where_their_texts_differ;
pub use dry::DryMeter;
pub use dry_drive::{dry_run, print_drive};
pub use fault::RunFault;
pub use store_drive::run_events;
pub use stored::StoreMeter;
