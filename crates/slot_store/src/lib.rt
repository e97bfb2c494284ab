//! Two slots in the board's store that keep one body through any cut of the power. A scan finds what the pair stands
//! for, and a new body is written in three stages, each one write and its sync. All of it is this project's own.
#![tactic(auto)]

mod found;
mod pair;
mod pair_laws;
mod part_laws;
mod ready;
mod scanning;
mod shut;
mod storing;
mod sync_laws;
mod synced_write;
mod written;

pub use found::{Found, SlotFault};
pub use pair::{Pair, Place};
pub use pair_laws::{
    a_pair_apart_is_the_same, a_pair_stands_for_one_body, a_pair_that_is_not_touched_stays,
    a_scan_answers_by_the_image, a_scan_finds_the_body, a_settled_pair_stays,
    a_store_of_the_whole_pair, an_open_slot_has_a_spelling,
};
pub use part_laws::{Images, a_part_of_the_store_lies_in_the_whole, a_run_goes_on_in_its_part};
pub use ready::Ready;
pub use scanning::scan;
pub use shut::Shut;
pub use sync_laws::{
    Failing, a_call_goes_on_behind_its_sync, a_settled_board_is_synced_already,
    a_synced_board_is_left_as_held,
};
pub use synced_write::write_and_sync;
pub use written::Written;
