//! The text of a drive: its lines, read in any pieces, and the line of one event.
#![tactic(auto)]

mod drive_laws;
mod ending_laws;
mod fields;
mod keys;
mod plain;
mod reader;
mod run;
mod state;
mod written;

pub use drive_laws::{
    a_reader_is_known_by_its_bytes, drives_mean_what_their_lines_say,
    lines_give_what_the_table_says, lines_make_the_text, more_bytes_add_runs,
    pieces_give_the_runs_of_all_bytes, written_drives_read_back, written_lines_read_back,
};
pub use ending_laws::bytes_tell_how_a_drive_ends;
pub use reader::{BadLine, Reader};
pub use run::Run;
pub use written::put_event;
