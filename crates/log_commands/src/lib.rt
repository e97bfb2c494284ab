//! The calls of the hiring log: words in, a status out, over any files and any board of the log. The log keeps the last
//! 256 receipts of a taxi, taken from a roll of printed output, over cuts of the power. A roll's receipts are also
//! printed as rows, without a log. All of it is this project's own.
//!
//! `keep_log` carries out one command.
#![tactic(auto)]

mod appending;
mod ending;
mod entries;
mod file_roll;
mod filing;
mod filing_laws;
mod finding;
mod front;
mod list_rows;
mod log_laws;
mod log_record;
mod newest;
mod receipt_search;
mod roll;
mod row;
mod rows_laws;
mod scanning;
mod show;
mod slot_record;
mod tail;
mod top;
mod words;

pub use filing::{Filing, filing_of};
pub use filing_laws::{
    a_beginning_is_read_as_the_roll, a_reader_hands_out_the_receipts, a_roll_is_read_once,
    filing_again_appends_nothing, receipts_are_filed_once, receipts_stand_apart,
};
pub use log_laws::an_image_stands_for_one_list;
pub use log_record::LogRecord;
pub use roll::{Roll, RollEnd};
pub use rows_laws::rows_list_the_roll;
pub use top::keep_log;
pub use words::{Call, call_in};
