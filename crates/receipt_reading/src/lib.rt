//! Receipts read back: from a whole text, from the front of one, and from a roll of printed output, one after another,
//! by the files of `outside`. The hiring log does so, the taximeter doesn't. All of it is this project's own.
#![tactic(auto)]

mod amounts;
mod calculations;
mod digest;
mod figures;
mod front;
mod headings;
mod parts;
mod printed_receipt;
mod ranges;
mod reading;
mod receipt_rows;
mod receipt_search;
mod roll;
mod roll_laws;
mod row_laws;
mod stamps;
mod sums;
mod trips;

pub use printed_receipt::{LONGEST_RECEIPT, PrintedReceipt};
pub use reading::{read_receipt, receipt_in_front};
pub use receipt_rows::{heading, row_of};
pub use roll::{Roll, RollEnd};
pub use roll_laws::{
    a_beginning_is_read_as_the_roll, a_reader_hands_out_the_receipts, a_roll_is_read_once,
    receipts_stand_apart,
};
pub use row_laws::rows_tell_their_receipts;
