//! The texts that passengers and offices read: displays, refusals and receipts, each written exactly, with the grammar
//! of receipts. `receipt_reading` reads them back. The form of all these texts is this project's own.
#![tactic(auto)]

mod amounts;
mod calculations;
mod digest;
mod displays;
mod fields;
mod grammar_laws;
mod headings;
mod parts;
mod receipts;
mod refusals;
mod shared;
mod stamps;
mod sums;
mod trips;

pub use amounts::Amount;
pub use calculations::Calculation;
pub use digest::push_hex;
pub use displays::put_display;
pub use grammar_laws::{
    displays_differ_by_their_fields, receipts_are_short, receipts_are_their_texts,
    receipts_begin_with_their_word, receipts_differ_in_their_tariff_alone, texts_are_one_receipt,
};
pub use headings::Heading;
pub use parts::SealPart;
pub use receipts::{put_part_receipt, put_receipt};
pub use refusals::put_refusal;
pub use shared::{
    push_calculation, push_course, push_fare, push_kind, push_stamp, push_supplements, push_total,
};
pub use stamps::put_day;
pub use sums::{OptionalAmounts, Sums};
pub use trips::TripLines;
