//! The shift book: drivers sign on and off by marks of the totalisers. A report shares the growth of the totalisers
//! among shifts, drivers and the time while nobody is signed on. The texts are this project's own.
#![tactic(auto)]

mod book;
mod book_laws;
mod digits;
mod following;
mod mark;
mod mark_laws;
mod numbers;
mod reading;
mod report;
mod share_laws;
mod shift;
mod sums;

pub use book::{BookFault, read_book};
pub use book_laws::{books_are_read_one_way, texts_are_read_as_they_say};
pub use mark::{Mark, put_mark};
pub use mark_laws::{drivers_are_their_words, marks_are_their_lines};
pub use reading::read_driver;
pub use report::shifts;
pub use share_laws::{growth_goes_by_the_first_mark, reports_share_the_growth};
