//! Rules for offsets from UTC: a yearly rule for summer time that is read from a text of four lines, and the
//! list of offsets that it gives for some years. The form of the text is this project's own.
#![tactic(auto)]

mod calendar_laws;
mod changes;
mod fault;
mod fields;
mod lines;
mod list_laws;
mod names;
mod pairs;
mod reading;
mod rules;
mod text_laws;

pub use calendar_laws::changes_have_their_date;
pub use fault::RuleFault;
pub use lines::put_offset;
pub use list_laws::{lists_follow_their_rule, lists_have_each_change, seconds_have_their_year};
pub use reading::read_rules;
pub use rules::{Change, Rules};
pub use text_laws::{plain_texts_are_read_back, texts_say_rules_line_by_line};
