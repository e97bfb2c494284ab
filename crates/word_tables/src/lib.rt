//! The tables of the tariff of a word, or of a text.
#![tactic(auto)]

mod compiled;

pub use compiled::{tables_of_text, tables_of_word};
