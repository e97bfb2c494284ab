//! The tariff language: the texts of a tariff and its printed form. The tree of a tariff, and what its conditions mean,
//! are handed on.
#![tactic(auto)]

mod atoms;
mod building;
mod conditions;
mod figures;
mod formless;
mod items;
mod language_laws;
mod parsing;
mod printing;
mod spelling;
mod tokens;
mod words;
mod writing;

pub use formless::bad_lines;
pub use language_laws::{
    bad_lines_have_no_form, lines_are_those_of_the_table, lines_rise_in_number,
    parentheses_are_needed, printed_forms_read_back, texts_are_cut_at_their_line_feeds,
    texts_are_parsed_as_they_read, texts_have_their_numbers, texts_read_as_one_tariff,
};
pub use parsing::{ParseFault, parse};
pub use tariff_tree::{
    Cond, Context, InitialLine, InitialNumbers, Item, Lines, MinimumLine, RateLine, RateNumbers,
    Tariff, TariffLine, first_lines_hold, initial_of, minimum_of, rate_of, sat,
};
pub use writing::{print, print_line};
