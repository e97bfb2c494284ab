//! Of which texts tables and a seal are made: definitions and laws alone, for programs that make a meter of the text of
//! a tariff and that of the parameters.
#![tactic(auto)]

mod making_laws;

pub use making_laws::meters_are_made_of_their_texts;
