//! Which tariffs are sound: each fault of a tariff by its rule, and what a sound tariff is made of.
#![tactic(auto)]

mod all_faults;
mod atom_cuts;
mod atoms;
mod cells;
mod checked;
mod checking;
mod choice;
mod counts;
mod cuts;
mod early;
mod fault;
mod found_lines;
mod measure;
mod multiples;
mod numbers;
mod pairs;
mod parts;
mod resolving;
mod rules;
mod soundness_laws;
mod values;

pub use all_faults::faults;
pub use checked::Checked;
pub use checking::check;
pub use choice::{Choice, ChoiceKind, ChoiceLine};
pub use cuts::cut_values;
pub use fault::{CheckFault, Dimension};
pub use found_lines::FramePart;
pub use soundness_laws::{
    all_faults_begin_with_the_first, choices_stand_at_their_lines, cuts_are_in_order,
    faults_name_the_first_line, hirings_begin_with_first_lines, lines_that_hold_are_there,
    measures_are_least, sound_tariffs_are_their_parts, sound_tariffs_have_sound_parts,
    supplements_are_numbered_to_16,
};
pub use tariff_tree::{InitialNumbers, RateNumbers};
pub use values::{DateNumbers, Initial, Supplement};
