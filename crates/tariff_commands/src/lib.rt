//! The commands that answer about a tariff alone.
#![tactic(auto)]

pub mod check;
pub mod compare;
pub mod faults;
pub mod form;
mod form_laws;
pub mod lines;
pub mod tables;

pub use faults::faults_begin_with_the_line_of_check;
pub use form_laws::forms_are_their_own_form;
