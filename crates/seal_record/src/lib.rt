//! The seal: the parameters of the taximeter, which are secured, with the digest and the decimals of
//! its tariff. Parameters are read from a text of lines, and a seal is the body of a slot. All of it
//! is this project's own.
#![tactic(auto)]

mod decoding;
mod form_laws;
mod lines;
mod names;
mod offset_list;
mod params;
mod params_so_far;
mod plain_laws;
mod reading;
mod seal;
mod seal_laws;
mod spelling;
mod text_laws;
mod values;
mod whole_laws;

pub use decoding::LAST_SEAL_NUMBER;
pub use form_laws::{
    bad_lines_have_their_fault, lines_say_their_parameter, values_are_read_by_their_forms,
};
pub use params::{FIRST_DAY, LAST_DAY, Name, ParamFault, Params};
pub use plain_laws::{comments_are_passed_over, plain_texts_are_read_back};
pub use reading::read_params;
pub use seal::Seal;
pub use seal_laws::seals_are_read_by_their_table;
pub use spelling::mode_byte;
pub use text_laws::{parameters_are_in_their_ranges, texts_say_parameters_line_by_line};
pub use whole_laws::{texts_are_too_long_or_lack_a_parameter, texts_say_their_parameters};
