//! The plain types that the layers of the taximeter share, the counter of steps, and the texts of
//! numbers.
#![tactic(auto)]

mod calendar;
mod counted;
mod decimal;
mod event;
mod identifier;
mod limits;
mod line;
mod money;
mod parting;
mod push;
mod reading;
mod receipt;
mod steps;
mod streams;
mod text_laws;
mod time;
mod weekdays;

pub use calendar::{
    date_of_place, date_place, dates_go_by_their_places, days_of_month, is_date, is_leap_year,
};
pub use counted::{AtMost, Counted, Keyed, each_step_halves};
pub use decimal::{
    NumberFault, count_digits, figure_at, figure_in, number_at, number_in, number_of_width,
    read_decimal,
};
pub use event::{Event, Key, Operating, Why};
pub use identifier::is_identifier_character;
pub use limits::{HIRINGS_END, LARGEST_SUPPLEMENTS, LAST_NUMBER, ROAMING_AMID, ROAMING_MOST};
pub use line::{LINE_SIZE, Line, LineFull, put_bytes, put_money, put_number, put_padded};
pub use money::{LARGEST_AMOUNT, LARGEST_DISPLAY_STEP};
pub use parting::split_at_byte;
pub use push::{push_bytes, push_money, push_number};
pub use reading::{is_word, word};
pub use receipt::{Display, Kind, Receipt, Stamp};
pub use steps::Steps;
pub use streams::{STREAM_LIMIT, bytes_tell_how_a_stream_ends, limits_fall_behind_what_was_taken};
pub use text_laws::{
    amounts_are_written_by_their_digits, amounts_read_back, decimals_are_read_by_their_form,
    digits_are_counted, figures_are_read_by_their_digits, numbers_are_read_by_their_digits,
    numbers_are_written_as_figures, numbers_are_written_by_their_digits,
    numbers_grow_by_their_digits, numbers_read_back, texts_of_numbers_are_short,
    words_are_read_by_their_text,
};
pub use time::{FIRST_SECOND, LAST_SECOND, LONGEST_TRIP};
pub use weekdays::DAY_NAMES;

/// Memory ran out.
#[derive(Clone, Copy, Debug)]
pub struct NoMemory;
