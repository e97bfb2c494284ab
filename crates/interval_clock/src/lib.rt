//! Local time, and a clock that keeps the reading that it accepted last. Local time is that of a list of
//! offsets from UTC, which is sealed in a taximeter: the list gives each second a date and a time of the
//! day. Seconds are counted from 1970-01-01T00:00Z.
#![tactic(auto)]

mod calendar_laws;
mod clock;
mod day_numbers;
mod local_time;
mod offsets;

pub use calendar_laws::the_calendar_goes_day_by_day;
pub use clock::{Clock, ClockBack};
pub use day_numbers::{CalendarDate, date_of_day, dates_have_day_numbers, day_number};
pub use local_time::{LocalTime, civil, local_times_add_up};
pub use offsets::{GREATEST_OFFSET, OffsetFault, Offsets, the_last_pair_begun_is_in_force};
