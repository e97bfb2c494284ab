//! Laws of stories: what the story of each hiring says of its trip and its receipt. They are no part of a program.
#![tactic(auto)]

mod story_laws;

pub use story_laws::{
    intervals_are_charged_by_the_line_told, stories_begin_with_their_hirings,
    stories_end_with_their_receipts, stories_show_what_the_run_shows, ticks_and_pulses_never_fall,
};
