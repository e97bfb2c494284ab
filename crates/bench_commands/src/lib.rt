//! The commands that go through a drive by the plain program: with readings, to explain its fares, or to tell what
//! happened.
#![tactic(auto)]

pub mod bench;
pub mod explain;
mod explained_lines;
mod explained_text;
mod inputs;
mod judgement;
pub mod story;
mod story_lines;
mod story_text;
mod whole_drive;
