//! Reads a recorded drive from its file, in pieces, and gives the runs of its lines. It takes no memory. All of it is
//! this project's own.
#![tactic(auto)]

mod source;

pub use source::{Source, Stop};
