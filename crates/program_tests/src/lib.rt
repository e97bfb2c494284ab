//! Tests of both programs over files and devices in memory, and of what no command prints. They have a crate of their
//! own, so that what all crates below promise is stated for tests once.
#![tactic(auto)]

#[cfg(test)]
mod below;
#[cfg(test)]
mod log;
#[cfg(test)]
mod meter;
#[cfg(test)]
mod rows;
