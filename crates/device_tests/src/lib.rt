//! Tests of the devices of `outside`: the real files and stores in folders of their own, the same over a system of
//! which chosen calls fail, the quiet board, and the words of a program. They have a crate of their own, so that
//! `outside` is proved once, and that the tests are proved beside other crates.
#![tactic(auto)]

#[cfg(test)]
mod again_tests;
#[cfg(test)]
mod board_tests;
#[cfg(test)]
mod faulty_system;
#[cfg(test)]
mod faulty_tests;
#[cfg(test)]
mod file_tests;
#[cfg(test)]
mod interrupted_tests;
#[cfg(test)]
mod log_tests;
#[cfg(test)]
mod name_tests;
#[cfg(test)]
mod output_tests;
#[cfg(test)]
mod tests;
#[cfg(test)]
mod word_tests;
