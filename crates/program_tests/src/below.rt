//! Tests of the crates below, of what no command prints: each makes what it needs by the public calls of their
//! neighbours. A crate without tests of its own is proved once less.

mod memory_board_tests;
mod memory_files_tests;
mod meter_states_tests;
mod tariff_texts;
