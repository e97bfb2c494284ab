//! The worked rows of examples/rows, carried out over files and devices in memory.

mod acts;
mod calls;
mod packed;
mod row_tests;
