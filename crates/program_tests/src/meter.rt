//! Tests of the call `taxi`.

pub(crate) mod chain_tests;
pub(crate) mod failure_tests;
pub(crate) mod growth_tests;
pub(crate) mod many_cuts_tests;
pub(crate) mod piece_tests;
pub(crate) mod run_tests;
pub(crate) mod seal_tests;
pub(crate) mod shifts_tests;
pub(crate) mod store_tests;
pub(crate) mod tests;
