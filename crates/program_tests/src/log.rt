//! Tests of the call `keep_log`.

pub(crate) mod cut_tests;
pub(crate) mod failure_tests;
pub(crate) mod growth_tests;
pub(crate) mod keep_log_tests;
pub(crate) mod memory_log;
pub(crate) mod receipt_tests;
pub(crate) mod rows_tests;
