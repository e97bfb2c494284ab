//! Tests of meter_states: how many equal intervals go at once, by `Core::equal_intervals`.
mod drives;
mod equal_intervals;
mod equal_rows;
