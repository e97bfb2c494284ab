//! The compiler of tariffs: tables in which the rate of a context and the fees at its hiring are looked up.
#![tactic(auto)]

mod alike;
mod bands;
mod cells;
mod choices;
mod contexts;
mod marking;
mod marks;
mod parts;
mod rows;
mod table_laws;
mod tables;

pub use cells::CellLines;
pub use parts::{Bands, Lasting};
pub use table_laws::{
    cells_are_numbered_in_order, rows_are_in_order, tables_are_fit, tables_equal_the_tree,
    weights_are_those_of_their_rates,
};
pub use tables::{Tables, compile};
