//! The bytes of a slot's body, apart from any device: which values may be bodies, and the numbers at places of their
//! bytes. All of it is this project's own.
#![tactic(auto)]

mod body;
mod body_bytes;

pub use body::{BODY_SIZE, Body};
pub use body_bytes::{Spelled, eight_at, four_at, put_bytes, put_zeros, two_at};
