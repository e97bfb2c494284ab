//! The commands that look at the store or seal it, the opening of the store, and the offsets of some years.
#![tactic(auto)]

pub mod mark;
pub mod offsets;
mod opening;
mod params;
pub mod port;
pub mod seal;
mod sealed;
mod sealed_laws;
pub mod sealed_params;
mod sealed_tariff;
mod sealed_text;
pub mod shifts;
pub mod totals;
mod totals_text;
mod years;

pub use opening::{open_store, sealed_store};
pub use params::{read_parameters, refused_params};
pub use sealed::open_sealed;
pub use sealed_laws::{sealed_texts_are_read_back, sealed_texts_seal_the_same};
pub use sealed_tariff::read_sealed;
pub use totals_text::push_summary;
pub use years::Years;
