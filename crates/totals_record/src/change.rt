//! What a commit changes.
use crate::{Entry, Trip};

/// A change of the durable state: an entry more, or a trip that is held from now on.
#[derive(Clone, Copy)]
pub enum Change {
    Enter(Entry),
    Hold(Trip),
}
