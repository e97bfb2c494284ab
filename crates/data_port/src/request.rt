//! A request of the data port.
use crate::contents::ITEM_COUNT;
use arrayvec::ArrayVec;

/// A request: the codes of the items that it asks for, one or more, which rise. `IsRequest` says so.
#[derive(Drop)]
pub struct Request {
    pub items: ArrayVec<u8, ITEM_COUNT>,
}

impl Default for Request {
    ghost use Rattle.std.specs.Prelude.{[], ◌≡◌};

    ghost is_default = { λ request. request.items.items ≡ [] };

    fn default() -> Request {
        Request {
            items: ArrayVec::new(),
        }
    }
}
