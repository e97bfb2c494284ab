//! A call that a board in memory keeps.
use std::marker::Model;

/// What a call asks of a board.
#[derive(Drop)]
pub(crate) enum Request {
    Read,
    Write(u32, Vec<u8>),
    Sync,
    Print(Vec<u8>),
}

/// A call that was kept, and whether it failed by its number.
#[derive(Drop)]
pub(crate) struct KeptCall {
    pub(crate) request: Request,
    pub(crate) failed: bool,
}

impl Model for KeptCall {
    ghost use Rattle.memory_devices.specs.Calls.{CallOutcome};

    ghost Value = { CallOutcome };

    ghost use Rattle.memory_devices.specs.Requests.{call_of};

    ghost view = { λ k. record { call = call_of k.request; failed = k.failed } };
}
