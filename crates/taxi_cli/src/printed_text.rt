//! A printer that keeps what is printed.
ghost use Rattle.std.specs.Prelude.{[], ℕ};

use outside::{Failed, Printer, STORE_SIZE};
use std::alloc::Global;
use std::sync::ledger::Ledger;
use taxi_units::Steps;

/// A printer that never fails, and keeps what is printed, as far as there is memory for it. No clause speaks of it.
#[derive(Drop)]
pub(crate) struct PrintedText {
    text: Vec<u8>,
    is_whole: bool,
}

impl PrintedText {
    /// Nothing is printed yet.
    pub(crate) fn new(alloc: Global) -> PrintedText {
        PrintedText {
            text: Vec::new(alloc),
            is_whole: true,
        }
    }

    /// What was printed, if there was memory for all of it.
    pub(crate) fn whole(&self) -> Option<&[u8]> {
        if self.is_whole {
            Some(self.text.as_slice())
        } else {
            None
        }
    }
}

impl<L: Ledger> Printer<STORE_SIZE, L> for PrintedText {
    ghost tells_image = { ⊥ };

    ghost tells_text = { ⊥ };

    ghost image = { λ _. [] };

    ghost in_flight = { λ _ _. ⊥ };

    ghost printed = { λ _. [] };

    ghost moment = { λ _. 0 };

    ghost left_since = { λ _ _ _ _. ⊥ };

    ghost faults = { λ _. 0 };

    ghost store = { λ _ told. absurd told };

    ghost counts_now = { λ _ _ _ _ told _ _ _. absurd told };

    ghost only_now = { λ _ _ _ left. absurd left };

    fn print(&mut self, bytes: &[u8], steps: &mut Steps<L>) -> Result<(), Failed> {
        steps.spend();
        if self.text.extend_from_slice(bytes).is_err() {
            self.is_whole = false;
        }
        Ok(())
    }
}
