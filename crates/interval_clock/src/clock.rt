//! A clock: the reading that it accepted last.
ghost use Rattle.std.specs.Prelude.{ℕ, ◌<◌, ◌↔◌, ◌≡◌, IfErr, IsErr, IsTrue, OnErr, OnOk};

use std::marker::Model;

/// A busy clock was given a second that lies before the last one.
#[derive(Clone, Copy)]
pub struct ClockBack {
    pub last: u64,
    pub given: u64,
}

/// A clock that holds the last second that it accepted. It doesn't advance by itself, and how it is
/// set is this project's own rule.
#[derive(Clone, Copy)]
pub struct Clock {
    second: u64,
}

impl Model for Clock {
    ghost Value = { ℕ };

    ghost view = { λ c. c.second };

    ghost inverse = { λ second. record { second = second } };
}

impl Clock {
    /// A clock that has accepted this second.
    pub fn new(second: u64) -> Clock
        ensures { result ≡ second }
    {
        Clock { second }
    }

    /// The second that was accepted last.
    pub fn second(&self) -> u64
        ensures { result ≡ self.now }
    {
        self.second
    }

    /// Sets the clock to a second. A clock that isn't busy may be set back.
    ///
    /// `ClockBack` exactly if the meter is `busy`, as in a trip, and the second lies before the last one.
    /// The clock is then as it was.
    pub fn set(&mut self, second: u64, busy: bool) -> Result<(), ClockBack>
        ensures refused { IsErr result ↔ (IsTrue busy × (second < self.old)) }
        ensures fault { IfErr result (λ back. (back.last ≡ self.old) × (back.given ≡ second)) }
        ensures unchanged { OnErr result (self.new ≡ self.old) }
        ensures accepted { OnOk result (self.new ≡ second) }
    {
        if busy && second < self.second {
            return Err(ClockBack {
                last: self.second,
                given: second,
            });
        }
        self.second = second;
        Ok(())
    }
}
