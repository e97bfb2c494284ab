//! The pulses of the measuring interval that runs.
ghost use Rattle.std.specs.{List.{fold}, Prelude.{ℕ, ◌+◌, ◌-◌, ◌≡◌, ◌≤◌, List, min, sum}};
ghost use Rattle.drive_modes.specs.Gate.{counted};

use std::marker::Model;

/// The most pulses of a measuring interval.
const MOST_PULSES: u32 = 2000;

/// The gate that counts the pulses of the measuring interval that runs: at most 2,000, this project's own limit.
#[derive(Clone, Copy)]
pub struct Gate {
    pulses: u32,
}

impl Model for Gate {
    ghost Value = { ℕ };

    ghost view = { λ g. g.pulses };

    ghost inverse = { λ n. record { pulses = n } };

    ghost invariant = { λ g. g.pulses ≤ 2000 };
}

impl Gate {
    /// A gate that has counted nothing.
    pub fn new() -> Gate
        ensures { result ≡ 0 }
    {
        Gate { pulses: 0 }
    }

    /// Counts `n` further pulses, as many as the interval can have, and gives the number that it didn't count.
    pub fn add(&mut self, n: u32) -> u32
        ensures count { self.new ≡ counted self.old n }
        ensures surplus { result ≡ self.old + n - 2000 }
        ensures all { self.new + result ≡ self.old + n }
    {
        let counted = n.min(MOST_PULSES - self.pulses);
        self.pulses += counted;
        n - counted
    }

    /// Ends the interval: gives its pulses, and begins the next one with none.
    pub fn take(&mut self) -> u32
        ensures count { result ≡ self.old }
        ensures most { result ≤ 2000 }
        ensures empty { self.new ≡ 0 }
    {
        let pulses = self.pulses;
        self.pulses = 0;
        pulses
    }
}

/// A law: after any list of bursts of pulses a gate has counted their sum, up to 2,000.
pub fn a_gate_counts_the_sum()
    ensures { (pulses : ℕ) (bursts : List ℕ) → pulses ≤ 2000
        → fold counted pulses bursts ≡ min 2000 (pulses + sum bursts) }
{}
