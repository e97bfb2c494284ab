//! The constant of the taximeter.
ghost use Rattle.std.specs.Prelude.{ℕ, ◌↔◌, ◌≡◌, ◌≤◌, IfOk, IsOk};
ghost use Rattle.drive_modes.specs.Constant.{greatest_constant, least_constant};

use std::marker::Model;

/// The least constant, in pulses a kilometre.
pub const LEAST_CONSTANT: u32 = 500;

/// The greatest constant, in pulses a kilometre.
pub const GREATEST_CONSTANT: u32 = 200_000;

/// A constant of less than 500 or more than 200,000 pulses a kilometre.
#[derive(Clone, Copy)]
pub struct BadConstant;

/// The constant of the taximeter: how many pulses of the distance signal generator make a kilometre, 500 to 200,000.
/// The range is this project's own.
#[derive(Clone, Copy, PartialEq, Eq)]
pub struct Constant {
    per_kilometre: u32,
}

impl Model for Constant {
    ghost Value = { ℕ };

    ghost view = { λ c. c.per_kilometre };

    ghost inverse = { λ k. record { per_kilometre = k } };

    ghost invariant = { λ c. (least_constant ≤ c.per_kilometre) × (c.per_kilometre ≤ greatest_constant) };
}

impl Constant {
    /// The constant of `k` pulses a kilometre. `BadConstant` exactly if `k` is out of range.
    pub fn new(k: u32) -> Result<Constant, BadConstant>
        ensures in_range { IsOk result ↔ ((least_constant ≤ k) × (k ≤ greatest_constant)) }
        ensures value { IfOk result (λ constant. constant ≡ k) }
    {
        if k < LEAST_CONSTANT || k > GREATEST_CONSTANT {
            return Err(BadConstant);
        }
        Ok(Constant { per_kilometre: k })
    }

    /// The pulses that make a kilometre.
    pub fn get(&self) -> u32
        ensures value { result ≡ self.now }
        ensures least { least_constant ≤ result }
        ensures most { result ≤ greatest_constant }
    {
        self.per_kilometre
    }

    /// Takes a constant apart. It compiles only while a constant is one number and nothing else.
    fn take_apart(self) -> u32 {
        let Constant { per_kilometre } = self;
        per_kilometre
    }
}
