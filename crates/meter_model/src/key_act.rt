//! What a key does.

use taxi_units::Operating;

/// What a key does in an operating position.
#[derive(Clone, Copy)]
pub enum KeyAct {
    /// Begins a hiring.
    Hire,
    /// Takes the trip to another operating position.
    Move(Operating),
    /// Ends the hiring.
    Clear,
    /// Chooses a tariff position.
    Position(u8),
    /// Chooses a zone.
    Zone(u8),
    /// Adds a supplement, by its number.
    Extra(u8),
    /// Does nothing: the key is refused.
    Refuse,
}
