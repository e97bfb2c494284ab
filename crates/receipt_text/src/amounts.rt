//! An amount that a line says.

/// An amount in units of the last of its decimals.
#[derive(Clone, Copy)]
pub struct Amount {
    pub units: u128,
    pub decimals: u8,
}
