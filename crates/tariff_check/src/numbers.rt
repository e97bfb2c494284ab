//! The numbers of a sound tariff.
use drive_modes::Rounding;

/// The numbers of a sound tariff: its display step with the rounding, how many positions and zones it has, its cells
/// and its common measure.
#[derive(Clone, Copy)]
pub(crate) struct Numbers {
    pub step: u64,
    pub rounding: Rounding,
    pub positions: u8,
    pub zones: u8,
    pub cells: u64,
    pub measure: u64,
}
