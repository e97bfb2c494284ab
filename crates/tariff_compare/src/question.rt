//! What is asked in a context.
use tariff_check::ChoiceKind;

/// A question that has an answer in each context of a meter.
#[derive(Clone, Copy)]
pub(crate) enum Question {
    /// Whether a line counts: its kind, and its place among the lines of that kind, from 0.
    Counts(ChoiceKind, usize),
    /// Whether two tariffs differ.
    Differs,
}
