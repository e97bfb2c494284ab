//! The first lines of a receipt, read back.
ghost use Rattle.receipt_reading.specs.Common.{Gives};
ghost use Rattle.receipt_text.specs.Lines as spec;

use crate::figures::{READ_BELOW, number_behind};
use receipt_text::Heading;
use taxi_units::{Kind, word};

/// The lines of the number and the kind at the front of a text, and the text behind them.
#[tactic(auto, unfolding(receipt_text::specs::Lines::heading_at))]
pub fn heading_at(text: &[u8]) -> Option<(Heading, &[u8])>
    ensures { Gives (λ x. (x.0, x.1.now)) result (spec.heading_at text.now) }
{
    let (number, text) = number_behind(text, b"RECEIPT ", READ_BELOW)?;
    let text = word(text, b"\nKIND ")?;
    let (kind, text) = kind_at(text)?;
    let rest = word(text, b"\n")?;
    let heading = Heading {
        number: number as u64,
        kind,
    };
    Some((heading, rest))
}

/// A kind at the front of a text, and the text behind it.
fn kind_at(text: &[u8]) -> Option<(Kind, &[u8])>
    ensures { Gives (λ x. (x.0, x.1.now)) result (spec.kind_at text.now) }
{
    if let Some(rest) = word(text, b"CLOSED") {
        return Some((Kind::Closed, rest));
    }
    if let Some(rest) = word(text, b"ABORTED") {
        return Some((Kind::Aborted, rest));
    }
    let rest = word(text, b"EXPIRED")?;
    Some((Kind::Expired, rest))
}
