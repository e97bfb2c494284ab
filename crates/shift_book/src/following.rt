//! Which mark may follow in a book.
ghost use Rattle.std.specs.Prelude.{◌≡◌};
ghost use Rattle.shift_book.specs.{BookReading.{may_follow, next_at}, Common.{Gives}, MarkOrder.{last_of}};

use crate::mark::{Mark, spelled};
use crate::numbers::{is_nowhere_less, numbers_in};
use crate::reading::mark_at;
use taxi_units::word;
use totals_record::Durable;

/// The mark whose line is at the front of a text and that may follow these marks beside a state of the store, and what
/// is behind the line.
#[tactic(auto, unfolding(crate::specs::BookReading::next_at))]
pub(crate) fn next_mark<'a>(
    text: &'a [u8],
    marks: &[Mark],
    now: &Durable,
) -> Option<(Mark, &'a [u8])>
    ensures { Gives (λ x. (x.0, x.1.now)) result (next_at now.now (last_of marks.now) text.now) }
{
    let mark = mark_at(text)?;
    let line = spelled(&mark);
    let rest = word(text, line.as_slice())?;
    if may_follow(marks, &mark, now) {
        Some((mark, rest))
    } else {
        None
    }
}

/// Whether a mark may follow these marks beside a state of the store.
fn may_follow(marks: &[Mark], mark: &Mark, now: &Durable) -> bool
    ensures { result ≡ may_follow now.now (last_of marks.now) mark.now }
{
    let numbers = mark.numbers();
    let limit = &numbers_in(now);
    if !is_nowhere_less(&numbers, limit) {
        return false;
    }
    match marks.last() {
        None => mark.on,
        Some(before) => before.on != mark.on && is_nowhere_less(&before.numbers(), &numbers),
    }
}
