//! The six numbers of a mark.
ghost use Rattle.std.specs.Prelude.{◌++◌, ◌+◌, ◌≡◌, ◌≤◌};
ghost use Rattle.{arrayvec.specs.ArrayVec.{array_vec_len}, shift_book.specs.BookReading.{is_nowhere_less}};
ghost use Rattle.shift_book.specs.{Common.{Gives, GivesSame, line_size}, Marks.{number_text, numbers_of, numbers_text}};
ghost use Rattle.shift_book.specs.MarkOrder.{Fit, numbers_in};
ghost use Rattle.shift_book.specs.Reading as spec;

use crate::digits::digits_at;
use taxi_units::{Line, push_bytes, push_number, word};
use totals_record::Durable;

/// The number of a state, and its totals in the order of a mark.
#[derive(Clone, Copy)]
pub(crate) struct Numbers {
    pub number: u64,
    pub distance_mm: u128,
    pub hired_mm: u128,
    pub hirings: u64,
    pub supplements: u128,
    pub fare: u128,
}

/// The numbers of a state of the store.
pub(crate) fn numbers_in(now: &Durable) -> Numbers
    ensures numbers { result ≡ numbers_in now.now }
    ensures fit { Fit result }
{
    numbers_of(
        now.number,
        now.totals.distance_mm,
        now.totals.hired_mm,
        now.totals.hirings,
        now.totals.supplements,
        now.totals.fare,
    )
}

/// Six numbers.
pub(crate) fn numbers_of(
    number: u64,
    distance_mm: u128,
    hired_mm: u128,
    hirings: u64,
    supplements: u128,
    fare: u128,
) -> Numbers
    ensures numbers { result ≡ numbers_of number distance_mm hired_mm hirings supplements fare }
    ensures fit { Fit result }
{
    Numbers {
        number,
        distance_mm,
        hired_mm,
        hirings,
        supplements,
        fare,
    }
}

/// Whether none of the numbers is smaller than before.
pub(crate) fn is_nowhere_less(before: &Numbers, after: &Numbers) -> bool
    ensures { result ≡ is_nowhere_less before.now after.now }
{
    before.number <= after.number
        && before.distance_mm <= after.distance_mm
        && before.hired_mm <= after.hired_mm
        && before.hirings <= after.hirings
        && before.supplements <= after.supplements
        && before.fare <= after.fare
}

/// Appends the numbers, each behind a blank, and the end of the line.
pub(crate) fn push_numbers(line: &mut Line, numbers: &Numbers)
    requires room { array_vec_len line.old + 220 ≤ line_size }
    ensures text { line.new.items ≡ line.old.items ++ numbers_text numbers.now }
    ensures some { array_vec_len line.old ≤ array_vec_len line.new }
    ensures most { array_vec_len line.new ≤ array_vec_len line.old + 203 }
{
    push_count(line, numbers.number);
    push_field(line, numbers.distance_mm);
    push_field(line, numbers.hired_mm);
    push_count(line, numbers.hirings);
    push_field(line, numbers.supplements);
    push_field(line, numbers.fare);
    push_bytes(line, b"\n");
}

/// Appends a number behind a blank.
pub(crate) fn push_field(line: &mut Line, value: u128)
    requires room { array_vec_len line.old + 40 ≤ line_size }
    ensures text { line.new.items ≡ line.old.items ++ number_text value }
    ensures most { array_vec_len line.new ≤ array_vec_len line.old + 40 }
{
    push_bytes(line, b" ");
    push_number(line, value);
}

/// Appends a number below 2^64 behind a blank.
fn push_count(line: &mut Line, value: u64)
    requires room { array_vec_len line.old + 40 ≤ line_size }
    ensures text { line.new.items ≡ line.old.items ++ number_text value }
    ensures most { array_vec_len line.new ≤ array_vec_len line.old + 21 }
{
    push_field(line, value as u128);
}

/// The six numbers at the front of a text, each behind a blank.
#[tactic(auto, unfolding(crate::specs::Reading::numbers_at))]
pub(crate) fn numbers_at(text: &[u8]) -> Option<Numbers>
    ensures { GivesSame result (spec.numbers_at text.now) }
{
    let (number, text) = count_at(text)?;
    let (distance_mm, text) = amount_at(text)?;
    let (hired_mm, text) = amount_at(text)?;
    let (hirings, text) = count_at(text)?;
    let (supplements, text) = amount_at(text)?;
    let (fare, _) = amount_at(text)?;
    Some(Numbers {
        number,
        distance_mm,
        hired_mm,
        hirings,
        supplements,
        fare,
    })
}

/// A number below 2^64 behind a blank, and what is behind it.
#[tactic(auto, unfolding(crate::specs::Reading::count_at))]
fn count_at(text: &[u8]) -> Option<(u64, &[u8])>
    ensures { Gives (λ x. (x.0, x.1.now)) result (spec.count_at text.now) }
{
    let (value, rest) = amount_at(text)?;
    if value <= u128::from(u64::MAX) {
        Some((value as u64, rest))
    } else {
        None
    }
}

/// A number below 2^128 behind a blank, and what is behind it.
#[tactic(auto, unfolding(crate::specs::Reading::amount_at))]
fn amount_at(text: &[u8]) -> Option<(u128, &[u8])>
    ensures { Gives (λ x. (x.0, x.1.now)) result (spec.amount_at text.now) }
{
    let text = word(text, b" ")?;
    digits_at(text)
}
