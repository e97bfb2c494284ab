//! Books: the marks that a keeper put behind one another.
ghost use Rattle.std.specs.Prelude.{◌≡◌, ◌≢◌, ◌≤◌, Err, IfOk, MatchResult, Ok, length};
ghost use Rattle.shift_book.specs.{BookReading.{book_read}, Books.{IsBook, IsFault}};

use crate::following::next_mark;
use crate::mark::Mark;
use crate::numbers::numbers_in;
use std::alloc::Global;
use totals_record::Durable;

/// Why a text is no book.
#[derive(Clone, Copy)]
pub enum BookFault {
    /// The text has more than 1,048,576 bytes.
    TooLong,
    /// This line, counted from 1, is the first bad one: it is no line of a mark, its mark may not follow those before
    /// it, or no LF ends it.
    BadLine(u64),
    /// Memory ran out.
    NoMemory,
}

/// The greatest length of a book, in bytes.
const LONGEST: usize = 1_048_576;

/// Reads a book: the marks of its lines, in order, beside a state of the store. A mark signs on if nobody is on, and
/// off if somebody is. No number of it is smaller than in the mark before it, or greater than in the store. Each line
/// ends in LF.
///
/// `TooLong` exactly above 1,048,576 bytes, whatever its lines are. Else `BadLine` with the first line that is not of a
/// mark that may follow, if there is one. `NoMemory` if memory runs out before that is known. The form and the limit
/// are this project's own.
pub fn read_book(alloc: Global, text: &[u8], now: &Durable) -> Result<Vec<Mark>, BookFault>
    ensures meaning { MatchResult result (λ marks. IsBook now.now text.now marks.items)
        (IsFault now.now text.now) }
    ensures few { IfOk result (λ marks. length marks.items ≤ length text.now) }
    ensures marks { IfOk result (λ marks. book_read now.now text.now ≡ Ok marks.items) }
    ensures refused { (fault : BookFault) → result ≡ Err fault → fault ≢ BookFault.NoMemory
        → book_read now.now text.now ≡ Err fault }
{
    // Called for what it ensures alone: the numbers of a state fit their fields.
    let limit = numbers_in(now);
    if text.len() > LONGEST {
        return Err(BookFault::TooLong);
    }
    let mut marks = Vec::new(alloc);
    let mut rest = text;
    while !rest.is_empty() {
        match next_mark(rest, marks.as_slice(), now) {
            Some((mark, after)) => {
                if marks.push(mark).is_err() {
                    return Err(BookFault::NoMemory);
                }
                rest = after;
            }
            None => return Err(BookFault::BadLine(marks.len() as u64 + 1)),
        }
    }
    Ok(marks)
}
