//! What the answer to the text of a book means; a text has one answer at most.
ghost use Rattle.std.specs.Prelude.{ℕ, ◌<◌, ◌↔◌, ◌≡◌, Err, List, Ok, length};
ghost use Rattle.shift_book.specs.{BookReading.{book_read}, Marks.{Signing}};
ghost use Rattle.shift_book.specs.{Books.{IsBook, IsFirstBad, longest}, Common.{Durable}, MarkOrder.{Fit, numbers_in}};
ghost use Rattle.shift_book.specs.declared.book.BookFault.TheVariants as BookFault;

/// A law: beside one state of the store a text is a book of one list of marks at most, has one first bad line at most,
/// and never both.
pub fn books_are_read_one_way()
    ensures marks { (now : Durable) (text : List ℕ) (a b : List Signing) → Fit (numbers_in now)
        → IsBook now text a → IsBook now text b → a ≡ b }
    ensures lines { (now : Durable) (text : List ℕ) (a b : ℕ) → Fit (numbers_in now)
        → IsFirstBad now text a → IsFirstBad now text b → a ≡ b }
    ensures never_both { (now : Durable) (text : List ℕ) (marks : List Signing) (line : ℕ) → Fit (numbers_in now)
        → IsBook now text marks → ¬ (IsFirstBad now text line) }
{}

/// A law: the answer to a text is its marks exactly if it is a book of them, its first bad line exactly if it has one,
/// and that it is too long exactly above 1,048,576 bytes.
pub fn texts_are_read_as_they_say()
    ensures marks { (now : Durable) (text : List ℕ) (marks : List Signing) → Fit (numbers_in now)
        → (book_read now text ≡ Ok marks) ↔ IsBook now text marks }
    ensures lines { (now : Durable) (text : List ℕ) (line : ℕ) → Fit (numbers_in now)
        → (book_read now text ≡ Err (BookFault.BadLine line)) ↔ IsFirstBad now text line }
    ensures long { (now : Durable) (text : List ℕ) → Fit (numbers_in now)
        → (book_read now text ≡ Err BookFault.TooLong) ↔ (longest < length text) }
{}
