//! What the lines of marks mean, in words that share nothing with how they are written and read.
ghost use Rattle.std.specs.Prelude.{ℕ, ◌↔◌, ◌≡◌, List, Some};
ghost use Rattle.shift_book.specs.MarkOrder.{Fit};
ghost use Rattle.shift_book.specs.{Marks.{HasDriver, IsDriver, IsMarkLine, Signing, mark_text}, Reading.{driver_of}};

/// A law: the line of a mark whose driver is as said is the one that is written of it.
pub fn marks_are_their_lines()
    ensures { (line : List ℕ) (mark : Signing) → Fit mark.numbers
        → IsMarkLine line mark ↔ (HasDriver mark.on mark.driver × (line ≡ mark_text mark)) }
{}

/// A law: a word is read as a driver exactly if it is one, and as no other than itself.
pub fn drivers_are_their_words()
    ensures { (word driver : List ℕ) → (driver_of word ≡ Some driver) ↔ (IsDriver word × (word ≡ driver)) }
{}
