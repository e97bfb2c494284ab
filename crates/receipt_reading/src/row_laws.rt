//! Laws of what the rows of receipts tell.
ghost use Rattle.std.specs.{List.{AllByRecursion, slice_split}, Prelude.{◌++◌, ◌==◌, ◌≡◌, codes}};
ghost use Rattle.receipt_reading.specs.Printed.{IsPrinted, Printed};
ghost use Rattle.receipt_reading.specs.ReceiptRows.{IsPlain, fields_of, in_turn, row_of, words_of};

/// A law: the fields of a row are what its receipt says: with the words of the receipt's lines between them they are
/// the receipt's text. A row that is cut at its commas gives the fields, none of which needs a quotation mark, and two
/// receipts with one row are one.
pub fn rows_tell_their_receipts()
    ensures values { (it : Printed) → IsPrinted it
        → it.text ≡ in_turn (words_of it) (fields_of it) (codes "\nEND\n") }
    ensures plain { (it : Printed) → IsPrinted it → AllByRecursion IsPlain (fields_of it) }
    ensures cut { (it : Printed) → IsPrinted it → slice_split (λ byte. byte == 44) (row_of it) ≡ fields_of it }
    ensures one { (a b : Printed) → IsPrinted a → IsPrinted b → row_of a ≡ row_of b → a ≡ b }
{}
