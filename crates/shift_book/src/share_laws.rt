//! What the growth of a book goes by.
ghost use Rattle.std.specs.Prelude.{ℕ, ◌∷◌, ◌≡◌, List, None};
ghost use Rattle.shift_book.specs.{Common.{Durable, Numbers}, Shares.{growth_in}};
ghost use Rattle.shift_book.specs.{MarkOrder.{FollowOn, numbers_in}, Marks.{Signing}, Report.{IsReport, report_text}};

/// A law: two books whose first marks have the same numbers have the same growth beside the same store, whatever marks
/// are behind the first, and by whomever.
pub fn growth_goes_by_the_first_mark()
    ensures { (now : Numbers) (mark other : Signing) (marks others : List Signing) → mark.numbers ≡ other.numbers
        → growth_in now (mark ∷ marks) ≡ growth_in now (other ∷ others) }
{}

/// A law: the text of the report of a book is a report. In each column the shifts and the growth while nobody was on
/// add up to all growth, and so do the drivers' sums and it.
pub fn reports_share_the_growth()
    ensures { (decimals : ℕ) (now : Durable) (marks : List Signing) → FollowOn now None marks
        → IsReport decimals (numbers_in now) marks (report_text decimals (numbers_in now) marks) }
{}
