//! A plain text of parameters, and what it is read as.
ghost use Rattle.std.specs.Prelude.{ℕ, ◌+◌, ◌≡◌, ◌≤◌, All, List, Ok, length, map};
ghost use Rattle.seal_record.specs.{Common.{Params}, Limits.{longest_text}, Ranges.{IsParams}, Reading.{params_read}};
ghost use Rattle.seal_record.specs.PlainText.{AreShown, comment_line, commented_text, ended_text, plain_text};

/// A law: parameters in their ranges are written by a plain text, a line for each and for each pair of
/// the offsets, and that text is read as them.
pub fn plain_texts_are_read_back()
    ensures { (params : Params) → IsParams params → params_read (plain_text params) ≡ Ok params }
{}

/// A law: a plain text with comments in front is read as the same parameters, if it is no longer than a text may be. It
/// is at most 1,517 bytes longer than its comments.
pub fn comments_are_passed_over()
    ensures read { (comments : List (List ℕ)) (params : Params) → IsParams params → All AreShown comments
        → length (commented_text comments params) ≤ longest_text
        → params_read (commented_text comments params) ≡ Ok params }
    ensures short { (comments : List (List ℕ)) (params : Params) → IsParams params
        → length (commented_text comments params) ≤ length (ended_text (map comment_line comments)) + 1517 }
{}
