//! What the tariff language means. The relations of texts share with the parser the tables of bytes (blanks, letters,
//! the bytes of a figure), and the cutting into lines, which has its law here. With the printed form they share the
//! words, the parts of entries, and the tables of the names of weekdays and of roundings.
ghost use Rattle.{std.specs.List.{AllPairs, Contains, slice_get}, tariff_tree.specs.Tree.{RiseInNumber}};
ghost use Rattle.std.specs.Prelude.{[], ℕ, ◌<◌, ◌↔◌, ◌≡◌, ◌⊎◌, All, Err, List, Ok, Some};
ghost use Rattle.tariff_syntax.specs.{BadLines.{bad_lines}, Printed.{printed_form}, Renumbered.{renumbered}};
ghost use Rattle.tariff_syntax.specs.{Common.{Condition, Entry, IsWritable, IsWritableEntry, Tree}, Token.{Token}};
ghost use Rattle.tariff_syntax.specs.{Formless.{HasNoForm}, Parsed.{tree_parsed}};
ghost use Rattle.tariff_syntax.specs.{IsItem.{IsItem}, Reads.{IsFirstBadLine, Reads}, TextLines.{AreLines, lines_of}};
ghost use Rattle.tariff_syntax.specs.{LineTable.{HasTableRanges, IsTableLine}, Parentheses.{NeedsParentheses}};

/// The law of texts: a text either reads as a tariff, and as no other, or it has a first bad line, and no other.
pub fn texts_read_as_one_tariff()
    ensures either { (text : List ℕ) → ((t : Tree) × Reads text t) ⊎ ((line : ℕ) × IsFirstBadLine text line) }
    ensures not_both { (text : List ℕ) (t : Tree) (line : ℕ) → Reads text t → IsFirstBadLine text line → ⊥ }
    ensures one_tariff { (text : List ℕ) (t u : Tree) → Reads text t → Reads text u → t ≡ u }
    ensures one_line { (text : List ℕ) (line other : ℕ)
        → IsFirstBadLine text line → IsFirstBadLine text other → line ≡ other }
{}

/// The law of parsing: what a text is parsed as, line after line, is what it reads as, and the line at which parsing
/// ends is its first bad line.
pub fn texts_are_parsed_as_they_read()
    ensures tariff { (text : List ℕ) (t : Tree) → Reads text t ↔ (tree_parsed text ≡ Ok t) }
    ensures bad_line { (text : List ℕ) (line : ℕ) → IsFirstBadLine text line ↔ (tree_parsed text ≡ Err line) }
{}

/// The law of bad lines: each line that is named as bad has no form, and each line that has none is named, once and in
/// order. The first of them is the text's first bad line, and none is named exactly if the text reads as a tariff.
pub fn bad_lines_have_no_form()
    ensures named { (text : List ℕ) → All (HasNoForm text) (bad_lines text) }
    ensures each { (text : List ℕ) (line : ℕ) → HasNoForm text line → Contains (bad_lines text) line }
    ensures in_order { (text : List ℕ) → AllPairs (λ (above below : ℕ). above < below) (bad_lines text) }
    ensures first { (text : List ℕ) (line : ℕ)
        → IsFirstBadLine text line ↔ (slice_get (bad_lines text) 0 ≡ Some line) }
    ensures none { (text : List ℕ) → (bad_lines text ≡ []) ↔ ((t : Tree) × Reads text t) }
{}

/// The law of printed forms: the printed form of a tariff that a text reads as reads as that tariff, but for the
/// numbers of its lines.
pub fn printed_forms_read_back()
    ensures { (text : List ℕ) (t : Tree) → Reads text t → Reads (printed_form t) (renumbered t) }
{}

/// The law of numbers: each number of a tariff that a text reads as is in the range of its place in a text.
pub fn texts_have_their_numbers()
    ensures { (text : List ℕ) (t : Tree) → Reads text t → IsWritable t }
{}

/// The law of the table: the tokens of a line say an entry exactly if the table of lines has them. An entry is one that
/// a text can have exactly if each of its numbers is in the range that the table gives. So the parts of an entry, of
/// which its text, its printed form and its ranges are made, agree with a table of their own.
pub fn lines_are_those_of_the_table()
    ensures forms { (decimals : ℕ) (tokens : List Token) (entry : Entry)
        → IsItem decimals tokens entry ↔ IsTableLine decimals tokens entry }
    ensures ranges { (entry : Entry) → IsWritableEntry entry ↔ HasTableRanges entry }
{}

/// The law of lines: none of the lines of a text has a line feed, and the text is each of them, followed by a line
/// feed, but perhaps for the last.
pub fn texts_are_cut_at_their_line_feeds()
    ensures { (text : List ℕ) (lines : List (List ℕ)) → AreLines text lines ↔ (lines_of text ≡ lines) }
{}

/// The law of line numbers: each line of a tariff that a text reads as has a greater number than those above it.
pub fn lines_rise_in_number()
    ensures { (text : List ℕ) (t : Tree) → Reads text t → RiseInNumber t.lines }
{}

/// The law of parentheses: a printed condition has no pair of them that could go: without it the tokens don't read as
/// that condition.
pub fn parentheses_are_needed()
    ensures { (c : Condition) → NeedsParentheses c }
{}
