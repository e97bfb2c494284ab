//! The forms of values, in words that share nothing with how they are read.
ghost use Rattle.std.specs.Prelude.{ℕ, ℤ, ◌↔◌, ◌≡◌, Err, List, Ok, Some};
ghost use Rattle.seal_record.specs.{Common.{Mode, ParamFault}, Forms.{IsDateText, IsModeText, IsPairText}};
ghost use Rattle.seal_record.specs.{Faults.{IsBad}, ParamLine.{LineAddsParam}, ParamsSoFar.{ParamsSoFar}};
ghost use Rattle.seal_record.specs.{ParamLineStages.{line_read}, Values.{mode_read, pair_read, secured_read}};

/// A law: a mode is one of two words; an offset's value is the digits of its second, one blank, and a
/// number with a minus before it or not; and the date of securing is YYYY-MM-DD of the years 2000 to
/// 2199, whose day number the calendar gives. Values of these forms are read, and no others.
pub fn values_are_read_by_their_forms()
    ensures modes { (text : List ℕ) (mode : Mode) → (mode_read text ≡ Some mode) ↔ IsModeText text mode }
    ensures pairs { (text : List ℕ) (pair : ℕ × ℤ) → (pair_read text ≡ Some pair) ↔ IsPairText text pair }
    ensures dates { (text : List ℕ) (day : ℤ) → (secured_read text ≡ Some day) ↔ IsDateText text day }
{}

/// A law: a line is good exactly if it says nothing, or says a parameter that has not been said before by a value of
/// its form, or one offset more of a lawful list. Then it says that alone.
pub fn lines_say_their_parameter()
    ensures { (said more : ParamsSoFar) (number : ℕ) (line : List ℕ)
        → (line_read said number line ≡ Ok more) ↔ LineAddsParam said line more }
{}

/// A law: a line is refused exactly if it is bad. Its fault is the first that it has: its key is no parameter's, or it
/// says a parameter a second time, or its value says nothing.
pub fn bad_lines_have_their_fault()
    ensures { (said : ParamsSoFar) (number : ℕ) (line : List ℕ) (fault : ParamFault)
        → (line_read said number line ≡ Err fault) ↔ IsBad said number line fault }
{}
