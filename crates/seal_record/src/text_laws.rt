//! What texts of parameters mean, in words that share nothing with how they are read.
ghost use Rattle.std.specs.Prelude.{ℕ, ℤ, ◌↔◌, ◌≡◌, Err, List, Ok, Some, true};
ghost use Rattle.seal_record.specs.Common.{IsNumberIn, IsOffsetList, ParamFault, Params, number_in};
ghost use Rattle.seal_record.specs.{Lines.{key_in, lines_of, value_in}, TextParts.{AreLines, BreaksAt, IsParted}};
ghost use Rattle.seal_record.specs.{OffsetList.{is_offset_list}, Reading.{lines_read, params_read}, Values.{taxi_read}};
ghost use Rattle.seal_record.specs.{ParamsSoFar.{ParamsSoFar}, Ranges.{IsParams, IsTaxi}};

/// A law of the parts of a text. Its lines end with an LF, and perhaps a CR before it; what stands behind the last LF
/// is its last line. A line is its key, one blank and its value, or its key alone. A number is written by 1 to 12
/// digits. A taxi identifier is its text. A list of offsets may be so far exactly if it is lawful. The fault of a text
/// is that of the first line that is bad: all lines before it are good, and its number is its place among all lines.
pub fn texts_say_parameters_line_by_line()
    ensures lines { (text : List ℕ) (lines : List (List ℕ)) → (lines_of text ≡ lines) ↔ AreLines text lines }
    ensures parts { (line key value : List ℕ) → ((key_in line ≡ key) × (value_in line ≡ value))
        ↔ IsParted line key value }
    ensures numbers { (low high : ℕ) (text : List ℕ) (n : ℕ)
        → (number_in low high text ≡ Some n) ↔ IsNumberIn low high text n }
    ensures taxis { (text taxi : List ℕ) → (taxi_read text ≡ Some taxi) ↔ (IsTaxi text × (text ≡ taxi)) }
    ensures offsets { (pairs : List (ℕ × ℤ)) → (is_offset_list pairs ≡ true) ↔ IsOffsetList pairs }
    ensures first_bad { (said : ParamsSoFar) (number : ℕ) (lines : List (List ℕ)) (fault : ParamFault)
        → (lines_read said number lines ≡ Err fault) ↔ BreaksAt said number lines fault }
{}

/// A law: the parameters that a text says are in their ranges, so they may be sealed.
pub fn parameters_are_in_their_ranges()
    ensures { (text : List ℕ) (params : Params) → params_read text ≡ Ok params → IsParams params }
{}
