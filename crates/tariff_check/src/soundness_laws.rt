//! What the definitions of faults and cuts mean.
ghost use Rattle.std.specs.{List.{Contains, range_with_len, slice_get}, Prelude.{length, map, true}};
ghost use Rattle.std.specs.Prelude.{[], ℕ, ◌++◌, ◌<◌, ◌↔◌, ◌∷◌, ◌≡◌, ◌≤◌, All, AllPairs, List, None, Some, filter};
ghost use Rattle.{tariff_tree.specs.Tree.{RiseInNumber}, tariff_check.specs.{Common.{rate_place}, Faults.{faults_of}}};
ghost use Rattle.tariff_check.specs.{AllFaults.{all_faults, row_of_fault}, FoundLines.{StandsAtItsLine, lines_of_kind}};
ghost use Rattle.tariff_check.specs.{Amounts.{HasAmountsOf, IsFitInitial, initial_by}, SoundLookups.{rate_in_force}};
ghost use Rattle.tariff_check.specs.{ChoiceLines.{choice_lines, may_have_condition, places_of}, Parts.{supplement_of}};
ghost use Rattle.tariff_check.specs.Common.{CheckFault, ChoiceKind, ChoiceLine, Context, Dimension, Entry, IsFromTo};
ghost use Rattle.tariff_check.specs.Common.{IsWritable, Line, NoCommonMeasure, Tree, choice_place, initial_place};
ghost use Rattle.tariff_check.specs.Cuts.{IsInOrder, all_cuts, cuts_of, with_each};
ghost use Rattle.tariff_check.specs.Faults.{HasNone, IsSound, fault_of, faults_before_cuts, faults_from_cuts};
ghost use Rattle.tariff_check.specs.Kinds.{initials_of, part_of, rates_of, said_by};
ghost use Rattle.tariff_check.specs.{Lines.{IsFirstLine, IsNowhere, LineTest, first_line}, Sound.{HasSoundParts}};
ghost use Rattle.tariff_check.specs.Measure.{IsLeastCommonMultiple, IsMultipleOfAll, measure_of, measures_of};
ghost use Rattle.tariff_check.specs.SoundTariff.{HasAllLines, HasFrame, IsInOnePart, sound_of, supplement_numbered};

/// The law of the faults of lines: the number that is named is that of the first line that meets the test, and none is
/// named exactly if no line meets it. If numbers rise, as those of a text do, no line that meets it has a smaller one.
pub fn faults_name_the_first_line()
    ensures named { (test : LineTest) (lines : List Line) (number : ℕ)
        → (first_line test lines ≡ Some number) ↔ IsFirstLine test lines number }
    ensures smallest { (test : LineTest) (lines : List Line) (number : ℕ) → RiseInNumber lines
        → first_line test lines ≡ Some number
        → (before after : List Line) (line : Line) → lines ≡ before ++ line ∷ after
        → test before line.entry ≡ true → number ≤ line.line }
    ensures none { (test : LineTest) (lines : List Line) → (first_line test lines ≡ None) ↔ IsNowhere test lines }
{}

/// The law of cuts: they are the numbers with which conditions compare, in order and each once. This holds of any
/// numbers that are put among none.
pub fn cuts_are_in_order()
    ensures cuts { (dimension : Dimension) (lines : List Line)
        → IsInOrder (all_cuts dimension lines) (cuts_of dimension lines) }
    ensures numbers { (numbers : List ℕ) → IsInOrder numbers (with_each [] numbers) }
{}

/// The law of all faults: the first of them is the one that `check` answers, and there is none exactly if the tariff is
/// sound. They are in the order of the table of faults, each kind once. Each that is named is there. Each fault before
/// those of cuts that is there is named. If there is none of them, each fault of cuts and of cells that is there is
/// named, too. If a measure of a rate is 0, the common measure is 0, and so isn't too great.
pub fn all_faults_begin_with_the_first()
    ensures first { (t : Tree) → slice_get (all_faults t.lines) 0 ≡ fault_of t }
    ensures none { (t : Tree) → (all_faults t.lines ≡ []) ↔ IsSound t }
    ensures in_order { (lines : List Line)
        → AllPairs (λ (above below : CheckFault). row_of_fault above < row_of_fault below) (all_faults lines) }
    ensures there { (lines : List Line)
        → All (λ (fault : CheckFault). Contains (faults_of lines) (Some fault)) (all_faults lines) }
    ensures before_cuts { (lines : List Line) (fault : CheckFault) → Contains (faults_before_cuts lines) (Some fault)
        → Contains (all_faults lines) fault }
    ensures from_cuts { (lines : List Line) (fault : CheckFault) → HasNone (faults_before_cuts lines)
        → Contains (faults_from_cuts lines) (Some fault) → Contains (all_faults lines) fault }
    ensures measure { (lines : List Line) → Contains (measures_of lines) 0 → measure_of lines ≡ 0 }
{}

/// The law of sound tariffs: a tariff without a first fault is sound, and a sound one has its parts in
/// their ranges.
pub fn sound_tariffs_have_sound_parts()
    ensures none { (t : Tree) → (fault_of t ≡ None) ↔ IsSound t }
    ensures parts { (t : Tree) → IsWritable t → IsSound t → HasSoundParts t }
{}

/// The law of the common measure: it is the least common multiple of the measures of the rates if these are above 0.
/// They are in a sound tariff, and if the common measure is refused. In a sound one it is a multiple of both measures
/// of the rate that is in force in a context.
pub fn measures_are_least()
    ensures least { (lines : List Line) → All (λ n. 0 < n) (measures_of lines)
        → IsLeastCommonMultiple (measures_of lines) (measure_of lines) }
    ensures sound { (t : Tree) → IsSound t → All (λ n. 0 < n) (measures_of t.lines) }
    ensures refused { (t : Tree) → fault_of t ≡ Some NoCommonMeasure → All (λ n. 0 < n) (measures_of t.lines) }
    ensures in_force { (t : Tree) (x : Context) → IsSound t
        → let r = rate_in_force (sound_of t) x in IsMultipleOfAll (r.b ∷ r.e ∷ []) (measure_of t.lines) }
{}

/// The law of supplements: a tariff whose numbers a text can have has supplements only of the numbers 1 to 16.
pub fn supplements_are_numbered_to_16()
    ensures { (t : Tree) (number : ℕ) → IsWritable t → ¬ (IsFromTo 1 16 number) → supplement_of t.lines number ≡ None }
{}

/// The law of lines that hold: in a sound tariff a rate and an initial hire fee hold in each context, and
/// the line of a kind that holds first is one of the tariff's.
pub fn lines_that_hold_are_there()
    ensures rate { (t : Tree) (x : Context) → IsSound t
        → (place : ℕ) × (rate_place t x ≡ Some place) × (place < length (rates_of t.lines)) }
    ensures initial { (t : Tree) (x : Context) → IsSound t
        → (place : ℕ) × (initial_place t x ≡ Some place) × (place < length (initials_of t.lines)) }
    ensures there { (kind : ChoiceKind) (t : Tree) (x : Context) (place : ℕ)
        → choice_place (part_of kind) t x ≡ Some place → place < length (said_by kind t.lines) }
{}

/// The law of hirings: each amount with which a hiring begins is that of the line of its kind that holds first at it,
/// or 0 if none does; and each is within its limits.
pub fn hirings_begin_with_first_lines()
    ensures amounts { (t : Tree) (x : Context) → IsSound t → HasAmountsOf t x (initial_by t x) }
    ensures fit { (t : Tree) (x : Context) → IsWritable t → IsSound t → IsFitInitial (initial_by t x) }
{}

/// The law of parts: a tariff as its parts has what its lines say. Each line that may have a condition is in it once,
/// with its number, in the order of the lines of its kind; so are holidays and supplements. The display step, the
/// positions and the zones of a sound tariff are told by at most one line each. Each line is told by exactly one of
/// these parts, so none is left out.
pub fn sound_tariffs_are_their_parts()
    ensures one_part { (entry : Entry) → IsInOnePart entry }
    ensures lines { (t : Tree) → HasAllLines t (sound_of t) }
    ensures frame { (t : Tree) → IsSound t → HasFrame t (sound_of t) }
    ensures supplements { (t : Tree) (number : ℕ)
        → supplement_numbered (sound_of t).supplements number ≡ supplement_of t.lines number }
{}

/// The law of choices: each choice that the lines of a tariff give stands at its line. The line at the choice's place
/// among the lines of its kind has the number that the choice names. No line is left out: the choices of a kind have
/// the places 0, 1 and so on, up to how many lines of the kind there are, and all choices are in the lines' order.
pub fn choices_stand_at_their_lines()
    ensures line { (lines : List Line) → All (StandsAtItsLine lines) (choice_lines lines) }
    ensures places { (kind : ChoiceKind) (lines : List Line)
        → places_of kind (choice_lines lines) ≡ range_with_len 0 (length (lines_of_kind kind lines)) }
    ensures order { (lines : List Line) → map (λ (c : ChoiceLine). c.line) (choice_lines lines)
        ≡ map (λ (l : Line). l.line) (filter (λ (l : Line). may_have_condition l.entry) lines) }
{}
