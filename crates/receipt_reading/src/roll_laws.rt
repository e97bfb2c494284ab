//! Laws of what the receipts of a roll are.
ghost use Rattle.std.specs.Prelude.{[], ℕ, ◌++◌, ◌<◌, ◌≡◌, ◌⊎◌, List, Some, length};
ghost use Rattle.receipt_reading.specs.{Printed.{IsPrinted, Printed}, Reading.{HasRead, Place}};
ghost use Rattle.receipt_reading.specs.{Roll.{AreOnRoll, IsFirst, Reads}, declared.roll.RollEnd.TheVariants.{Whole}};

/// A law: receipts of one text are one, no receipt's text is the beginning of another's, and none lies in another's
/// with more behind it.
pub fn receipts_stand_apart()
    ensures one { (one other : Printed) → one.text ≡ other.text → IsPrinted one → IsPrinted other → one ≡ other }
    ensures beginning { (one other : Printed) (more : List ℕ) → IsPrinted one → IsPrinted other
        → other.text ≡ one.text ++ more → more ≡ [] }
    ensures within { (one other : Printed) (before behind : List ℕ) → IsPrinted one → IsPrinted other
        → other.text ≡ before ++ (one.text ++ behind) → behind ≡ [] }
{}

/// A law: the receipts of a beginning of a roll are the first of the roll's, and the beginning is read as far as a
/// receipt in it as with more behind it.
pub fn a_beginning_is_read_as_the_roll()
    ensures first { (taken more rest : List ℕ) (some all : List Printed) → Reads taken some rest
        → AreOnRoll all (taken ++ more) → IsFirst some all }
    ensures longer { (taken more rest : List ℕ) (some : List Printed) → Reads taken some rest → 0 < length some
        → (after : List ℕ) × Reads (taken ++ more) some after }
{}

/// A law: a roll is read in one way, to its end or less far.
pub fn a_roll_is_read_once()
    ensures whole { (roll : List ℕ) (a b : List Printed) → AreOnRoll a roll → AreOnRoll b roll → a ≡ b }
    ensures agree { (text rest rest' : List ℕ) (a b : List Printed) → Reads text a rest → Reads text b rest'
        → IsFirst a b ⊎ IsFirst b a }
    ensures first { (text rest : List ℕ) (some more : List Printed) → Reads text (some ++ more) rest
        → (mid : List ℕ) × Reads text some mid }
{}

/// A law: a reader has handed out receipts of the bytes that it took. One that is done has handed out all of these, and
/// those of the whole roll if it reached the roll's end.
pub fn a_reader_hands_out_the_receipts()
    ensures so_far { (roll : List ℕ) (place : Place) (rest : List ℕ) (receipts : List Printed)
        → (read : HasRead roll place rest receipts) → Reads read.taken receipts place.ahead }
    ensures taken { (roll : List ℕ) (place : Place) (rest : List ℕ) (receipts : List Printed)
        → (read : HasRead roll place rest receipts) → place.ahead ≡ [] → AreOnRoll receipts read.taken }
    ensures all { (roll : List ℕ) (place : Place) (rest : List ℕ) (receipts : List Printed)
        → HasRead roll place rest receipts → place.ahead ≡ [] → place.end ≡ Some Whole → AreOnRoll receipts roll }
{}
