//! Laws of what the words of the hiring log mean.
ghost use Rattle.std.specs.Prelude.{[], ℕ, ◌++◌, ◌≡◌, List, Option, Some};
ghost use Rattle.log_commands.specs.{Calls.{AppendsNothing, FilesUpTo}, declared.roll.RollEnd.TheVariants.{Whole}};
ghost use Rattle.log_commands.specs.{Common.{File, FileEnd}, Filed.{EndsAt, Files}};
ghost use Rattle.log_commands.specs.{Reading.{HasRead, Place}, Record.{IsRecord, Record}, Roll.{AreOnRoll, Reads}};

/// A law: no receipt's text is the beginning of another's, and none lies in another's with more behind it.
pub fn receipts_stand_apart()
    ensures beginning { (one other : Record) (more : List ℕ) → IsRecord one → IsRecord other
        → other.text ≡ one.text ++ more → more ≡ [] }
    ensures within { (one other : Record) (before behind : List ℕ) → IsRecord one → IsRecord other
        → other.text ≡ before ++ (one.text ++ behind) → behind ≡ [] }
{}

/// A law: the receipts of a beginning of a roll are the first of the roll's.
pub fn a_beginning_is_read_as_the_roll()
    ensures { (taken more rest : List ℕ) (some all : List Record) → Reads taken some rest
        → AreOnRoll all (taken ++ more) → (others : List Record) × (all ≡ some ++ others) }
{}

/// A law: a roll is read in one way.
pub fn a_roll_is_read_once()
    ensures { (roll : List ℕ) (a b : List Record) → AreOnRoll a roll → AreOnRoll b roll → a ≡ b }
{}

/// A law: a reader that is done has handed out the receipts of the bytes that it took, and those of the whole roll if
/// it reached the roll's end.
pub fn a_reader_hands_out_the_receipts()
    ensures taken { (roll : List ℕ) (place : Place) (rest : List ℕ) (receipts : List Record)
        → (read : HasRead roll place rest receipts) → place.ahead ≡ [] → AreOnRoll receipts read.taken }
    ensures all { (roll : List ℕ) (place : Place) (rest : List ℕ) (receipts : List Record)
        → HasRead roll place rest receipts → place.ahead ≡ [] → place.end ≡ Some Whole → AreOnRoll receipts roll }
{}

/// A law: the receipts of a roll are filed in one way.
pub fn receipts_are_filed_once()
    ensures filed { (newest last last' : Option Record) (receipts filed filed' : List Record)
        → Files newest receipts filed last → Files newest receipts filed' last' → filed ≡ filed' }
    ensures last { (newest last last' : Option Record) (receipts filed filed' : List Record)
        → Files newest receipts filed last → Files newest receipts filed' last' → last ≡ last' }
{}

/// A law: if the same receipts are filed again, up to one of another taxi too, nothing is appended.
pub fn filing_again_appends_nothing()
    ensures files { (newest last : Option Record) (receipts filed : List Record)
        → Files newest receipts filed last → Files last receipts [] last }
    ensures ends { (newest last : Option Record) (roll : List ℕ) (filed : List Record) (place : ℕ)
        → EndsAt newest roll filed last place → EndsAt last roll [] last place }
    ensures calls { (image roll rest : List ℕ) (end : FileEnd) (found filed : List Record) → AppendsNothing image roll
        → FilesUpTo (Some File) image roll rest end found filed → filed ≡ [] }
{}
