//! Of which texts a meter's tables and seal are made.
ghost use Rattle.std.specs.Prelude.{ℕ, ◌≡◌, List, Ok};
ghost use Rattle.{seal_record.specs.Reading.{params_read}, tariff_compile.specs.Tables.{IsTablesOf, tables_of}};
ghost use Rattle.meter_texts.specs.{Common.{IsSound, Reads, Seal, TableParts, Tree}, MadeOf.{AreMadeOf}};

/// The law of making: take the sound tariff that a text reads as, and the parameters that another text says. Then the
/// tables of the tariff under the parameters' constant, and a seal with these parameters, are made of the two texts.
pub fn meters_are_made_of_their_texts()
    ensures { (tariff params : List ℕ) (t : Tree) (tables : TableParts) (seal : Seal) → Reads tariff t → IsSound t
        → params_read params ≡ Ok seal.params → IsTablesOf t tables → tables ≡ tables_of t seal.params.constant
        → AreMadeOf tariff params tables seal }
{}
