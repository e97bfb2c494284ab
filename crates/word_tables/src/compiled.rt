//! The tables of the tariff of a word.
ghost use Rattle.std.specs.Prelude.{[], ℕ, ◌<◌, ◌≡◌, ◌≢◌, Err, IfOk, Ok, OnOk};
ghost use Rattle.{outside.specs.{Faults.{Rose}, Reading.{LeavesOthers}}, call_ends.specs.Tariffs.{tariff_in}};
ghost use Rattle.word_tables.specs.TableSteps.{AreTablesIn};

use call_ends::{Refusal, TextFault, tariff_of_text, text_of_word};
use drive_modes::Constant;
use outside::Files;
use std::alloc::Global;
use tariff_compile::{Tables, compile};

/// The tables of a text's tariff under a constant. `Refused`: the text has no sound tariff, and why. `NoMemory`.
pub fn tables_of_text(alloc: Global, text: &[u8], constant: Constant) -> Result<Tables, TextFault>
    ensures found { IfOk result (AreTablesIn constant text.now) }
    ensures constant { IfOk result (λ tables. tables.constant ≡ constant) }
    ensures refused { (why : Refusal) → result ≡ Err (TextFault.Refused why) → tariff_in text.now ≡ Err why }
    ensures read { result ≢ Err TextFault.ReadFault }
{
    let checked = tariff_of_text(alloc, text)?;
    match compile(alloc, &checked, constant) {
        Ok(tables) => Ok(tables),
        Err(_) => Err(TextFault::NoMemory),
    }
}

/// Reads the tariff of a word, and gives its tables under a constant. It reads the file to its end if the tariff is
/// accepted. `ReadFault`: a read failed. `Refused`: there is no sound tariff, and why. `NoMemory`.
pub fn tables_of_word<F: Files>(
    alloc: Global,
    files: &mut F,
    word: usize,
    constant: Constant,
) -> Result<Tables, TextFault>
    ensures found { F.tells → IfOk result (AreTablesIn constant (F.rest files.old word)) }
    ensures constant { IfOk result (λ tables. tables.constant ≡ constant) }
    ensures ended { F.tells → OnOk result (F.rest files.new word ≡ []) }
    ensures refused { (why : Refusal) → F.tells → result ≡ Err (TextFault.Refused why)
        → tariff_in (F.rest files.old word) ≡ Err why }
    ensures read_fault { result ≡ Err TextFault.ReadFault → Rose (F.faults files.old word) (F.faults files.new word) }
    ensures others { LeavesOthers F.rest word files.old files.new }
    ensures counts { result ≢ Err TextFault.ReadFault
        → (other : ℕ) → F.faults files.new other ≡ F.faults files.old other }
{
    let text = text_of_word(alloc, files, word)?;
    tables_of_text(alloc, text.as_slice(), constant)
}
