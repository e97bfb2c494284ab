//! Reads the tariff of a word.
ghost use Rattle.std.specs.Prelude.{[], ℕ, ◌<◌, ◌≡◌, ◌≢◌, ◌≤◌, ◌⊎◌, Err, IfOk, Ok, OnOk, length, vec_len};
ghost use Rattle.call_ends.specs.{Common.{LeavesOthers, Rose, tree_of}, Tariffs.{IsOfLines, tariff_in}};
ghost use Rattle.call_ends.specs.Ending.{unsound_for};

use outside::{Files, read_text};
use std::alloc::Global;
use tariff_check::{CheckFault, Checked, check};
use tariff_syntax::{ParseFault, parse};

/// Why a tariff isn't accepted.
#[derive(Clone, Copy)]
pub enum Refusal {
    /// It has more than 65,536 bytes.
    TooLong,
    /// This line, from 1 on, is the first that is no line of a tariff.
    Syntax(u32),
    /// It isn't sound: this is its first fault.
    Unsound(CheckFault),
}

/// Why a text wasn't read.
#[derive(Clone, Copy)]
pub enum TextFault {
    /// A read failed.
    ReadFault,
    /// The tariff isn't accepted.
    Refused(Refusal),
    /// Memory ran out.
    NoMemory,
}

/// How many bytes a tariff has at most.
const MOST: usize = 65_536;

/// Reads what is left of a word's file, to its end. `Refused`: it has more than 65,536 bytes. `NoMemory`: nothing was
/// read.
pub fn text_of_word<F: Files>(
    alloc: Global,
    files: &mut F,
    word: usize,
) -> Result<Vec<u8>, TextFault>
    ensures text { F.tells → IfOk result (λ text. text.items ≡ F.rest files.old word) }
    ensures few { IfOk result (λ text. vec_len text ≤ 65536) }
    ensures ended { F.tells → OnOk result (F.rest files.new word ≡ []) }
    ensures refused { (why : Refusal) → F.tells → result ≡ Err (TextFault.Refused why)
        → tariff_in (F.rest files.old word) ≡ Err why }
    ensures long { (why : Refusal) → F.tells → result ≡ Err (TextFault.Refused why)
        → (why ≡ Refusal.TooLong) × (65536 < length (F.rest files.old word)) }
    ensures memory { result ≡ Err TextFault.NoMemory → files.new ≡ files.old }
    ensures read_fault { result ≡ Err TextFault.ReadFault → Rose (F.faults files.old word) (F.faults files.new word) }
    ensures others { LeavesOthers F.rest word files.old files.new }
    ensures counts { result ≢ Err TextFault.ReadFault
        → (other : ℕ) → F.faults files.new other ≡ F.faults files.old other }
{
    match read_text(alloc, files, word, MOST) {
        Ok(text) => Ok(text),
        Err(outside::TextFault::TooLong) => Err(TextFault::Refused(Refusal::TooLong)),
        Err(outside::TextFault::DeviceFailed) => Err(TextFault::ReadFault),
        Err(outside::TextFault::NoMemory) => Err(TextFault::NoMemory),
    }
}

/// Why a text isn't read whose tariff has this fault.
fn unsound(fault: CheckFault) -> TextFault
    ensures { result ≡ unsound_for fault }
{
    match fault {
        CheckFault::NoMemory => TextFault::NoMemory,
        fault => TextFault::Refused(Refusal::Unsound(fault)),
    }
}

/// The sound tariff of a text. `NoMemory` comes only if the lines are those of a tariff, sound or not.
#[tactic(auto, using(tariff_syntax::proofs::Laws::parsed_is_writable, crate::proofs::Tariffs::syntax_of))]
pub fn tariff_of_text(alloc: Global, text: &[u8]) -> Result<Checked, TextFault>
    ensures found { IfOk result (λ c. tariff_in text.now ≡ Ok (tree_of c)) }
    ensures refused { (why : Refusal) → result ≡ Err (TextFault.Refused why) → tariff_in text.now ≡ Err why }
    ensures memory { result ≡ Err TextFault.NoMemory → IsOfLines text.now }
    ensures read { result ≢ Err TextFault.ReadFault }
{
    match parse(alloc, text) {
        Ok(tariff) => match check(alloc, tariff) {
            Ok(checked) => Ok(checked),
            Err(fault) => Err(unsound(fault)),
        },
        Err(ParseFault::TooLong) => Err(TextFault::Refused(Refusal::TooLong)),
        Err(ParseFault::Syntax { line }) => Err(TextFault::Refused(Refusal::Syntax(line))),
        Err(ParseFault::NoMemory) => Err(TextFault::NoMemory),
    }
}

/// Reads the sound tariff of a word, to the end of its file if it is accepted. `NoMemory` comes only if nothing was
/// read, or if the lines are those of a tariff, sound or not.
pub fn read_tariff<F: Files>(
    alloc: Global,
    files: &mut F,
    word: usize,
) -> Result<Checked, TextFault>
    ensures found { F.tells → IfOk result (λ c. tariff_in (F.rest files.old word) ≡ Ok (tree_of c)) }
    ensures ended { F.tells → OnOk result (F.rest files.new word ≡ []) }
    ensures refused { (why : Refusal) → F.tells → result ≡ Err (TextFault.Refused why)
        → tariff_in (F.rest files.old word) ≡ Err why }
    ensures memory { F.tells → result ≡ Err TextFault.NoMemory
        → (files.new ≡ files.old) ⊎ IsOfLines (F.rest files.old word) }
    ensures read_fault { result ≡ Err TextFault.ReadFault → Rose (F.faults files.old word) (F.faults files.new word) }
    ensures others { LeavesOthers F.rest word files.old files.new }
    ensures counts { result ≢ Err TextFault.ReadFault
        → (other : ℕ) → F.faults files.new other ≡ F.faults files.old other }
{
    let text = text_of_word(alloc, files, word)?;
    tariff_of_text(alloc, text.as_slice())
}
