//! Reads the tariff that was sealed.
ghost use Rattle.std.specs.{Cmp.Lexicographic.{pointwise}, Prelude.{◌≡◌, ◌≤◌, Err, IfOk, Ok, length, nat_eq}};
ghost use Rattle.store_commands.specs.Common.{IsOfLines, ReadsWord, Rose, tariff_in, tree_of};
ghost use Rattle.store_commands.specs.SealedTariff.{HasSealedLines, MayLackSealed, sealed_tariff};
ghost use Rattle.store_commands.specs.TariffSteps.{AreNoTables, IsNoTables};

use call_ends::{Ended, refused_by, tariff_of_text, text_of_word};
use outside::Files;
use sha2::{Digest, Sha256};
use std::alloc::Global;
use tariff_check::Checked;

/// Whether a digest is the sealed one.
fn is_sealed(digest: &[u8; 32], own: &[u8; 32]) -> bool
    ensures { result ≡ pointwise nat_eq digest.now own.now }
{
    digest.as_slice() == own.as_slice()
}

/// The tariff of a text.
fn tariff_of(alloc: Global, text: &[u8]) -> Result<Checked, Ended>
    ensures found { IfOk result (λ checked. tariff_in text.now ≡ Ok (tree_of checked)) }
    ensures refused { (why : Ended) → result ≡ Err why → IsNoTables text.now why }
    ensures memory { result ≡ Err Ended.NoMemory → IsOfLines text.now }
{
    match tariff_of_text(alloc, text) {
        Ok(checked) => Ok(checked),
        Err(fault) => Err(refused_by(fault)),
    }
}

/// The tariff of a text, if it is the sealed one. It asks for the digest before the content.
fn sealed_of_text(alloc: Global, text: &[u8], digest: &[u8; 32]) -> Result<Checked, Ended>
    requires { length text.now ≤ 65536 }
    ensures found { IfOk result (λ checked. sealed_tariff digest.now text.now ≡ Ok (tree_of checked)) }
    ensures refused { (why : Ended) → result ≡ Err why → AreNoTables digest.now text.now ⊥ why }
    ensures memory { result ≡ Err Ended.NoMemory → HasSealedLines digest.now text.now }
{
    let own = Sha256::digest(text);
    if is_sealed(digest, &own) {
        return tariff_of(alloc, text);
    }
    let digest = *digest;
    Err(Ended::WrongTariff(digest, own))
}

/// Reads the sealed tariff from word 1. It asks for the length of the text before its digest. `NoMemory` comes only if
/// nothing was read, or if the text has the sealed digest and the lines of a tariff.
pub fn read_sealed<F: Files>(
    alloc: Global,
    files: &mut F,
    digest: &[u8; 32],
) -> Result<Checked, Ended>
    ensures found { F.tells
        → IfOk result (λ checked. sealed_tariff digest.now (F.rest files.old 1) ≡ Ok (tree_of checked)) }
    ensures refused { (why : Ended) → F.tells → result ≡ Err why
        → AreNoTables digest.now (F.rest files.old 1) (Rose (F.faults files.old 1) (F.faults files.new 1)) why }
    ensures memory { F.tells → result ≡ Err Ended.NoMemory
        → MayLackSealed digest.now (F.rest files.old 1) (F.rest files.new 1) }
    ensures reads { ReadsWord F.Files 1 files.old files.new result }
{
    let text = match text_of_word(alloc, files, 1) {
        Ok(text) => text,
        Err(fault) => return Err(refused_by(fault)),
    };
    sealed_of_text(alloc, text.as_slice(), digest)
}
