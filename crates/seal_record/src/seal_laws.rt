//! What a slot's bytes are read as.
ghost use Rattle.std.specs.Prelude.{ℕ, ◌↔◌, ◌≡◌, List, Some};
ghost use Rattle.seal_record.specs.{Decoding.{reads}, Ranges.{IsSeal}, Spelling.{spelling}, declared.seal.Seal.{Seal}};

/// A law: bytes are read as a seal exactly if each of its fields is in its range and the bytes are those of the seal.
pub fn seals_are_read_by_their_table()
    ensures { (bytes : List ℕ) (seal : Seal) → (reads bytes ≡ Some seal) ↔ (IsSeal seal × (bytes ≡ spelling seal)) }
{}
