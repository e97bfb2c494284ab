//! What the text of what a store was sealed with is read as, and what it seals again.
ghost use Rattle.std.specs.Prelude.{ℕ, ◌≡◌, List, Ok};
ghost use Rattle.{sha2.specs.Sha256.{sha256}, seal_record.specs.Reading.{params_read}};
ghost use Rattle.store_commands.specs.{Common.{Durable, IsSeal, Seal, Sealing, Tree, tariff_in}, Seal.{sealing_of}};
ghost use Rattle.store_commands.specs.{Opening.{opening_in, store_of}, SealOfTexts.{IsSealOfTexts, SecureTheSame}};
ghost use Rattle.store_commands.specs.SealedText.{sealed_text};

/// A law: what `sealed` prints of a seal is read as the seal's parameters, for any seal in its ranges.
pub fn sealed_texts_are_read_back()
    ensures { (seal : Seal) → IsSeal seal → params_read (sealed_text seal) ≡ Ok seal.params }
{}

/// A law: a sealing puts in the seal that its two texts say. If a store may be sealed with what `sealed` prints of it
/// and with the text of the sealed digest, the new seal is equal but for its number. So it is on any other store, if
/// the text's tariff has the sealed decimals.
pub fn sealed_texts_seal_the_same()
    ensures texts { (image tariff params : List ℕ) (sealing : Sealing)
        → sealing_of (opening_in image) tariff params ≡ Ok sealing → IsSealOfTexts tariff params sealing.new }
    ensures itself { (image tariff : List ℕ) (store : Durable × Seal) (sealing : Sealing)
        → store_of (opening_in image) ≡ Ok store → sha256 tariff ≡ store.1.digest
        → sealing_of (opening_in image) tariff (sealed_text store.1) ≡ Ok sealing → SecureTheSame store.1 sealing.new }
    ensures other { (image other tariff : List ℕ) (store : Durable × Seal) (t : Tree) (sealing : Sealing)
        → store_of (opening_in image) ≡ Ok store → sha256 tariff ≡ store.1.digest → tariff_in tariff ≡ Ok t
        → t.decimals ≡ store.1.decimals → sealing_of (opening_in other) tariff (sealed_text store.1) ≡ Ok sealing
        → SecureTheSame store.1 sealing.new }
{}
