//! What the texts of this crate mean, in words that share nothing with how they are written and read.
ghost use Rattle.std.specs.Prelude.{[], ℕ, ◌++◌, ◌↔◌, ◌≡◌, ◌≤◌, List, codes, length};
ghost use Rattle.receipt_text.specs.{Common.{Display, IsShown, Receipt}, Part.{Part}, Shows.{HasFields, ShowsSame}};
ghost use Rattle.receipt_text.specs.{Grammar.{IsReceiptText}, Receipts.{receipt_text}, TariffLine.{DifferInTariff}};
ghost use Rattle.receipt_text.specs.{Spelling.{IsSpelled}, Texts.{display_text}};

/// A law: the grammar of receipts has exactly the texts that are written of receipts in their ranges.
pub fn receipts_are_their_texts()
    ensures { (text : List ℕ) (receipt : Receipt) (part : Part)
        → IsReceiptText text receipt part ↔ IsSpelled text receipt part }
{}

/// A law: a text is one receipt at most, and no receipt's text is the beginning of another's.
pub fn texts_are_one_receipt()
    ensures receipt { (text : List ℕ) (a b : Receipt) (c d : Part)
        → IsReceiptText text a c → IsReceiptText text b d → a ≡ b }
    ensures part { (text : List ℕ) (a b : Receipt) (c d : Part)
        → IsReceiptText text a c → IsReceiptText text b d → c ≡ d }
    ensures beginning { (text more : List ℕ) (a b : Receipt) (c d : Part)
        → IsReceiptText text a c → IsReceiptText (text ++ more) b d → more ≡ [] }
{}

/// A law: a receipt has at most 480 bytes, so an empty line takes it.
pub fn receipts_are_short()
    ensures { (text : List ℕ) (receipt : Receipt) (part : Part)
        → IsReceiptText text receipt part → length text ≤ 480 }
{}

/// A law: a receipt begins with its first word, so one can begin only where this word is.
pub fn receipts_begin_with_their_word()
    ensures { (text : List ℕ) (receipt : Receipt) (part : Part)
        → IsReceiptText text receipt part → (rest : List ℕ) × (text ≡ codes "RECEIPT " ++ rest) }
{}

/// A law: under one tariff's decimals two displays have the same text exactly if their fields are equal; in For Hire
/// the fare and the supplements aren't shown, and may differ.
pub fn displays_differ_by_their_fields()
    ensures { (a b : Display) → IsShown a → IsShown b → HasFields a → HasFields b → a.decimals ≡ b.decimals
        → (display_text a ≡ display_text b) ↔ ShowsSame a b }
{}

/// A law: under two seals that say the same but for the digest, the texts of a receipt differ only in their line
/// `TARIFF`: both have the same front and back, and between them this line with the seal's digest.
pub fn receipts_differ_in_their_tariff_alone()
    ensures { (receipt : Receipt) (a b : Part) → record a { digest = b.digest } ≡ b
        → DifferInTariff a.digest b.digest (receipt_text receipt a) (receipt_text receipt b) }
{}
