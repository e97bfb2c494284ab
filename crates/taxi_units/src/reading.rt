//! Reading from the front of a text.
ghost use Rattle.std.specs.Prelude.{◌≡◌};
ghost use Rattle.taxi_units.specs.Reading.{Gives, word_at};
ghost use Rattle.taxi_units.specs.Words as words;

/// What stands after a word at the front of the bytes. `None` exactly if the bytes don't begin with it.
#[tactic(auto, unfolding(crate::specs::Reading::word_at))]
pub fn word<'a>(bytes: &'a [u8], word: &[u8]) -> Option<&'a [u8]>
    ensures { Gives (λ rest. rest.now) result (word_at word.now bytes.now) }
{
    bytes.strip_prefix(word)
}

/// Whether a word is this name, byte by byte.
pub fn is_word(word: &[u8], name: &[u8]) -> bool
    ensures { result ≡ words.is_word word.now name.now }
{
    word == name
}
