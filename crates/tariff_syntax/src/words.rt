//! Words, signs and figures at the front of a line.
ghost use Rattle.std.specs.{Prelude.{[], ◌↔◌, ◌≡◌, IsTrue}, Str.{bytes_eq}};
ghost use Rattle.tariff_syntax.specs.{Common.{Gives}, TokenReading.{tokens_of}};
ghost use Rattle.tariff_syntax.specs.Words as spec;

use crate::tokens::{Token, first_token};

/// The text behind a word.
#[tactic(auto, unfolding(crate::specs::Words::after_word))]
pub fn after_word<'a>(line: &'a [u8], text: &[u8]) -> Option<&'a [u8]>
    ensures { Gives (λ rest. tokens_of rest.now) result (spec.after_word text.now (tokens_of line.now)) }
{
    let (token, rest) = first_token(line)?;
    match token {
        Token::Word(found) => { if found == text { Some(rest) } else { None } }
        Token::Figure(_) => None,
        Token::Sign(_) => None,
    }
}

/// The text behind a sign.
#[tactic(auto, unfolding(crate::specs::Words::after_sign))]
pub fn after_sign<'a>(line: &'a [u8], text: &[u8]) -> Option<&'a [u8]>
    ensures { Gives (λ rest. tokens_of rest.now) result (spec.after_sign text.now (tokens_of line.now)) }
{
    let (token, rest) = first_token(line)?;
    match token {
        Token::Sign(found) => { if found == text { Some(rest) } else { None } }
        Token::Word(_) => None,
        Token::Figure(_) => None,
    }
}

/// A word, and the text behind it.
#[tactic(auto, unfolding(crate::specs::Words::word_first))]
pub fn word_first(line: &[u8]) -> Option<(&[u8], &[u8])>
    ensures { Gives (λ x. (x.0.now, tokens_of x.1.now)) result (spec.word_first (tokens_of line.now)) }
{
    let (token, rest) = first_token(line)?;
    match token {
        Token::Word(text) => Some((text, rest)),
        Token::Figure(_) => None,
        Token::Sign(_) => None,
    }
}

/// A figure, and the text behind it.
#[tactic(auto, unfolding(crate::specs::Words::figure_first))]
pub fn figure_first(line: &[u8]) -> Option<(&[u8], &[u8])>
    ensures { Gives (λ x. (x.0.now, tokens_of x.1.now)) result (spec.figure_first (tokens_of line.now)) }
{
    let (token, rest) = first_token(line)?;
    match token {
        Token::Figure(text) => Some((text, rest)),
        Token::Word(_) => None,
        Token::Sign(_) => None,
    }
}

/// Whether a line has no more tokens.
pub fn is_over(line: &[u8]) -> bool
    ensures { IsTrue result ↔ (tokens_of line.now ≡ []) }
{
    first_token(line).is_none()
}

/// Whether a text is another.
pub fn is_text(found: &[u8], text: &[u8]) -> bool
    ensures { result ≡ bytes_eq found.now text.now }
{
    found == text
}
