//! Reads a line from its front, a token at a time.
ghost use Rattle.std.specs.Prelude.{[], ◌+◌, ◌<◌, ◌∷◌, ◌≡◌, ◌≤◌, MatchOption, length};
ghost use Rattle.tariff_syntax.specs.{Common.{Gives}, Token.{is_blank, is_letter, token_of}};
ghost use Rattle.tariff_syntax.specs.TokenReading.{run_end, sign_end, token_at, token_here, tokens_of};
ghost use Rattle.tariff_syntax.specs.Token as spec;
ghost use Rattle.tariff_syntax.specs.TokenReading as reading;

/// A token. A sign is `..` or any byte that no other token begins with.
#[derive(Clone, Copy)]
pub enum Token<'a> {
    Word(&'a [u8]),
    Figure(&'a [u8]),
    Sign(&'a [u8]),
}

/// The first token of a line, and the text behind it. `None` if the line has no more: at its end, and before a comment.
pub fn first_token(line: &[u8]) -> Option<(Token<'_>, &[u8])>
    ensures { MatchOption result (tokens_of line.now ≡ [])
        (λ x. (tokens_of line.now ≡ token_of x.0 ∷ tokens_of x.1.now) × (length x.1.now < length line.now)) }
{
    token_after_blanks(line)
}

/// The first token of a line.
#[tactic(auto, unfolding(crate::specs::TokenReading::token_at))]
fn token_after_blanks(line: &[u8]) -> Option<(Token<'_>, &[u8])>
    ensures { Gives (λ x. (token_of x.0, x.1.now)) result (token_at line.now) }
{
    let (_, line) = line.split_at(count_blanks(line));
    token_here(line)
}

/// The token that a line begins with, with no blank before it.
fn token_here(line: &[u8]) -> Option<(Token<'_>, &[u8])>
    ensures { Gives (λ x. (token_of x.0, x.1.now)) result (reading.token_here line.now) }
{
    let (first, after) = line.split_first()?;
    if *first == b'#' {
        return None;
    }
    if first.is_ascii_lowercase() {
        let (text, rest) = line.split_at(count_letters(line));
        return Some((Token::Word(text), rest));
    }
    if first.is_ascii_digit() {
        let (text, rest) = line.split_at(count_figure(line));
        return Some((Token::Figure(text), rest));
    }
    let (text, rest) = line.split_at(count_sign(*first, after));
    Some((Token::Sign(text), rest))
}

/// How many blanks are at the front.
fn count_blanks(line: &[u8]) -> usize
    ensures count { result ≡ run_end is_blank line.now }
    ensures within { result ≤ length line.now }
{
    let mut rest = line;
    let mut count = 0;
    while let Some((first, after)) = rest.split_first() {
        if !(*first == b' ' || *first == b'\t' || *first == b'\r') {
            return count;
        }
        count += 1;
        rest = after;
    }
    count
}

/// How many letters are at the front.
fn count_letters(line: &[u8]) -> usize
    ensures count { result ≡ run_end is_letter line.now }
    ensures within { result ≤ length line.now }
{
    let mut rest = line;
    let mut count = 0;
    while let Some((first, after)) = rest.split_first() {
        if !first.is_ascii_lowercase() {
            return count;
        }
        count += 1;
        rest = after;
    }
    count
}

/// How many bytes of a figure are at the front.
fn count_figure(line: &[u8]) -> usize
    ensures count { result ≡ run_end spec.goes_on line.now }
    ensures within { result ≤ length line.now }
{
    let mut rest = line;
    let mut count = 0;
    while let Some((first, after)) = rest.split_first() {
        if !goes_on(*first, after) {
            return count;
        }
        count += 1;
        rest = after;
    }
    count
}

/// Whether a figure goes on over a byte, before the text behind it.
fn goes_on(byte: u8, rest: &[u8]) -> bool
    ensures { result ≡ spec.goes_on byte rest.now }
{
    byte.is_ascii_digit()
        || byte == b':'
        || byte == b'-'
        || (byte == b'.' && begins_with_digit(rest))
}

/// Whether a text begins with a digit.
fn begins_with_digit(text: &[u8]) -> bool
    ensures { result ≡ spec.begins_with_digit text.now }
{
    match text.split_first() {
        Some((first, _)) => first.is_ascii_digit(),
        None => false,
    }
}

/// How many bytes the sign has that begins with a byte.
fn count_sign(first: u8, after: &[u8]) -> usize
    ensures count { result ≡ sign_end first after.now }
    ensures within { result ≤ length after.now + 1 }
{
    match after.split_first() {
        Some((second, _)) => {
            if first == b'.' && *second == b'.' {
                2
            } else {
                1
            }
        }
        None => 1,
    }
}
