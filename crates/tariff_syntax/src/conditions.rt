//! Reads conditions.
ghost use Rattle.std.specs.Prelude.{◌≡◌, ◌≤◌, if◌then◌else◌, length};
ghost use Rattle.{tariff_tree.specs.Condition.{condition_if}, tariff_syntax.specs.Grammar.{term_by, when_read}};
ghost use Rattle.tariff_syntax.specs.{Built.{Builds, HasParts, HasPartsIf, IsBuilt}, Common.{Condition, condition_of}};
ghost use Rattle.tariff_syntax.specs.{Faults.{GivesOrFails}, TokenReading.{tokens_of}, Weight.{token_weight}};
ghost use Rattle.tariff_syntax.specs.Grammar.{chain_on, closed_after, condition_by, factor_by, factor_first, negated};
ghost use Rattle.tariff_syntax.specs.{Joints.{joined_by}, Token.{token_of}};
ghost use Rattle.tariff_syntax.specs.Grammar as spec;
ghost use Rattle.tariff_syntax.specs.Joints as joints;
ghost use Rattle.tariff_syntax.specs.Weight as weights;

use crate::atoms::atom_named;
use crate::building::{Built, and, not, or};
use crate::tokens::{Token, first_token};
use crate::words::{after_sign, after_word, is_over, is_text};
use std::alloc::Global;
use tariff_tree::Cond;

/// Why a line has no item.
#[derive(Clone, Copy)]
pub enum LineFault {
    /// It has none of the forms of a line.
    Bad,
    /// Memory ran out for a condition that has parts, of a line that has one of the forms.
    NoMemory,
}

/// How the parts of a condition are joined.
#[derive(Clone, Copy)]
pub enum Joint {
    /// Terms, by `or`.
    Or,
    /// Factors, by `and`.
    And,
}

/// The word that joins parts.
fn word_of(joint: Joint) -> &'static [u8]
    ensures { result.now ≡ joints.word_of joint }
{
    match joint {
        Joint::Or => b"or",
        Joint::And => b"and",
    }
}

/// A condition, and the text behind it; fewer `not` and `(` than a number are around each atom. If memory runs out, the
/// line is still read on: the condition is missing, and the text behind it is known.
#[cycle(conditions)]
#[tactic(auto, unfolding(crate::specs::Grammar::condition_by))]
fn condition(alloc: Global, depth: u8, line: &[u8]) -> Option<(Built, &[u8])>
    ensures { Builds (λ x. (x.0, tokens_of x.1.now)) result
        (condition_by (factor_first depth) (tokens_of line.now)) }
{
    let (first, rest) = term(alloc, depth, line)?;
    more_parts(alloc, Joint::Or, depth, 64, first, rest)
}

/// A term, and the text behind it.
#[cycle(conditions)]
#[tactic(auto, unfolding(crate::specs::Grammar::term_by))]
fn term(alloc: Global, depth: u8, line: &[u8]) -> Option<(Built, &[u8])>
    ensures { Builds (λ x. (x.0, tokens_of x.1.now)) result
        (term_by (factor_first depth) (tokens_of line.now)) }
{
    let (first, rest) = factor(alloc, depth, line)?;
    more_parts(alloc, Joint::And, depth, 64, first, rest)
}

/// What stands to the left, to which further parts are joined, fewer than a number.
#[cycle(conditions)]
fn more_parts(
    alloc: Global,
    joint: Joint,
    depth: u8,
    most: u8,
    left: Built,
    line: &[u8],
) -> Option<(Built, &[u8])>
    ensures { (c : Condition) → IsBuilt left c → Builds (λ x. (x.0, tokens_of x.1.now)) result
        (chain_on (joints.word_of joint) (joined_by joint (factor_first depth)) most c (tokens_of line.now)) }
{
    if most == 0 {
        return None;
    }
    let Some(rest) = after_word(line, word_of(joint)) else {
        return Some((left, line));
    };
    let (joined, rest) = joined_part(alloc, joint, depth, left, rest)?;
    more_parts(alloc, joint, depth, most - 1, joined, rest)
}

/// The part at the front, joined to what stands to the left, and the text behind it.
#[cycle(conditions)]
fn joined_part(
    alloc: Global,
    joint: Joint,
    depth: u8,
    left: Built,
    line: &[u8],
) -> Option<(Built, &[u8])>
    ensures { (c : Condition) → IsBuilt left c → Builds (λ x. (x.0, tokens_of x.1.now)) result
        (joined_by joint (factor_first depth) c (tokens_of line.now)) }
{
    match joint {
        Joint::Or => {
            let (right, rest) = term(alloc, depth, line)?;
            Some((or(alloc, left, right), rest))
        }
        Joint::And => {
            let (right, rest) = factor(alloc, depth, line)?;
            Some((and(alloc, left, right), rest))
        }
    }
}

/// A factor, and the text behind it.
#[cycle(conditions)]
fn factor(alloc: Global, depth: u8, line: &[u8]) -> Option<(Built, &[u8])>
    ensures { Builds (λ x. (x.0, tokens_of x.1.now)) result
        (factor_first depth (tokens_of line.now)) }
{
    if depth == 0 {
        return None;
    }
    factor_above(alloc, depth - 1, line)
}

/// A factor, with one more `not` or `(` around it than a number.
#[cycle(conditions)]
fn factor_above(alloc: Global, depth: u8, line: &[u8]) -> Option<(Built, &[u8])>
    ensures { Builds (λ x. (x.0, tokens_of x.1.now)) result
        (factor_by (factor_first depth) (condition_by (factor_first depth)) (tokens_of line.now)) }
{
    let (token, rest) = first_token(line)?;
    match token {
        Token::Word(name) => {
            if is_text(name, b"not") {
                return negation(alloc, depth, rest);
            }
            let (atom, rest) = atom_named(name, rest)?;
            Some((Ok(atom), rest))
        }
        Token::Sign(text) => {
            if is_text(text, b"(") {
                return in_parentheses(alloc, depth, rest);
            }
            None
        }
        Token::Figure(_) => None,
    }
}

/// The negation of the factor at the front.
#[cycle(conditions)]
fn negation(alloc: Global, depth: u8, line: &[u8]) -> Option<(Built, &[u8])>
    ensures { Builds (λ x. (x.0, tokens_of x.1.now)) result
        (negated (factor_first depth (tokens_of line.now))) }
{
    let (inner, rest) = factor(alloc, depth, line)?;
    Some((not(alloc, inner), rest))
}

/// A condition before a closing parenthesis.
#[cycle(conditions)]
fn in_parentheses(alloc: Global, depth: u8, line: &[u8]) -> Option<(Built, &[u8])>
    ensures { Builds (λ x. (x.0, tokens_of x.1.now)) result
        (closed_after (condition_by (factor_first depth) (tokens_of line.now))) }
{
    let (inner, rest) = condition(alloc, depth, line)?;
    let rest = after_sign(rest, b")")?;
    Some((inner, rest))
}

/// The end of a line that may have a condition.
#[tactic(auto, unfolding(crate::specs::Grammar::when_read))]
pub fn when(alloc: Global, line: &[u8]) -> Result<Option<Cond>, LineFault>
    ensures { GivesOrFails condition_if HasPartsIf result (when_read (tokens_of line.now)) }
{
    if is_over(line) {
        return Ok(None);
    }
    let Some(rest) = after_word(line, b"when") else {
        return Err(LineFault::Bad);
    };
    let cond = bounded_condition(alloc, rest)?;
    Ok(Some(cond))
}

/// A condition with at most 64 atoms, `not` and `(` together. So fewer of these are around an atom, and fewer parts are
/// joined.
#[tactic(auto, unfolding(crate::specs::Grammar::bounded_condition))]
fn bounded_condition(alloc: Global, line: &[u8]) -> Result<Cond, LineFault>
    ensures { GivesOrFails condition_of HasParts result (spec.bounded_condition (tokens_of line.now)) }
{
    if weight(line) > 64 {
        return Err(LineFault::Bad);
    }
    let Some((cond, rest)) = condition(alloc, 64, line) else {
        return Err(LineFault::Bad);
    };
    if !is_over(rest) {
        return Err(LineFault::Bad);
    }
    cond.map_err(|_| LineFault::NoMemory)
}

/// How many atoms, `not` and `(` begin in a line.
fn weight(line: &[u8]) -> usize
    ensures value { result ≡ weights.weight (tokens_of line.now) }
    ensures within { result ≤ length line.now }
{
    let mut rest = line;
    let mut count = 0;
    while let Some((token, after)) = first_token(rest) {
        if is_counted(token) {
            count += 1;
        }
        rest = after;
    }
    count
}

/// Whether a token begins an atom, or is a `not` or a `(`.
fn is_counted(token: Token<'_>) -> bool
    ensures { (if result then 1 else 0) ≡ token_weight (token_of token.entry) }
{
    match token {
        Token::Word(name) => {
            is_text(name, b"not")
                || is_text(name, b"position")
                || is_text(name, b"zone")
                || is_text(name, b"time")
                || is_text(name, b"day")
                || is_text(name, b"date")
                || is_text(name, b"holiday")
                || is_text(name, b"after")
        }
        Token::Figure(_) => false,
        Token::Sign(text) => is_text(text, b"("),
    }
}
