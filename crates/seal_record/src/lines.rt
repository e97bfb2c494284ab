//! The lines of a text, and what a line is parted into.
ghost use Rattle.{std.specs.Option.{option_map_or}, seal_record.specs.Lines.{key_in, lines_of, value_in}};
ghost use Rattle.std.specs.{Prelude.{[], ◌<◌, ◌∷◌, ◌≡◌, IfSome, length}, Str.Lines.{strip_carriage_return}};
ghost use Rattle.seal_record.specs.Lines as spec;

use taxi_units::split_at_byte;

/// The bytes before the first one that is this byte, or all if there is none.
#[tactic(auto, using(crate::proofs::LineParts::before_byte, crate::proofs::LineParts::before_none))]
pub(crate) fn before(bytes: &[u8], byte: u8) -> &[u8]
    ensures { result.now ≡ spec.before byte bytes.now }
{
    let (front, _) = split_at_byte(bytes, byte);
    front
}

/// The first line of a text without its end, and what stands after it if an LF ends it.
#[tactic(auto, using(crate::proofs::LineParts::ended_line, crate::proofs::LineParts::last_line))]
pub(crate) fn first_line(text: &[u8]) -> (&[u8], Option<&[u8]>)
    ensures lines { lines_of text.now ≡ result.0.now ∷ option_map_or (λ rest. lines_of rest.now) result.1 [] }
    ensures shorter { IfSome result.1 (λ rest. length rest.now < length text.now) }
{
    let (line, rest) = split_at_byte(text, b'\n');
    match rest {
        Some(rest) => (without_carriage_return(line), Some(rest)),
        None => (line, None),
    }
}

/// A line without a CR at its end.
fn without_carriage_return(line: &[u8]) -> &[u8]
    ensures { result.now ≡ strip_carriage_return line.now }
{
    match line.strip_suffix(b"\r") {
        None => line,
        Some(text) => text,
    }
}

/// Whether a line says nothing: it is empty or a comment.
pub(crate) fn is_passed(line: &[u8]) -> bool
    ensures { result ≡ spec.is_passed line.now }
{
    match line.split_first() {
        None => true,
        Some((first, _)) => *first == b'#',
    }
}

/// The key of a line, and its value, which is empty if the line has no blank.
#[tactic(auto, using(crate::proofs::LineParts::key_and_value_of_line))]
pub(crate) fn key_and_value(line: &[u8]) -> (&[u8], &[u8])
    ensures key { result.0.now ≡ key_in line.now }
    ensures value { result.1.now ≡ value_in line.now }
{
    let (key, value) = split_at_byte(line, b' ');
    match value {
        Some(value) => (key, value),
        None => (key, &[]),
    }
}
