//! What one line of a drive gives.
ghost use Rattle.{std.specs.{List.{slice_split}, Option.{option_map_or}}, taxi_units.specs.Reading.{Gives}};
ghost use Rattle.std.specs.{Prelude.{[], ◌==◌, ◌∷◌, ◌≡◌, IfSome, length, nat_lt}, Str.Lines.{strip_carriage_return}};
ghost use Rattle.{taxi_units.specs.Time.{IsSecond}, drive_text.specs.Fields.{line_runs, text_runs}};
ghost use Rattle.drive_text.specs.Content.{runs_of};
ghost use Rattle.drive_text.specs.Fields as spec;
ghost use Rattle.drive_text.specs.Lines as lines;

use crate::keys::{numbered_key, plain_key};
use crate::run::Run;
use taxi_units::{Event, FIRST_SECOND, LAST_SECOND, is_word, number_in, split_at_byte};

/// A second that the clock may show.
fn second_in(field: &[u8]) -> Option<u64>
    ensures value { result ≡ spec.second_in field.now }
    ensures range { IfSome result IsSecond }
{
    number_in(field, FIRST_SECOND, LAST_SECOND)
}

/// A line of one field.
#[tactic(auto, unfolding(crate::specs::Fields::run_of_one_field))]
fn run_of_one_field(name: &[u8]) -> Option<Run>
    ensures { result ≡ spec.run_of_one_field name.now }
{
    if is_word(name, b"D") {
        Some(Run::One(Event::Down))
    } else if is_word(name, b"T") {
        Some(Run::One(Event::Tick))
    } else {
        None
    }
}

/// A line of two fields.
#[tactic(auto, unfolding(crate::specs::Fields::run_of_two_fields))]
fn run_of_two_fields(name: &[u8], field: &[u8]) -> Option<Run>
    ensures { result ≡ spec.run_of_two_fields name.now field.now }
{
    if is_word(name, b"U") {
        Some(Run::One(Event::Up(second_in(field)?)))
    } else if is_word(name, b"C") {
        Some(Run::One(Event::Clock(second_in(field)?)))
    } else if is_word(name, b"P") {
        Some(Run::One(Event::Pulses(number_in(field, 1, 65535)? as u32)))
    } else if is_word(name, b"K") {
        Some(Run::One(Event::Key(plain_key(field)?)))
    } else {
        None
    }
}

/// Intervals.
fn intervals(first: &[u8], second: &[u8]) -> Option<Run>
    ensures { result ≡ spec.intervals_of first.now second.now }
{
    let pulses = number_in(first, 0, 65535)?;
    let count = number_in(second, 1, 36000)?;
    Some(Run::Many {
        pulses: pulses as u32,
        count: count as u32,
    })
}

/// A line of three fields.
#[tactic(auto, unfolding(crate::specs::Fields::run_of_three_fields))]
fn run_of_three_fields(name: &[u8], first: &[u8], second: &[u8]) -> Option<Run>
    ensures { result ≡ spec.run_of_three_fields name.now first.now second.now }
{
    if is_word(name, b"I") {
        intervals(first, second)
    } else if is_word(name, b"K") {
        Some(Run::One(Event::Key(numbered_key(first, second)?)))
    } else {
        None
    }
}

/// The field at the front, and what is behind its blank, if it has one.
fn first_field(bytes: &[u8]) -> (&[u8], Option<&[u8]>)
    ensures { slice_split (λ b. b == 32) bytes.now
        ≡ result.0.now ∷ option_map_or (λ rest. slice_split (λ b. b == 32) rest.now) result.1 [] }
{
    split_at_byte(bytes, b' ')
}

/// The run of a line's fields, with one blank between each two.
fn run_of_fields(bytes: &[u8]) -> Option<Run>
    ensures { result ≡ spec.run_of_fields (slice_split (λ b. b == 32) bytes.now) }
{
    let (name, rest) = first_field(bytes);
    let Some(rest) = rest else {
        return run_of_one_field(name);
    };
    let (first, rest) = first_field(rest);
    let Some(rest) = rest else {
        return run_of_two_fields(name, first);
    };
    let (second, rest) = first_field(rest);
    match rest {
        Some(_) => None,
        None => run_of_three_fields(name, first, second),
    }
}

/// Whether a line is a comment.
pub(crate) fn is_comment(line: &[u8]) -> bool
    ensures { result ≡ lines.is_comment line.now }
{
    line.starts_with(b"#")
}

/// Whether a line without its CR, which is no comment, is too long.
pub(crate) fn is_long(text: &[u8]) -> bool
    ensures { result ≡ nat_lt 80 (length text.now) }
{
    text.len() > 80
}

/// A line without a CR at its end.
pub(crate) fn without_carriage_return(line: &[u8]) -> &[u8]
    ensures { result.now ≡ strip_carriage_return line.now }
{
    line.strip_suffix(b"\r").unwrap_or(line)
}

/// What a line of a drive has.
#[derive(Clone, Copy)]
pub(crate) enum Content {
    /// No run, since it is empty or a comment.
    Nothing,
    /// A run.
    One(Run),
}

/// What a whole line without its LF and its CR has. `None` if it is no line of a drive.
#[tactic(auto, unfolding(crate::specs::Fields::text_runs))]
fn content_of_text(text: &[u8]) -> Option<Content>
    ensures { Gives runs_of result (text_runs text.now) }
{
    let Some((first, _)) = text.split_first() else {
        return Some(Content::Nothing);
    };
    if *first == b'#' {
        return Some(Content::Nothing);
    }
    if is_long(text) {
        return None;
    }
    let run = run_of_fields(text)?;
    Some(Content::One(run))
}

/// What a whole line without its LF has. `None` if it is no line of a drive.
pub(crate) fn content_of_line(line: &[u8]) -> Option<Content>
    ensures { Gives runs_of result (line_runs line.now) }
{
    content_of_text(without_carriage_return(line))
}
