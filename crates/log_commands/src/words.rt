//! The words of a command.
ghost use Rattle.std.specs.Prelude.{◌≡◌, map, string_bytes};
ghost use Rattle.log_commands.specs.Words.{call_of};
ghost use Rattle.log_commands.specs.Words as spec;

use taxi_units::is_word;

/// A command that the program knows.
#[derive(Clone, Copy)]
pub enum Call {
    /// `file ROLL`
    File,
    /// `show`
    Show,
    /// `rows ROLL`
    Rows,
}

/// The command of one word.
fn one_word(command: &[u8]) -> Option<Call>
    ensures { result ≡ spec.one_word command.now }
{
    if is_word(command, b"show") {
        Some(Call::Show)
    } else {
        None
    }
}

/// The command of two words.
fn two_words(command: &[u8]) -> Option<Call>
    ensures { result ≡ spec.two_words command.now }
{
    if is_word(command, b"file") {
        Some(Call::File)
    } else if is_word(command, b"rows") {
        Some(Call::Rows)
    } else {
        None
    }
}

/// The command that words are. `None` if the program knows no such command.
pub fn call_in(words: &[String]) -> Option<Call>
    ensures { result ≡ call_of (map string_bytes words.now) }
{
    match words {
        [command] => one_word(command.as_bytes()),
        [command, _] => two_words(command.as_bytes()),
        _ => None,
    }
}
