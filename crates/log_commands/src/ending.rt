//! How the program ends: its status and its last line.
ghost use Rattle.std.specs.Prelude.{◌++◌, ◌≡◌, ◌≤◌, codes, decimal, length};
ghost use Rattle.log_commands.specs.Endings.{line_of, status_of};

use taxi_units::{Line, push_bytes, push_number};

/// How a call of the program ends.
#[derive(Clone, Copy)]
pub(crate) enum Ended {
    /// The roll was read to its end, and this number of receipts was filed.
    Filed(u64),
    /// The log was shown whole.
    Shown,
    /// The roll was read to its end, and its receipts were printed as rows.
    Listed,
    /// The words are no command.
    BadWords,
    /// This slot, the lowest such, is open, and holds no record of its own.
    BadLog(u32),
    /// No slot is bad, and the log stands for no list.
    BrokenLog,
    /// The roll's receipt with this number, from 1 on, is of another taxi.
    OtherTaxi(u64),
    /// As many bytes as a roll may have were taken, and its end wasn't seen.
    TooLong,
    /// A read of the roll failed.
    ReadFault,
    /// The log's board failed.
    BoardFault,
}

/// The status of the program.
pub(crate) fn status(ended: Ended) -> u8
    ensures { result ≡ status_of ended }
{
    match ended {
        Ended::Filed(_) => 0,
        Ended::Shown => 0,
        Ended::Listed => 0,
        Ended::BadWords => 1,
        Ended::BadLog(_) => 2,
        Ended::BrokenLog => 3,
        Ended::OtherTaxi(_) => 4,
        Ended::TooLong => 5,
        Ended::ReadFault => 7,
        Ended::BoardFault => 8,
    }
}

/// A line of a word and a number.
fn numbered(word: &[u8], number: u64) -> Line
    requires { length word.now ≤ 32 }
    ensures { result.items ≡ word.now ++ (decimal number ++ codes "\n") }
{
    let mut line = Line::new();
    push_bytes(&mut line, word);
    push_number(&mut line, number as u128);
    push_bytes(&mut line, b"\n");
    line
}

/// A line of a text alone.
fn alone(text: &[u8]) -> Line
    requires { length text.now ≤ 32 }
    ensures { result.items ≡ text.now }
{
    let mut line = Line::new();
    push_bytes(&mut line, text);
    line
}

/// The last line, which is empty if there is none.
pub(crate) fn last_line(ended: Ended) -> Line
    ensures { result.items ≡ line_of ended }
{
    match ended {
        Ended::Filed(count) => numbered(b"FILED ", count),
        Ended::Shown => Line::new(),
        Ended::Listed => Line::new(),
        Ended::BadWords => alone(b"BAD WORDS\n"),
        Ended::BadLog(slot) => numbered(b"BAD LOG ", slot as u64),
        Ended::BrokenLog => alone(b"BROKEN LOG\n"),
        Ended::OtherTaxi(place) => numbered(b"OTHER TAXI ", place),
        Ended::TooLong => alone(b"ROLL TOO LONG\n"),
        Ended::ReadFault => alone(b"READ FAULT\n"),
        Ended::BoardFault => Line::new(),
    }
}
