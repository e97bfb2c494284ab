//! What is done with a receipt of a roll.
ghost use Rattle.std.specs.Prelude.{◌↔◌, ◌≡◌, IsTrue, Some};
ghost use Rattle.log_commands.specs.Filed.{IsFiledBy};

use crate::log_record::LogRecord;

/// What is done with a receipt of a roll, beside a log.
#[derive(Clone, Copy)]
pub enum Filing {
    /// It ends the filing, since it is of another taxi than the log's newest record.
    OtherTaxi,
    /// It is passed over, since its number isn't greater than the newest record's.
    Passed,
    /// It is appended.
    Appended,
}

/// What is done with a receipt of a roll, beside a log with this newest record, or with none. The rule is this
/// project's own.
pub fn filing_of(newest: &Option<LogRecord>, receipt: &LogRecord) -> Filing
    ensures { IsFiledBy result newest.now receipt.now }
{
    match newest {
        None => Filing::Appended,
        Some(newest) => filing_after(newest, receipt),
    }
}

/// What is done with it, beside a log with this newest record.
fn filing_after(newest: &LogRecord, receipt: &LogRecord) -> Filing
    ensures { IsFiledBy result (Some newest.now) receipt.now }
{
    if !is_same(receipt.taxi.as_slice(), newest.taxi.as_slice()) {
        Filing::OtherTaxi
    } else if receipt.number <= newest.number {
        Filing::Passed
    } else {
        Filing::Appended
    }
}

/// Whether two texts are the same.
fn is_same(one: &[u8], other: &[u8]) -> bool
    ensures { IsTrue result ↔ (one.now ≡ other.now) }
{
    one == other
}
