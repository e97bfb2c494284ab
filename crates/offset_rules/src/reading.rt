//! Reads the text of rules.
ghost use Rattle.std.specs.Prelude.{◌≡◌, IfSome};
ghost use Rattle.offset_rules.specs.{Common.{Gives, IsOffset}, Rule.{IsChange}, RulesText.{IsReadAs}};
ghost use Rattle.offset_rules.specs.Reading.{change_at, lines_read, named_line_at, rules_read, seconds_at};

use crate::fault::RuleFault;
use crate::fields::{change, seconds};
use crate::rules::{Change, Rules};
use taxi_units::word;

/// The most bytes of a text of rules.
const MOST: usize = 4096;

/// Reads the rules of summer time from a text of exactly these four lines, each ended by an LF:
///
/// ```text
/// standard 3600                -50400 to 50400 seconds: an optional `-` and 1 to 5 digits
/// summer 7200                  likewise
/// begin last sun mar 01:00     first, second, third, fourth or last; mon to sun; jan to dec; HH:MM in UTC
/// end last sun oct 01:00       likewise, in another month
/// ```
///
/// There is one blank between words. The form is this project's own. No memory is taken.
///
/// `TooLong`: the text has more than 4,096 bytes. Else `BadLine`: the first of the lines 1 to 4 that breaks its
/// form or is absent, or 5 if bytes follow the four. Else `SameMonth`: both changes are in one month.
pub fn read_rules(text: &[u8]) -> Result<Rules, RuleFault>
    ensures answer { result ≡ rules_read text.now }
    ensures meaning { IsReadAs text.now result }
{
    read_text(text)
}

/// The answer, in the stages of the code.
#[tactic(auto, unfolding(crate::specs::Reading::rules_read))]
fn read_text(text: &[u8]) -> Result<Rules, RuleFault>
    ensures { result ≡ rules_read text.now }
{
    if text.len() > MOST {
        return Err(RuleFault::TooLong);
    }
    read_lines(text)
}

/// The rules of the four lines.
#[tactic(auto, unfolding(crate::specs::Reading::lines_read))]
fn read_lines(text: &[u8]) -> Result<Rules, RuleFault>
    ensures { result ≡ lines_read text.now }
{
    let Some((standard, rest)) = offset_line(text, b"standard ") else {
        return Err(RuleFault::BadLine(1));
    };
    let Some((summer, rest)) = offset_line(rest, b"summer ") else {
        return Err(RuleFault::BadLine(2));
    };
    let Some((begin, rest)) = change_line(rest, b"begin ") else {
        return Err(RuleFault::BadLine(3));
    };
    let Some((end, rest)) = change_line(rest, b"end ") else {
        return Err(RuleFault::BadLine(4));
    };
    if !rest.is_empty() {
        return Err(RuleFault::BadLine(5));
    }
    Rules::of(standard, summer, begin, end)
}

/// The offset of a line of a name and an offset, and what stands after the line.
#[tactic(auto, unfolding(crate::specs::Reading::named_line_at))]
fn offset_line<'a>(text: &'a [u8], name: &[u8]) -> Option<(i32, &'a [u8])>
    ensures value { Gives (λ x. (x.0, x.1.now)) result (named_line_at seconds_at name.now text.now) }
    ensures range { IfSome result (λ x. IsOffset x.0) }
{
    let value = word(text, name)?;
    let (offset, rest) = seconds(value)?;
    let rest = word(rest, b"\n")?;
    Some((offset, rest))
}

/// The change of a line of a name and a change, and what stands after the line.
#[tactic(auto, unfolding(crate::specs::Reading::named_line_at))]
fn change_line<'a>(text: &'a [u8], name: &[u8]) -> Option<(Change, &'a [u8])>
    ensures value { Gives (λ x. (x.0, x.1.now)) result (named_line_at change_at name.now text.now) }
    ensures ranges { IfSome result (λ x. IsChange x.0) }
{
    let value = word(text, name)?;
    let (change, rest) = change(value)?;
    let rest = word(rest, b"\n")?;
    Some((change, rest))
}
