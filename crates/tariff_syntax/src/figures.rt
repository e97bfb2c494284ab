//! Reads figures: numbers of one or two digits, amounts, dates and minutes.
ghost use Rattle.std.specs.Prelude.{◌≤◌, IfSome};
ghost use Rattle.tariff_syntax.specs.{Common.{Gives, GivesSame}, TokenReading.{tokens_of}};
ghost use Rattle.tariff_syntax.specs.Figure as spec;

use crate::words::figure_first;
use taxi_units::{figure_in, number_of_width, read_decimal, word};

/// A number of one or two digits from `least` to `most`, and the text behind it.
#[tactic(auto, unfolding(crate::specs::Figure::number_first))]
pub fn number_first(line: &[u8], least: u8, most: u8) -> Option<(u8, &[u8])>
    ensures value { Gives (λ x. (x.0, tokens_of x.1.now)) result (spec.number_first least most (tokens_of line.now)) }
    ensures within { IfSome result (λ x. x.0 ≤ most) }
{
    let (text, rest) = figure_first(line)?;
    let number = figure_in(text, 1, 2, least as u64, most as u64)?;
    Some((number as u8, rest))
}

/// An amount of `decimals` decimals, and the text behind it.
#[tactic(auto, unfolding(crate::specs::Figure::amount_first))]
pub fn amount_first(line: &[u8], decimals: u8) -> Option<(u64, &[u8])>
    requires { decimals ≤ 3 }
    ensures { Gives (λ x. (x.0, tokens_of x.1.now)) result (spec.amount_first decimals (tokens_of line.now)) }
{
    let (text, rest) = figure_first(line)?;
    let amount = amount(text, decimals)?;
    Some((amount, rest))
}

/// A minute of the day, and the text behind it.
#[tactic(auto, unfolding(crate::specs::Figure::minute_first))]
pub fn minute_first(line: &[u8]) -> Option<(u16, &[u8])>
    ensures { Gives (λ x. (x.0, tokens_of x.1.now)) result (spec.minute_first (tokens_of line.now)) }
{
    let (text, rest) = figure_first(line)?;
    let minute = minute(text)?;
    Some((minute, rest))
}

/// A date of any year, as month and date, and the text behind it.
#[tactic(auto, unfolding(crate::specs::Figure::date_first))]
pub fn date_first(line: &[u8]) -> Option<((u8, u8), &[u8])>
    ensures { Gives (λ x. (x.0, tokens_of x.1.now)) result (spec.date_first (tokens_of line.now)) }
{
    let (text, rest) = figure_first(line)?;
    let date = pair(text, b"-")?;
    Some((date, rest))
}

/// A date, as year, month and date, and the text behind it.
#[tactic(auto, unfolding(crate::specs::Figure::year_date_first))]
pub fn year_date_first(line: &[u8]) -> Option<((u16, u8, u8), &[u8])>
    ensures { Gives (λ x. (x.0, tokens_of x.1.now)) result (spec.year_date_first (tokens_of line.now)) }
{
    let (text, rest) = figure_first(line)?;
    let date = year_date(text)?;
    Some((date, rest))
}

/// An amount of `decimals` decimals.
#[tactic(auto, unfolding(crate::specs::Figure::amount_read))]
fn amount(text: &[u8], decimals: u8) -> Option<u64>
    requires { decimals ≤ 3 }
    ensures { GivesSame result (spec.amount_read decimals text.now) }
{
    match read_decimal(text, decimals) {
        Ok(amount) => Some(amount),
        Err(_) => None,
    }
}

/// A minute of the day, from its hours and minutes.
#[tactic(auto, unfolding(crate::specs::Figure::minute_read))]
fn minute(text: &[u8]) -> Option<u16>
    ensures { GivesSame result (spec.minute_read text.now) }
{
    let (hours, minutes) = pair(text, b":")?;
    if hours <= 23 && minutes <= 59 {
        return Some(60 * hours as u16 + minutes as u16);
    }
    None
}

/// A year of four digits, a month and a date of two.
#[tactic(auto, unfolding(crate::specs::Figure::year_date_read))]
fn year_date(text: &[u8]) -> Option<(u16, u8, u8)>
    ensures { GivesSame result (spec.year_date_read text.now) }
{
    let (year, rest) = number_of_width(text, 4)?;
    let rest = word(rest, b"-")?;
    let (month, date) = pair(rest, b"-")?;
    Some((year as u16, month, date))
}

/// Two numbers of two digits, with a byte between them.
#[tactic(auto, unfolding(crate::specs::Figure::pair_read))]
fn pair(text: &[u8], between: &[u8]) -> Option<(u8, u8)>
    ensures { GivesSame result (spec.pair_read between.now text.now) }
{
    let (first, rest) = number_of_width(text, 2)?;
    let rest = word(rest, between)?;
    let (second, rest) = number_of_width(rest, 2)?;
    if rest.is_empty() {
        return Some((first as u8, second as u8));
    }
    None
}
