//! Numbers that are read: whole texts of decimals, and numbers at the front of a text.
ghost use Rattle.std.specs.Prelude.{◌*◌, ◌+◌, ◌<◌, ◌^◌, ◌≡◌, ◌≤◌, IfSome, MatchOption, length};
ghost use Rattle.{std.specs.Str.Parse.{digits_value_after}, taxi_units.specs.Reading.{Gives, GivesSame}};
ghost use Rattle.taxi_units.specs.NumberStages.{decimal_read, digits_at_front, parts_read, units_read, whole_read};
ghost use Rattle.taxi_units.specs.Number as spec;

/// Why a text is no amount. A place is a byte's, from 0.
#[derive(Clone, Copy)]
pub enum NumberFault {
    /// The text is empty.
    Empty,
    /// The first place that breaks the form, or the text's length if a digit is missing at its end.
    BadDigit(usize),
    /// The form is good, and the first decimal too many stands at this place.
    TooManyDecimals(usize),
    /// The amount is above 10^12 units.
    TooBig,
}

/// The largest amount that is read, in units.
const LARGEST: u64 = 1_000_000_000_000;

/// Reads one or more digits, and perhaps a point and one or more digits, as an amount in units of
/// the last of `decimals` decimals: with two decimals, `0.2` is 20.
///
/// `Empty`: the text is empty. `BadDigit`: it breaks this form. `TooManyDecimals`: the form is good,
/// and it has more than `decimals` decimals. `TooBig`: none of these, and the amount is above 10^12
/// units. A place is a byte's, from 0. The form and the limit are this project's own.
/// `decimals_are_read_by_their_form` says what each answer means.
#[tactic(auto, using(crate::proofs::Digits::digits_in_front))]
pub fn read_decimal(text: &[u8], decimals: u8) -> Result<u64, NumberFault>
    ensures { result ≡ decimal_read decimals text.now }
{
    if text.is_empty() {
        return Err(NumberFault::Empty);
    }
    let count = count_digits(text);
    if count == 0 {
        return Err(NumberFault::BadDigit(0));
    }
    let (whole, rest) = text.split_at(count);
    read_rest(whole, rest, decimals)
}

/// A number of 1 to 12 digits at the front of the bytes, and what stands after it. All digits at the
/// front belong to it, leading zeros too.
///
/// `None` if no digit stands at the front, or more than 12 do. The limit is this project's own.
/// `numbers_are_read_by_their_digits` says what each answer means.
#[tactic(auto, unfolding(crate::specs::Number::number_at), using(crate::proofs::Digits::few_digits_in_front))]
pub fn number_at(bytes: &[u8]) -> Option<(u64, &[u8])>
    ensures { Gives (λ x. (x.0, x.1.now)) result (spec.number_at bytes.now) }
{
    let (digits, rest) = bytes.split_at(count_digits(bytes));
    if digits.is_empty() || digits.len() > 12 {
        return None;
    }
    let number = number_from(0, digits)?;
    Some((number, rest))
}

/// A number of exactly `width` digits at the front of the bytes, and what stands after it. All digits at
/// the front belong to it, leading zeros too, so the number is below 10^width.
///
/// `None` if fewer or more than `width` digits stand at the front, or if `width` is 0.
/// `numbers_are_read_by_their_digits` says what each answer means.
#[tactic(auto, unfolding(crate::specs::Number::number_of_width))]
pub fn number_of_width(bytes: &[u8], width: usize) -> Option<(u64, &[u8])>
    requires { width ≤ 12 }
    ensures value { Gives (λ x. (x.0, x.1.now)) result (spec.number_of_width width bytes.now) }
    ensures small { IfSome result (λ x. x.0 < 10 ^ width) }
{
    let (number, rest) = number_at(bytes)?;
    if bytes.len() == width + rest.len() {
        return Some((number, rest));
    }
    None
}

/// A number of `fewest` to `most` digits and of `low` to `high` at the front of the bytes, and what stands after it.
/// All digits at the front belong to it, leading zeros too.
///
/// `None` if the bytes begin with no such number. `figures_are_read_by_their_digits` says what each answer means.
#[tactic(auto, unfolding(crate::specs::Number::figure_at))]
pub fn figure_at(
    bytes: &[u8],
    fewest: usize,
    most: usize,
    low: u64,
    high: u64,
) -> Option<(u64, &[u8])>
    requires fewest { fewest ≤ 12 }
    requires most { most ≤ 12 }
    ensures value { Gives (λ x. (x.0, x.1.now)) result (spec.figure_at fewest most low high bytes.now) }
    ensures low { IfSome result (λ x. low ≤ x.0) }
    ensures high { IfSome result (λ x. x.0 ≤ high) }
{
    let (number, rest) = number_at(bytes)?;
    if rest.len() + fewest <= bytes.len()
        && bytes.len() <= rest.len() + most
        && low <= number
        && number <= high
    {
        return Some((number, rest));
    }
    None
}

/// The number of `fewest` to `most` digits and of `low` to `high` that a whole text is. Leading zeros are digits too.
///
/// `None` if the text is no such number. `figures_are_read_by_their_digits` says what each answer means.
#[tactic(auto, unfolding(crate::specs::Number::figure_in))]
pub fn figure_in(text: &[u8], fewest: usize, most: usize, low: u64, high: u64) -> Option<u64>
    requires fewest { fewest ≤ 12 }
    requires most { most ≤ 12 }
    ensures value { GivesSame result (spec.figure_in fewest most low high text.now) }
    ensures low { IfSome result (λ number. low ≤ number) }
    ensures high { IfSome result (λ number. number ≤ high) }
{
    let (number, rest) = figure_at(text, fewest, most, low, high)?;
    if rest.len() == 0 {
        return Some(number);
    }
    None
}

/// The number of 1 to 12 digits and of `low` to `high` that a whole text is, as `figure_in` gives it.
pub fn number_in(text: &[u8], low: u64, high: u64) -> Option<u64>
    ensures value { GivesSame result (spec.number_in low high text.now) }
    ensures low { IfSome result (λ number. low ≤ number) }
    ensures high { IfSome result (λ number. number ≤ high) }
{
    figure_in(text, 1, 12, low, high)
}

/// How many digits, `0` to `9`, stand at the front of the bytes: 0 up to all of them.
/// `digits_are_counted` says which count that is.
pub fn count_digits(bytes: &[u8]) -> usize
    ensures count { result ≡ digits_at_front bytes.now }
    ensures within { result ≤ length bytes.now }
{
    let mut count = 0;
    for byte in bytes {
        if !byte.is_ascii_digit() {
            return count;
        }
        count += 1;
    }
    count
}

/// Reads on after the whole digits: nothing, or a point and decimals.
fn read_rest(whole: &[u8], rest: &[u8], decimals: u8) -> Result<u64, NumberFault>
    requires whole { digits_at_front whole.now ≡ length whole.now }
    requires places { length whole.now + length rest.now < 2 ^ 63 }
    ensures { result ≡ whole_read decimals whole.now rest.now }
{
    match rest.split_first() {
        None => read_units(whole, rest, decimals),
        Some((byte, parts)) => {
            if *byte == b'.' {
                read_parts(whole, parts, decimals)
            } else {
                Err(NumberFault::BadDigit(whole.len()))
            }
        }
    }
}

/// Reads on after the point.
fn read_parts(whole: &[u8], parts: &[u8], decimals: u8) -> Result<u64, NumberFault>
    requires whole { digits_at_front whole.now ≡ length whole.now }
    requires places { length whole.now + length parts.now < 2 ^ 63 }
    ensures { result ≡ parts_read decimals whole.now parts.now }
{
    let count = count_digits(parts);
    if count < parts.len() || count == 0 {
        return Err(NumberFault::BadDigit(whole.len() + 1 + count));
    }
    read_units(whole, parts, decimals)
}

/// The units of a text of good form.
#[tactic(auto, using(crate::proofs::Digits::units_of_both_parts))]
fn read_units(whole: &[u8], parts: &[u8], decimals: u8) -> Result<u64, NumberFault>
    requires whole { digits_at_front whole.now ≡ length whole.now }
    requires parts { digits_at_front parts.now ≡ length parts.now }
    requires places { length whole.now + length parts.now < 2 ^ 63 }
    ensures { result ≡ units_read decimals whole.now parts.now }
{
    if parts.len() > decimals as usize {
        return Err(NumberFault::TooManyDecimals(whole.len() + 1 + decimals as usize));
    }
    let Some(number) = number_from(0, whole) else {
        return Err(NumberFault::TooBig);
    };
    let Some(number) = number_from(number, parts) else {
        return Err(NumberFault::TooBig);
    };
    match scaled(number, decimals as usize - parts.len()) {
        Some(units) => Ok(units),
        None => Err(NumberFault::TooBig),
    }
}

/// A number with `zeros` zeros behind it. `None` if that is above the largest.
#[tactic(auto, using(crate::proofs::Digits::one_zero_more, crate::proofs::Digits::large_with_zeros))]
fn scaled(number: u64, zeros: usize) -> Option<u64>
    requires { number ≤ 10 ^ 12 }
    ensures { MatchOption result (10 ^ 12 < number * 10 ^ zeros) (λ n. (n ≡ number * 10 ^ zeros) × (n ≤ 10 ^ 12)) }
{
    let mut units = number;
    for _ in 0..zeros {
        units *= 10;
        if units > LARGEST {
            return None;
        }
    }
    Some(units)
}

/// The number that these digits make after those of a number. `None` if it is above the largest.
fn number_from(start: u64, digits: &[u8]) -> Option<u64>
    requires start { start ≤ 10 ^ 12 }
    requires digits { digits_at_front digits.now ≡ length digits.now }
    ensures { MatchOption result (10 ^ 12 < digits_value_after 10 start digits.now)
        (λ n. (n ≡ digits_value_after 10 start digits.now) × (n ≤ 10 ^ 12)) }
{
    let mut number = start;
    for byte in digits {
        number = number * 10 + (*byte - b'0') as u64;
        if number > LARGEST {
            return None;
        }
    }
    Some(number)
}
