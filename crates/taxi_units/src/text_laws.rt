//! What the texts of numbers and words mean, in words that share nothing with how they are read and
//! written: the laws of this crate on texts.
ghost use Rattle.std.specs.{Fmt.{decimal}, Prelude.{get_or, length, max, take}, Str.Parse.{digits_value_after}};
ghost use Rattle.std.specs.Prelude.{ℕ, ◌*◌, ◌++◌, ◌+◌, ◌-◌, ◌<◌, ◌^◌, ◌↔◌, ◌≡◌, ◌≤◌, List, Ok, Result, Some, drop};
ghost use Rattle.taxi_units.specs.{Common.{NumberFault}, Written.{IsAmountText, IsNumberText, IsPaddedText}};
ghost use Rattle.taxi_units.specs.{Decimal.{IsReadAs}, Digits.{IsFigure}, Number.{number_of_width, padded_text}};
ghost use Rattle.taxi_units.specs.Number.{HasDigitsInFront, IsFigureAt, IsNumberAt, IsNumberOfWidth, NoDigitFirst};
ghost use Rattle.taxi_units.specs.Number.{decimal_read, digits_at_front, figure_at, figure_in, money_text, number_at};
ghost use Rattle.taxi_units.specs.Reading.{word_at};

/// What is written as an amount is read as that amount, with as many decimals.
pub fn amounts_read_back()
    ensures { (decimals units : ℕ) → units ≤ 10 ^ 12 → decimal_read decimals (money_text decimals units) ≡ Ok units }
{}

/// The answer to a text is the one that its form has: the amount if it is good, and else its fault.
pub fn decimals_are_read_by_their_form()
    ensures { (decimals : ℕ) (text : List ℕ) (answer : Result ℕ NumberFault)
        → (decimal_read decimals text ≡ answer) ↔ IsReadAs decimals text answer }
{}

/// A number at the front of a text is all of its first digits, if they are 1 to 12; a number of a width,
/// if they are exactly that many.
pub fn numbers_are_read_by_their_digits()
    ensures plain { (text rest : List ℕ) (value : ℕ)
        → (number_at text ≡ Some (value, rest)) ↔ IsNumberAt text value rest }
    ensures wide { (width : ℕ) (text rest : List ℕ) (value : ℕ) → width ≤ 12
        → (number_of_width width text ≡ Some (value, rest)) ↔ IsNumberOfWidth width text value rest }
{}

/// A figure is all digits at the front of a text, or the whole text, if they are `fewest` to `most` digits and their
/// number is of `low` to `high`.
pub fn figures_are_read_by_their_digits()
    ensures front { (fewest most low high : ℕ) (text rest : List ℕ) (value : ℕ) → most ≤ 12
        → (figure_at fewest most low high text ≡ Some (value, rest))
        ↔ IsFigureAt fewest most low high text value rest }
    ensures whole { (fewest most low high : ℕ) (text : List ℕ) (value : ℕ) → most ≤ 12
        → (figure_in fewest most low high text ≡ Some value) ↔ IsFigure fewest most low high text value }
{}

/// What is written as a number is a figure of it in every range that it is in, and so is what is written with zeros in
/// front up to a width.
pub fn numbers_are_written_as_figures()
    ensures plain { (most low high n : ℕ) → 0 < most → most ≤ 12 → n < 10 ^ most → low ≤ n → n ≤ high
        → IsFigure 1 most low high (decimal n) n }
    ensures padded { (width low high n : ℕ) → 0 < width → width ≤ 12 → n < 10 ^ width → low ≤ n → n ≤ high
        → IsFigure width width low high (padded_text width n) n }
{}

/// The digits at the front of a text are counted up to the first byte that is none, and those that were
/// counted are digits alone.
pub fn digits_are_counted()
    ensures count { (text : List ℕ) (count : ℕ) → (digits_at_front text ≡ count) ↔ HasDigitsInFront text count }
    ensures alone { (text : List ℕ)
        → digits_at_front (take (digits_at_front text) text) ≡ length (take (digits_at_front text) text) }
{}

/// If a number reaches a limit with one of its digits, it doesn't fall below it with the digits that
/// follow.
pub fn numbers_grow_by_their_digits()
    ensures { (limit start : ℕ) (digits : List ℕ) (place : ℕ) → place < length digits
        → digits_at_front (drop place digits) ≡ length (drop place digits)
        → limit ≤ start * 10 + (get_or digits place 0 - 48) → limit ≤ digits_value_after 10 start (drop place digits) }
{}

/// What is written as a number below 10^12, with zeros in front up to 12 digits or without, is read
/// as that number, if no digit follows it.
pub fn numbers_read_back()
    ensures plain { (value : ℕ) (rest : List ℕ) → value < 10 ^ 12 → NoDigitFirst rest
        → number_at (decimal value ++ rest) ≡ Some (value, rest) }
    ensures padded { (width value : ℕ) (rest : List ℕ) → width ≤ 12 → value < 10 ^ 12 → NoDigitFirst rest
        → number_at (padded_text width value ++ rest) ≡ Some (value, rest) }
{}

/// A word is read exactly if it stands at the front of a text, and the rest is what stands after it.
pub fn words_are_read_by_their_text()
    ensures { (word text rest : List ℕ) → (word_at word text ≡ Some rest) ↔ (text ≡ word ++ rest) }
{}

/// A number's text is the one that has its digits: with no zero in front but a single one, or with
/// zeros in front up to a width.
pub fn numbers_are_written_by_their_digits()
    ensures plain { (value : ℕ) (text : List ℕ) → value < 2 ^ 128 → (decimal value ≡ text) ↔ IsNumberText value text }
    ensures padded { (width value : ℕ) (text : List ℕ) → value < 2 ^ 128
        → (padded_text width value ≡ text) ↔ IsPaddedText width value text }
{}

/// An amount's text is the one that has its digits, with the given number of decimals after the point,
/// and before it no zero in front but a single one.
pub fn amounts_are_written_by_their_digits()
    ensures { (decimals units : ℕ) (text : List ℕ) → units < 2 ^ 128
        → (money_text decimals units ≡ text) ↔ IsAmountText decimals units text }
{}

/// How long the texts of numbers are: a number below 10 to the power `places` has at most `places` digits.
/// With zeros in front, a text is as long as the width or the digits, whichever is more. An amount has at
/// most a point more.
pub fn texts_of_numbers_are_short()
    ensures plain { (places value : ℕ) → 0 < places → places ≤ 64 → value < 10 ^ places
        → (0 < length (decimal value)) × (length (decimal value) ≤ places) }
    ensures padded { (width value : ℕ) → length (padded_text width value) ≡ max width (length (decimal value)) }
    ensures amounts { (decimals places units : ℕ) → decimals < places → places ≤ 64 → units < 10 ^ places
        → (0 < length (money_text decimals units)) × (length (money_text decimals units) ≤ places + 1) }
{}
