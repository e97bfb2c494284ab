//! The words of a command.
ghost use Rattle.{std.specs.Option.{option_map}, taxi_units.specs.Reading.{GivesSame}};
ghost use Rattle.std.specs.{Prelude.{ℕ, ◌==◌, ◌≡◌, ◌≤◌, length, map, string_bytes}, Str.Parse.{digits_value}};
ghost use Rattle.{shift_book.specs.Reading.{driver_of}, commands.specs.Common.{digits_at_front}};
ghost use Rattle.commands.specs.Words.{constant_of, fitting, row_of, seed_of, signs_on, trips_of};
ghost use Rattle.commands.specs.Words as spec;

use arrayvec::ArrayVec;
use drive_modes::{Constant, GREATEST_CONSTANT, LEAST_CONSTANT};
use shift_book::read_driver;
use std::marker::Model;
use store_commands::Years;
use taxi_units::{figure_in, is_word};

/// How many trips a generated drive has: 1 to 1,000.
#[derive(Clone, Copy)]
pub struct Trips {
    count: u32,
}

impl Model for Trips {
    ghost use Rattle.std.specs.Prelude.{ℕ, ◌≤◌};

    ghost Value = { ℕ };

    ghost view = { λ t. t.count };

    ghost inverse = { λ n. record { count = n } };

    ghost invariant = { λ t. (1 ≤ t.count) × (t.count ≤ 1000) };
}

impl Trips {
    /// Their number.
    pub fn get(&self) -> u32
        ensures value { result ≡ self.now }
        ensures range { (1 ≤ result) × (result ≤ 1000) }
    {
        self.count
    }
}

/// A command that the program knows.
#[derive(Drop)]
pub enum Row {
    /// `check TARIFF`
    Check,
    /// `tables TARIFF CONSTANT`
    Tables(Constant),
    /// `fare TARIFF DRIVE CONSTANT`
    Fare(Constant),
    /// `totals`
    Totals,
    /// `seal TARIFF PARAMS`
    Seal,
    /// `run TARIFF DRIVE`
    Run,
    /// `bench TARIFF DRIVE READINGS`
    Bench,
    /// `gen SEED N`
    Gen(u64, Trips),
    /// `port REQUESTS`
    Port,
    /// `offsets RULES FROM TO`
    Offsets(Years),
    /// `mark on DRIVER`, or with no driver `mark off`
    Mark(Option<ArrayVec<u8, 16>>),
    /// `shifts BOOK`
    Shifts,
    /// `sealed`
    Sealed,
    /// `form TARIFF`
    Form,
    /// `faults TARIFF`
    Faults,
    /// `near TARIFF`
    Near,
    /// `lines TARIFF CONSTANT`
    Lines(Constant),
    /// `rates TARIFF CONSTANT`
    Rates(Constant),
    /// `explain TARIFF DRIVE PARAMS`
    Explain,
    /// `story TARIFF DRIVE PARAMS`
    Story,
    /// `compare TARIFF OTHER CONSTANT`
    Compare(Constant),
}

/// The constant that a word is: 1 to 6 digits, 500 to 200,000.
fn constant(word: &[u8]) -> Option<Constant>
    ensures { GivesSame result (constant_of word.now) }
{
    let k = figure_in(word, 1, 6, LEAST_CONSTANT as u64, GREATEST_CONSTANT as u64)?;
    Constant::new(k as u32).ok()
}

/// Whether a word is of digits alone.
fn are_digits(word: &[u8]) -> bool
    ensures { result ≡ (digits_at_front word.now == length word.now) }
{
    for byte in word {
        if !byte.is_ascii_digit() {
            return false;
        }
    }
    true
}

/// The number that digits make, if 64 bits hold it.
fn number_of_digits(digits: &[u8]) -> Option<u64>
    requires { digits_at_front digits.now ≡ length digits.now }
    ensures { result ≡ fitting (digits_value 10 digits.now) }
{
    let mut number = 0u64;
    for byte in digits {
        let next = number as u128 * 10 + (*byte - b'0') as u128;
        if next > u64::MAX as u128 {
            return None;
        }
        number = next as u64;
    }
    Some(number)
}

/// The seed that a word is: 1 to 20 digits, whose number 64 bits hold.
#[tactic(auto, unfolding(crate::specs::Words::seed_of))]
fn seed(word: &[u8]) -> Option<u64>
    ensures { result ≡ seed_of word.now }
{
    if 1 <= word.len() && word.len() <= 20 && are_digits(word) {
        number_of_digits(word)
    } else {
        None
    }
}

/// The number of trips that a word is: 1 to 4 digits, 1 to 1,000.
fn trip_count(word: &[u8]) -> Option<Trips>
    ensures { GivesSame result (trips_of word.now) }
{
    let count = figure_in(word, 1, 4, 1, 1000)?;
    Some(Trips {
        count: count as u32,
    })
}

/// The command of one word.
fn one_word(command: &[u8]) -> Option<Row>
    ensures { result ≡ spec.one_word command.now }
{
    if is_word(command, b"totals") {
        Some(Row::Totals)
    } else if is_word(command, b"sealed") {
        Some(Row::Sealed)
    } else {
        None
    }
}

/// The command of two words.
fn two_words(command: &[u8], last: &[u8]) -> Option<Row>
    ensures { result ≡ spec.two_words command.now last.now }
{
    if is_word(command, b"check") {
        Some(Row::Check)
    } else if is_word(command, b"port") {
        Some(Row::Port)
    } else if is_word(command, b"mark") && is_word(last, b"off") {
        Some(Row::Mark(None))
    } else if is_word(command, b"shifts") {
        Some(Row::Shifts)
    } else if is_word(command, b"form") {
        Some(Row::Form)
    } else if is_word(command, b"faults") {
        Some(Row::Faults)
    } else if is_word(command, b"near") {
        Some(Row::Near)
    } else {
        None
    }
}

/// The command of three words.
fn three_words(command: &[u8], middle: &[u8], last: &[u8]) -> Option<Row>
    ensures { result ≡ spec.three_words command.now middle.now last.now }
{
    if is_word(command, b"tables") {
        Some(Row::Tables(constant(last)?))
    } else if is_word(command, b"seal") {
        Some(Row::Seal)
    } else if is_word(command, b"run") {
        Some(Row::Run)
    } else if is_word(command, b"gen") {
        Some(Row::Gen(seed(middle)?, trip_count(last)?))
    } else if is_word(command, b"mark") && is_word(middle, b"on") {
        mark_on(last)
    } else if is_word(command, b"lines") {
        Some(Row::Lines(constant(last)?))
    } else if is_word(command, b"rates") {
        Some(Row::Rates(constant(last)?))
    } else {
        None
    }
}

/// The command by which the driver that a word is signs on.
fn mark_on(driver: &[u8]) -> Option<Row>
    ensures { result ≡ option_map signs_on (driver_of driver.now) }
{
    Some(Row::Mark(Some(read_driver(driver)?)))
}

/// The command of four words.
fn four_words(command: &[u8], third: &[u8], last: &[u8]) -> Option<Row>
    ensures { result ≡ spec.four_words command.now third.now last.now }
{
    if is_word(command, b"fare") {
        Some(Row::Fare(constant(last)?))
    } else if is_word(command, b"bench") {
        Some(Row::Bench)
    } else if is_word(command, b"explain") {
        Some(Row::Explain)
    } else if is_word(command, b"story") {
        Some(Row::Story)
    } else if is_word(command, b"offsets") {
        Some(Row::Offsets(Years::of(third, last)?))
    } else if is_word(command, b"compare") {
        Some(Row::Compare(constant(last)?))
    } else {
        None
    }
}

/// The command that words are. None exactly if they are no command.
pub fn row_in(words: &[String]) -> Option<Row>
    ensures { result ≡ row_of (map string_bytes words.now) }
{
    match words {
        [command] => one_word(command.as_bytes()),
        [command, last] => two_words(command.as_bytes(), last.as_bytes()),
        [command, middle, last] => {
            three_words(command.as_bytes(), middle.as_bytes(), last.as_bytes())
        }
        [command, _, third, last] => {
            four_words(command.as_bytes(), third.as_bytes(), last.as_bytes())
        }
        _ => None,
    }
}
