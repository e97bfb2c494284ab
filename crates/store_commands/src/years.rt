//! The years of which offsets are asked.
ghost use Rattle.std.specs.Prelude.{◌≡◌, ◌≤◌, IfSome};
ghost use Rattle.{taxi_units.specs.Reading.{GivesSame}, offset_rules.specs.Pairs.{AreYears}};
ghost use Rattle.store_commands.specs.Years.{year_of, years_of};

use std::marker::Model;
use taxi_units::figure_in;

/// The first and the last of at most fifteen years, of 2000 to 2199.
#[derive(Clone, Copy)]
pub struct Years {
    first: u16,
    last: u16,
}

impl Model for Years {
    ghost use Rattle.{std.specs.Prelude.{ℕ}, offset_rules.specs.Pairs.{AreYears}};

    ghost Value = { ℕ × ℕ };

    ghost view = { λ years. (years.first, years.last) };

    ghost inverse = { λ years. record { first = years.0; last = years.1 } };

    ghost invariant = { λ years. AreYears years.first years.last };
}

/// The year that a word is: four digits, 2000 to 2199.
fn year(word: &[u8]) -> Option<u16>
    ensures value { GivesSame result (year_of word.now) }
    ensures range { IfSome result (λ year. (2000 ≤ year) × (year ≤ 2199)) }
{
    let year = figure_in(word, 4, 4, 2000, 2199)?;
    Some(year as u16)
}

impl Years {
    /// The years of two words, the first and the last one. None exactly if they aren't such years.
    pub fn of(first: &[u8], last: &[u8]) -> Option<Years>
        ensures { result ≡ years_of first.now last.now }
    {
        let first = year(first)?;
        let last = year(last)?;
        if first <= last && last <= first + 14 {
            Some(Years { first, last })
        } else {
            None
        }
    }

    /// The first and the last year.
    pub fn bounds(&self) -> (u16, u16)
        ensures value { result ≡ self.now }
        ensures lawful { AreYears result.0 result.1 }
    {
        (self.first, self.last)
    }
}
