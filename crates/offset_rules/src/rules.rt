//! A yearly rule for summer time, and the offset that it gives a second.
ghost use Rattle.std.specs.Prelude.{[], ◌≡◌, ◌≤◌};
ghost use Rattle.{interval_clock.specs.Offsets.{IsSecond}, offset_rules.specs.Pairs.{changes_of_year}};
ghost use Rattle.offset_rules.specs.{Common.{IsOffset}, Reading.{whole}, Rule.{IsChange, IsRule}, Summer.{offset_by}};
ghost use Rattle.offset_rules.specs.Summer as spec;

use crate::changes::{SECONDS_OF_DAY, second_of_change};
use crate::fault::RuleFault;
use interval_clock::date_of_day;
use std::marker::Model;

/// A change of the offset, which comes once a year: on a date that is named by its weekday and its month, at
/// a minute of that day in UTC.
#[derive(Clone, Copy)]
pub struct Change {
    /// Which date of its weekday in its month: 1 to 4 for the first to the fourth, 5 for the last.
    pub number: u8,
    /// The day of the week, 1 for Monday to 7 for Sunday.
    pub weekday: u8,
    /// The month, 1 to 12.
    pub month: u8,
    /// The minute of the day in UTC, 0 to 1439.
    pub minute: u16,
}

/// A yearly rule: the offset of standard time and that of summer time, at most 14 hours each, in seconds, and
/// the changes at which summer time begins and ends, in two different months.
#[derive(Drop)]
pub struct Rules {
    standard: i32,
    summer: i32,
    begin: Change,
    end: Change,
}

impl Model for Rules {
    ghost use Rattle.offset_rules.specs.Rule.{IsRule, Rule};

    ghost Value = { Rule };

    ghost view = { λ r. record { standard = r.standard; summer = r.summer; begin = r.begin; end = r.end } };

    ghost invariant = { λ r.
        IsRule (record { standard = r.standard; summer = r.summer; begin = r.begin; end = r.end }) };
}

/// Whether summer time is at a second, by the seconds at which it begins and ends in that year.
fn is_summer(begins: u64, ends: u64, second: u64) -> bool
    ensures { result ≡ spec.is_summer begins ends second }
{
    if begins < ends {
        begins <= second && second < ends
    } else {
        second < ends || begins <= second
    }
}

impl Rules {
    /// The rules of two offsets and two changes. `SameMonth`: both changes are in one month.
    pub(crate) fn of(
        standard: i32,
        summer: i32,
        begin: Change,
        end: Change,
    ) -> Result<Rules, RuleFault>
        requires standard { IsOffset standard }
        requires summer { IsOffset summer }
        requires begin { IsChange begin }
        requires end { IsChange end }
        ensures { result ≡ whole (record { standard = standard; summer = summer; begin = begin; end = end }) [] }
    {
        if begin.month == end.month {
            return Err(RuleFault::SameMonth);
        }
        Ok(Rules {
            standard,
            summer,
            begin,
            end,
        })
    }

    /// The offset from UTC, in seconds, at a second of 946,684,800 to 7,258,118,399. It is that of summer time if
    /// the two changes of the second's year in UTC make it so, and else that of standard time.
    #[tactic(auto, unfolding(crate::specs::Summer::offset_by))]
    pub fn at(&self, second: u64) -> i32
        requires { IsSecond second }
        ensures value { result ≡ offset_by self.now second }
        ensures in_range { IsOffset result }
        ensures lawful { IsRule self.now }
    {
        let year = date_of_day((second / SECONDS_OF_DAY) as u32).year;
        let begins = second_of_change(year, self.begin);
        let ends = second_of_change(year, self.end);
        if is_summer(begins, ends, second) {
            self.summer
        } else {
            self.standard
        }
    }

    /// The two changes of a year in order of time, each with the offset that begins there.
    #[tactic(auto, unfolding(crate::specs::Pairs::changes_of_year))]
    pub(crate) fn changes(&self, year: u16) -> [(u64, i32); 2]
        requires from { 1970 ≤ year }
        requires to { year ≤ 9999 }
        ensures { result ≡ changes_of_year self.now year }
    {
        let begins = (second_of_change(year, self.begin), self.summer);
        let ends = (second_of_change(year, self.end), self.standard);
        if begins.0 < ends.0 {
            [begins, ends]
        } else {
            [ends, begins]
        }
    }
}
