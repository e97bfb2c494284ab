//! A tariff, as the tree of its lines. Money is counted in the units of the tariff's last decimal,
//! distances in decimetres, and times in tenths of a second.
ghost use Rattle.std.specs.Prelude.{[], ◌++◌, ◌∷◌, ◌≡◌, OnErr, OnOk};

use crate::condition::Cond;
use drive_modes::Rounding;
use std::alloc::Global;
use std::marker::Model;
use taxi_units::NoMemory;

/// A rate: the amount `a` for each `b` decimetres, and the amount `c` for each `e` tenths of a second. Without a
/// condition it holds always.
#[derive(Drop)]
pub struct RateLine {
    pub a: u64,
    pub b: u64,
    pub c: u64,
    pub e: u64,
    pub cond: Option<Cond>,
}

/// What a rate charges, and for what, without its condition. In a sound tariff the amounts are at most 1,000,000, and
/// the measures 1 to 10^12.
#[derive(Clone, Copy)]
pub struct RateNumbers {
    pub a: u64,
    pub b: u64,
    pub c: u64,
    pub e: u64,
}

/// An initial hire fee, and the amount of charges that it covers. Without a condition it holds always.
#[derive(Drop)]
pub struct InitialLine {
    pub amount: u64,
    pub covers: u64,
    pub cond: Option<Cond>,
}

/// An initial hire fee and what it covers, without its condition: at most 99,999,999 each in a sound tariff.
#[derive(Clone, Copy)]
pub struct InitialNumbers {
    pub amount: u64,
    pub covers: u64,
}

impl InitialNumbers {
    /// Takes an initial hire fee apart. It compiles only while it is two numbers and nothing else.
    fn take_apart(self) -> (u64, u64) {
        let InitialNumbers { amount, covers } = self;
        (amount, covers)
    }
}

/// A minimum fare: what a trip costs at the least, without its supplements. Without a condition it holds always.
#[derive(Drop)]
pub struct MinimumLine {
    pub amount: u64,
    pub cond: Option<Cond>,
}

/// What a line of a tariff says, and the form of the line; parts in brackets may be left out.
#[derive(Drop)]
pub enum Item {
    /// `step MONEY [behind | ahead]`: the display step, and how the fare is rounded to it.
    Step { amount: u64, rounding: Rounding },
    /// `positions N`: how many tariff positions there are, 1 to 9.
    Positions(u8),
    /// `zones N`: how many zones there are, 1 to 9.
    Zones(u8),
    /// `holiday YYYY-MM-DD`: a date that is a holiday.
    Holiday { year: u16, month: u8, date: u8 },
    /// `supplement N MONEY max N`: a supplement, by its number from 1 to 16, and how often a hiring may have it, 1 to
    /// 99.
    Supplement { number: u8, amount: u64, max: u8 },
    /// `initial MONEY [covers MONEY] [when CONDITION]`: an initial hire fee.
    Initial(InitialLine),
    /// `rate MONEY per TENTHS m , MONEY per TENTHS s [when CONDITION]`: a rate.
    Rate(RateLine),
    /// `minimum MONEY [when CONDITION]`: a minimum fare.
    Minimum(MinimumLine),
}

/// A line of a tariff, with its number in the text, from 1.
#[derive(Drop)]
pub struct TariffLine {
    pub line: u32,
    pub item: Item,
}

/// The lines of a tariff, in their order.
#[derive(Drop)]
pub struct Lines {
    lines: Vec<TariffLine>,
}

impl Model for Lines {
    ghost use Rattle.std.specs.{Coded.{codes}, Prelude.{List}};
    ghost use Rattle.tariff_tree.specs.declared.tariff.TariffLine.{TariffLine};
    ghost use Rattle.tariff_tree.specs.contracts.condition.Cond as condition;

    ghost Value = { List TariffLine };

    ghost coded = { Prim.hlevel (codes, condition.the_row.coded) };

    ghost view = { λ kept. kept.lines.items };
}

impl Lines {
    /// No lines.
    pub fn new(alloc: Global) -> Lines
        ensures { result ≡ [] }
    {
        Lines {
            lines: Vec::new(alloc),
        }
    }

    /// Puts a line behind the others. An error leaves them as they were.
    pub fn push(&mut self, line: TariffLine) -> Result<(), NoMemory>
        ensures ok { OnOk result (self.new ≡ self.old ++ line ∷ []) }
        ensures err { OnErr result (self.new ≡ self.old) }
    {
        self.lines.push(line).map_err(|_| NoMemory)
    }

    /// The lines, in their order.
    pub fn as_slice(&self) -> &[TariffLine]
        ensures { result.now ≡ self.now }
    {
        self.lines.as_slice()
    }
}

/// A tariff: the decimals of its money, 0 to 3, and its lines.
#[derive(Drop)]
pub struct Tariff {
    pub decimals: u8,
    pub lines: Lines,
}
