//! One side of a comparison.
ghost use Rattle.std.specs.Prelude.{◌≡◌, IfOk, get_or};
ghost use Rattle.tariff_compile.specs.Tables.{IsCompiled};
ghost use Rattle.tariff_compare.specs.{Common.{IsInRangeFor, fees_in, lines_in, tree_of}, Sides.{side_of}};

use crate::costs::{all_rates, rate_at};
use drive_modes::Constant;
use std::alloc::Global;
use std::marker::Model;
use tariff_check::{Checked, Initial, RateNumbers};
use tariff_compile::{Tables, compile};
use tariff_tree::Context;
use taxi_units::NoMemory;

/// The tables of a tariff, and its rates.
#[derive(Drop)]
pub(crate) struct Side {
    tables: Tables,
    rates: Vec<RateNumbers>,
}

impl Model for Side {
    ghost use Rattle.tariff_compare.specs.Sides.{SideParts};

    ghost Value = { SideParts };

    ghost view = { λ s. record { tables = s.tables; rates = s.rates.items } };
}

impl Side {
    /// The side of a tariff under a constant.
    pub(crate) fn of(alloc: Global, checked: &Checked, k: Constant) -> Result<Side, NoMemory>
        ensures { IfOk result (λ side. side ≡ side_of (tree_of checked.now) k) }
    {
        Ok(Side {
            tables: compile(alloc, checked, k)?,
            rates: all_rates(alloc, checked.rates())?,
        })
    }

    /// The tables.
    pub(crate) fn tables(&self) -> &Tables
        ensures value { result.now ≡ self.now.tables }
        ensures compiled { IsCompiled self.now.tables }
    {
        self.tables.recall();
        &self.tables
    }

    /// The rate that holds first in a context.
    pub(crate) fn rate_at(&self, x: &Context) -> RateNumbers
        requires { IsInRangeFor self.now.tables x.now }
        ensures { result ≡ get_or self.now.rates (lines_in self.now.tables x.now).rate
            (record { a = 0; b = 0; c = 0; e = 0 }) }
    {
        rate_at(self.rates.as_slice(), self.tables.lines_at(x).rate as usize)
    }

    /// The fees that hold first at the hiring of a context.
    pub(crate) fn fees_at(&self, x: &Context) -> Initial
        requires { IsInRangeFor self.now.tables x.now }
        ensures { result ≡ fees_in self.now.tables x.now }
    {
        self.tables.fees_at(x)
    }
}
