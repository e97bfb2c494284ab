//! The tables: how they are made, and their look-ups.
ghost use Rattle.std.specs.Prelude.{ℕ, ◌*◌, ◌+◌, ◌<◌, ◌^◌, ◌∷◌, ◌≡◌, ◌≤ℤ◌, ◌≤◌, IfOk, get_or, length, min, pos, true};
ghost use Rattle.taxi_units.specs.{Counted.{IsElement}, Money.{largest_display_step}};
ghost use Rattle.{drive_modes.specs.Constant.{greatest_constant, least_constant}, tariff_compile.specs.Near.{IsNear}};
ghost use Rattle.{interval_clock.specs.Calendar.{IsDateOf}, tariff_check.specs.Amounts.{IsFitInitial}};
ghost use Rattle.tariff_calendar.specs.Lists.{is_holiday};
ghost use Rattle.tariff_compile.specs.{Cells.{IsBelow, cell_number}, Tables.{lines_in, rate_by, sizes_for, tables_of}};
ghost use Rattle.tariff_compile.specs.Common.{Context, Tree, has_day, has_days, initial_by, supplement_of, tree_of};
ghost use Rattle.tariff_compile.specs.Tables.{AreFit, IsCompiled, IsFit, IsInRangeFor, IsTablesOf, fees_in, fees_named};

use crate::bands::{cell_number, sizes_of};
use crate::cells::{CellLines, all_cells};
use crate::choices::{all_supplements, all_values, all_weights};
use crate::contexts::{bands_at, bands_at_hiring, bands_until, plain_bands_at};
use crate::parts::{Bands, Lasting};
use drive_modes::{Constant, Rounding, Weights};
use std::alloc::Global;
use std::marker::Model;
use std::sync::ledger::Ledger;
use tariff_calendar::Cuts;
use tariff_check::{Checked, Initial, InitialNumbers, Supplement};
use tariff_tree::Context;
use taxi_units::{Counted, NoMemory, Steps};

/// The tables of a sound tariff under a constant: its cuts, what each rate weighs, its initial hire fees, minimum fares
/// and supplements, and for each cell its lines. They keep no condition, line or text. Tables of cells are this
/// project's own.
#[derive(Drop)]
pub struct Tables {
    pub(crate) cuts: Cuts,
    pub(crate) weights: Vec<Weights>,
    pub(crate) initials: Vec<InitialNumbers>,
    pub(crate) minimums: Vec<u64>,
    pub(crate) cells: Vec<CellLines>,
    pub(crate) supplements: Vec<Option<Supplement>>,
    pub(crate) constant: Constant,
    pub(crate) measure: u128,
    pub(crate) step: u64,
    pub(crate) rounding: Rounding,
    pub(crate) decimals: u8,
    pub(crate) positions: u8,
    pub(crate) zones: u8,
}

/// The lists that tables are made of.
type Lists = (
    Cuts,
    Vec<Weights>,
    Vec<InitialNumbers>,
    Vec<u64>,
    Vec<CellLines>,
    Vec<Option<Supplement>>,
);

/// The numbers that tables are made of.
type Numbers = (Constant, u128, u64, Rounding, u8, u8, u8);

impl Model for Tables {
    ghost use Rattle.tariff_compile.specs.Tables.{IsCompiled, IsFit, TableParts, parts_of};

    ghost Value = { TableParts };

    ghost view = { parts_of };

    ghost invariant = { λ t. IsCompiled (parts_of t) × IsFit (parts_of t) };
}

/// Makes the tables of a tariff under a constant of the taximeter. Each cell has the lines that hold first in a context
/// of it, at the beginning of its bands. `NoMemory` if memory runs out.
pub fn compile(alloc: Global, checked: &Checked, k: Constant) -> Result<Tables, NoMemory>
    ensures value { IfOk result (λ tables. tables ≡ tables_of (tree_of checked.now) k) }
    ensures tables { IfOk result (IsTablesOf (tree_of checked.now)) }
    ensures fit { IfOk result IsFit }
{
    let cuts = Cuts::collect(alloc, checked, k)?;
    let weights = all_weights(alloc, checked.rates(), k, checked.measure())?;
    let initials = all_values(alloc, checked.initials())?;
    let minimums = all_values(alloc, checked.minimums())?;
    let cells = all_cells(alloc, checked, &cuts, k)?;
    let supplements = all_supplements(alloc, checked)?;
    let (step, rounding) = checked.step();
    Ok(Tables {
        cuts,
        weights,
        initials,
        minimums,
        cells,
        supplements,
        constant: k,
        measure: k.get() as u128 * checked.measure() as u128,
        step,
        rounding,
        decimals: checked.decimals(),
        positions: checked.positions(),
        zones: checked.zones(),
    })
}

impl Tables {
    /// Takes tables apart. It compiles only while they are cuts, lists of plain parts and plain numbers,
    /// and nothing else; each of these types is taken apart where it stands.
    fn take_apart(self) -> (Lists, Numbers) {
        let Tables {
            cuts,
            weights,
            initials,
            minimums,
            cells,
            supplements,
            constant,
            measure,
            step,
            rounding,
            decimals,
            positions,
            zones,
        } = self;
        (
            (cuts, weights, initials, minimums, cells, supplements),
            (
                constant, measure, step, rounding, decimals, positions, zones,
            ),
        )
    }

    /// The weights of the rate that holds first in a context that a trip may have, under the tables' constant. Each
    /// read of a cut, of a cell or of the weights is a step: 2 to 22.
    pub fn rate_at<L: Ledger>(&self, x: &Context, steps: &mut Steps<L>) -> Weights
        requires range { IsInRangeFor self.now x.now }
        ensures tree { (t : Tree) → IsTablesOf t self.now → result ≡ rate_by t self.now.constant x.now }
        ensures fit { AreFit self.now.measure result }
        ensures most { steps.new ≤ steps.old + 22 }
        ensures least { steps.old + 2 ≤ steps.new }
    {
        let bands = bands_at(&self.cuts, x, steps);
        let lines = self.lines_of(&bands, steps);
        Counted::of(self.weights.as_slice()).read(lines.rate as usize, steps)
    }

    /// The weights of the rate that holds first in a context, as `rate_at` gives them. It also says for how many more
    /// pulses and more ticks of a trip they at least stay the same: until the next cut of distance and of time. It
    /// takes as many steps.
    pub fn rate_until<L: Ledger>(&self, x: &Context, steps: &mut Steps<L>) -> Lasting
        requires range { IsInRangeFor self.now x.now }
        ensures tree { (t : Tree) → IsTablesOf t self.now → result.weights ≡ rate_by t self.now.constant x.now }
        ensures near { (t : Tree) (y : Context) → IsTablesOf t self.now → IsInRangeFor self.now y
            → IsNear result.further result.longer x.now y → result.weights ≡ rate_by t self.now.constant y }
        ensures fit { AreFit self.now.measure result.weights }
        ensures most { steps.new ≤ steps.old + 22 }
        ensures least { steps.old + 2 ≤ steps.new }
    {
        let (bands, further, longer) = bands_until(&self.cuts, x, steps);
        let lines = self.lines_of(&bands, steps);
        let weights = Counted::of(self.weights.as_slice()).read(lines.rate as usize, steps);
        Lasting {
            weights,
            further,
            longer,
        }
    }

    /// The initial hire fee and the minimum fare that hold first at the hiring of a context that a trip may have, under
    /// the tables' constant. Each read of a cut of days or minutes, of a cell, of the fee or of the minimum fare is a
    /// step: 2 to 15.
    pub fn initial_at<L: Ledger>(&self, x: &Context, steps: &mut Steps<L>) -> Initial
        requires range { IsInRangeFor self.now x.now }
        ensures tree { (t : Tree) → IsTablesOf t self.now → result ≡ initial_by t x.now }
        ensures fit { IsFitInitial result }
        ensures most { steps.new ≤ steps.old + 15 }
        ensures least { steps.old + 2 ≤ steps.new }
    {
        let bands = bands_at_hiring(&self.cuts, x, steps);
        let lines = self.lines_of(&bands, steps);
        self.fees_of(lines, steps)
    }

    /// The fees that lines name. Each read of one is a step: 1 or 2.
    fn fees_of<L: Ledger>(&self, lines: CellLines, steps: &mut Steps<L>) -> Initial
        requires { lines.initial < length self.now.initials }
        ensures value { result ≡ fees_named self.now lines }
        ensures steps { (steps.old + 1 ≤ steps.new) × (steps.new ≤ steps.old + 2) }
    {
        let fee = Counted::of(self.initials.as_slice()).read(lines.initial as usize, steps);
        Initial {
            amount: fee.amount,
            covers: fee.covers,
            minimum: counted_amount(self.minimums.as_slice(), lines.minimum, steps),
        }
    }

    /// The lines that hold first in a context that a trip may have, under the tables' constant. It takes no steps: it
    /// is for callers that go over many contexts, and no event asks it.
    pub fn lines_at(&self, x: &Context) -> CellLines
        requires range { IsInRangeFor self.now x.now }
        ensures value { result ≡ lines_in self.now x.now }
        ensures compiled { IsCompiled self.now }
    {
        let sizes = sizes_of(self.positions, self.zones, &self.cuts);
        let cell = cell_number(&sizes, &plain_bands_at(&self.cuts, x));
        self.cells.as_slice()[cell]
    }

    /// The initial hire fee and the minimum fare that hold first at the hiring of such a context. It takes no steps.
    pub fn fees_at(&self, x: &Context) -> Initial
        requires range { IsInRangeFor self.now x.now }
        ensures { result ≡ fees_in self.now x.now }
    {
        let lines = self.lines_at(x);
        let fee = self.initials.as_slice()[lines.initial as usize];
        Initial {
            amount: fee.amount,
            covers: fee.covers,
            minimum: amount(self.minimums.as_slice(), lines.minimum),
        }
    }

    /// The cuts of the tariff, and its holidays.
    pub fn cuts(&self) -> &Cuts
        ensures { result.now ≡ self.now.cuts }
    {
        &self.cuts
    }

    /// The lines of the cell with these numbers. One step.
    fn lines_of<L: Ledger>(&self, bands: &Bands, steps: &mut Steps<L>) -> CellLines
        requires below { IsBelow (sizes_for self.now) bands.now }
        ensures value { IsElement self.now.cells (cell_number (sizes_for self.now) bands.now) result }
        ensures compiled { IsCompiled self.now }
        ensures step { steps.new ≡ steps.old + 1 }
    {
        let sizes = sizes_of(self.positions, self.zones, &self.cuts);
        Counted::of(self.cells.as_slice()).read(cell_number(&sizes, bands), steps)
    }

    /// Says what the type keeps of each of its values: they are the tables of a tariff, with numbers within their
    /// limits. It does nothing.
    pub fn recall(&self)
        ensures compiled { IsCompiled self.now }
        ensures fit { IsFit self.now }
    {
        let _ = &self.measure;
    }

    /// Whether a day, by its number since 1970-01-01, is a holiday of the tariff. At most 8 steps, and at least one if
    /// there is a holiday and the day is from 1970 on.
    pub fn holiday<L: Ledger>(&self, day: i32, steps: &mut Steps<L>) -> bool
        ensures value { result ≡ has_day self.now.cuts.holidays day }
        ensures tree { (t : Tree) (year month date : ℕ) → IsTablesOf t self.now → IsDateOf day year month date
            → result ≡ is_holiday t.lines year month date }
        ensures some { result ≡ true → has_days self.now.cuts ≡ true }
        ensures most { steps.new ≤ steps.old + 8 }
        ensures least { pos 0 ≤ℤ day → steps.old + min 1 (length self.now.cuts.holidays) ≤ steps.new }
    {
        self.cuts.holiday(day, steps)
    }

    /// The supplement of a number. `None` exactly if the tariff has no such line, as for each number outside 1 to 16.
    /// One step.
    pub fn supplement<L: Ledger>(&self, number: u8, steps: &mut Steps<L>) -> Option<Supplement>
        ensures tree { (t : Tree) → IsTablesOf t self.now → result ≡ supplement_of t.lines number }
        ensures compiled { IsCompiled self.now }
        ensures steps { steps.new ≡ steps.old + 1 }
    {
        let supplements = Counted::of(self.supplements.as_slice());
        if number < 1 || number > 16 {
            steps.spend();
            return None;
        }
        supplements.read(number as usize - 1, steps)
    }

    /// M, the constant times the common measure: a unit of charge is 1/M of the smallest money unit.
    pub fn measure(&self) -> u128
        ensures value { result ≡ self.now.measure }
        ensures positive { 0 < result }
        ensures most { result ≤ 2 * 10 ^ 23 }
        ensures compiled { IsCompiled self.now }
        ensures fit { IsFit self.now }
    {
        self.measure
    }

    /// The display step, 1 to 1,000,000.
    pub fn step(&self) -> u64
        ensures value { result ≡ self.now.step }
        ensures positive { 0 < result }
        ensures most { result ≤ largest_display_step }
    {
        self.step
    }

    /// How the fare is rounded to the display step.
    pub fn rounding(&self) -> Rounding
        ensures { result ≡ self.now.rounding }
    {
        self.rounding
    }

    /// The decimals of money, 0 to 3.
    pub fn decimals(&self) -> u8
        ensures value { result ≡ self.now.decimals }
        ensures most { result ≤ 3 }
    {
        self.decimals
    }

    /// How many tariff positions there are, 1 to 9.
    pub fn positions(&self) -> u8
        ensures value { result ≡ self.now.positions }
        ensures range { (1 ≤ result) × (result ≤ 9) }
    {
        self.positions
    }

    /// How many zones there are, 1 to 9.
    pub fn zones(&self) -> u8
        ensures value { result ≡ self.now.zones }
        ensures range { (1 ≤ result) × (result ≤ 9) }
    {
        self.zones
    }

    /// The constant of the taximeter, 500 to 200,000 pulses a kilometre.
    pub fn constant(&self) -> Constant
        ensures value { result ≡ self.now.constant }
        ensures range { (least_constant ≤ result) × (result ≤ greatest_constant) }
    {
        self.constant
    }
}

/// The amount of a number from 1; 0 if there is none.
fn amount(amounts: &[u64], number: u8) -> u64
    ensures { result ≡ get_or (0 ∷ amounts.now) number 0 }
{
    if number == 0 || amounts.len() < number as usize {
        return 0;
    }
    amounts[number as usize - 1]
}

/// The amount of a number from 1, one step; 0, without a step, if there is none.
fn counted_amount<L: Ledger>(amounts: &[u64], number: u8, steps: &mut Steps<L>) -> u64
    ensures value { result ≡ get_or (0 ∷ amounts.now) number 0 }
    ensures steps { (steps.old ≤ steps.new) × (steps.new ≤ steps.old + 1) }
{
    if number == 0 || amounts.len() < number as usize {
        return 0;
    }
    Counted::of(amounts).read(number as usize - 1, steps)
}
