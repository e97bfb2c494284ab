//! The rows of the tables, each made in an empty line.
ghost use Rattle.std.specs.Prelude.{[], ◌++◌, ◌+◌, ◌<◌, ◌↔◌, ◌≡◌, ◌≤◌, IsOk, OnErr, OnOk, codes, decimal, length};
ghost use Rattle.{arrayvec.specs.ArrayVec.{array_vec_len}, taxi_units.specs.Line.{line_size}};
ghost use Rattle.tariff_compile.specs.{Common.{money_text}, Rows.{row_count, row_text}, Tables.{IsCompiled}};
ghost use Rattle.tariff_compile.specs.Rows.{cell_row, initial_row, measure_row, minimum_field, minimum_row, rate_row};

use crate::cells::CellLines;
use crate::tables::Tables;
use drive_modes::Weights;
use tariff_check::InitialNumbers;
use taxi_units::{Line, LineFull, put_bytes, put_money, put_number};

impl Tables {
    /// How many rows the tables have as a text: one, and one for each rate, initial hire fee, minimum fare
    /// and cell.
    pub fn rows(&self) -> u64
        ensures { result ≡ row_count self.now }
    {
        let rates = self.weights.as_slice().len() as u64;
        let initials = self.initials.as_slice().len() as u64;
        let minimums = self.minimums.as_slice().len() as u64;
        let cells = self.cells.as_slice().len() as u64;
        1 + rates + initials + minimums + cells
    }

    /// Appends a row, ended by a line feed. Row 0 is `MEASURE M`. Then come `RATE i per_pulse per_tick` for each rate,
    /// `INITIAL i amount covers` for each initial hire fee, and `MINIMUM i amount` for each minimum fare, all numbered
    /// from 1. The last are the cells, numbered from 0: `CELL c r i`, with the numbers of the rate and the initial hire
    /// fee. If there are minimum fares, a cell is `CELL c r i m`, with the number of its minimum fare or 0. The form is
    /// this project's own.
    ///
    /// `LineFull` if the row doesn't fit; the line is then unchanged.
    pub fn put_row(&self, i: u64, line: &mut Line) -> Result<(), LineFull>
        requires { i < row_count self.now }
        ensures variant { IsOk result ↔ (array_vec_len line.old + length (row_text self.now i) ≤ line_size) }
        ensures ok { OnOk result (line.new.items ≡ line.old.items ++ row_text self.now i) }
        ensures err { OnErr result (line.new ≡ line.old) }
        // A row fits into an empty line.
        ensures short { (0 < length (row_text self.now i)) × (length (row_text self.now i) ≤ line_size) }
    {
        let mut row = Line::new();
        self.make_row(i, &mut row)?;
        put_bytes(line, row.as_slice())
    }

    /// Makes a row in an empty line.
    fn make_row(&self, i: u64, row: &mut Line) -> Result<(), LineFull>
        requires row { i < row_count self.now }
        requires empty { row.old.items ≡ [] }
        ensures variant { IsOk result ↔ (length (row_text self.now i) ≤ line_size) }
        ensures ok { OnOk result (row.new.items ≡ row_text self.now i) }
        ensures compiled { IsCompiled self.now }
    {
        if i < 1 {
            return measure_row(row, self.measure);
        }
        let rate = (i - 1) as usize;
        let weights = self.weights.as_slice();
        if rate < weights.len() {
            return rate_row(row, rate as u64 + 1, weights[rate]);
        }
        let initial = rate - weights.len();
        let initials = self.initials.as_slice();
        if initial < initials.len() {
            return initial_row(row, self.decimals, initial as u64 + 1, initials[initial]);
        }
        let minimum = initial - initials.len();
        let minimums = self.minimums.as_slice();
        if minimum < minimums.len() {
            return minimum_row(row, self.decimals, minimum as u64 + 1, minimums[minimum]);
        }
        let cell = minimum - minimums.len();
        cell_row(
            row,
            minimums.len() > 0,
            cell as u64,
            self.cells.as_slice()[cell],
        )
    }
}

/// The row of the measure.
fn measure_row(row: &mut Line, measure: u128) -> Result<(), LineFull>
    requires { row.old.items ≡ [] }
    ensures variant { IsOk result ↔ (length (measure_row measure) ≤ line_size) }
    ensures ok { OnOk result (row.new.items ≡ measure_row measure) }
{
    put_field(row, b"MEASURE ", measure)?;
    put_bytes(row, b"\n")
}

/// The row of a rate, by its number from 1.
fn rate_row(row: &mut Line, number: u64, weights: Weights) -> Result<(), LineFull>
    requires { row.old.items ≡ [] }
    ensures variant { IsOk result ↔ (length (rate_row number weights) ≤ line_size) }
    ensures ok { OnOk result (row.new.items ≡ rate_row number weights) }
{
    put_field(row, b"RATE ", number as u128)?;
    put_field(row, b" ", weights.per_pulse)?;
    put_field(row, b" ", weights.per_tick)?;
    put_bytes(row, b"\n")
}

/// The row of an initial hire fee, by its number from 1, with `decimals` decimals of money.
fn initial_row(
    row: &mut Line,
    decimals: u8,
    number: u64,
    fee: InitialNumbers,
) -> Result<(), LineFull>
    requires empty { row.old.items ≡ [] }
    requires decimals { decimals ≤ 3 }
    ensures variant { IsOk result ↔ (length (initial_row decimals number fee) ≤ line_size) }
    ensures ok { OnOk result (row.new.items ≡ initial_row decimals number fee) }
{
    put_field(row, b"INITIAL ", number as u128)?;
    put_amount(row, decimals, fee.amount)?;
    put_amount(row, decimals, fee.covers)?;
    put_bytes(row, b"\n")
}

/// The row of a minimum fare, by its number from 1, with `decimals` decimals of money.
fn minimum_row(row: &mut Line, decimals: u8, number: u64, amount: u64) -> Result<(), LineFull>
    requires empty { row.old.items ≡ [] }
    requires decimals { decimals ≤ 3 }
    ensures variant { IsOk result ↔ (length (minimum_row decimals number amount) ≤ line_size) }
    ensures ok { OnOk result (row.new.items ≡ minimum_row decimals number amount) }
{
    put_field(row, b"MINIMUM ", number as u128)?;
    put_amount(row, decimals, amount)?;
    put_bytes(row, b"\n")
}

/// The row of a cell, with the numbers of its lines from 1. Its minimum fare is there if the tariff has minimum fares.
fn cell_row(row: &mut Line, minimums: bool, cell: u64, lines: CellLines) -> Result<(), LineFull>
    requires { row.old.items ≡ [] }
    ensures variant { IsOk result ↔ (length (cell_row minimums cell lines) ≤ line_size) }
    ensures ok { OnOk result (row.new.items ≡ cell_row minimums cell lines) }
{
    put_field(row, b"CELL ", cell as u128)?;
    put_field(row, b" ", lines.rate as u128 + 1)?;
    put_field(row, b" ", lines.initial as u128 + 1)?;
    put_minimum(row, minimums, lines.minimum)
}

/// Ends the row of a cell, with the number of its minimum fare if there are minimum fares.
fn put_minimum(row: &mut Line, minimums: bool, number: u8) -> Result<(), LineFull>
    ensures variant { IsOk result ↔ (array_vec_len row.old + length (minimum_field minimums number) ≤ line_size) }
    ensures ok { OnOk result (row.new.items ≡ row.old.items ++ minimum_field minimums number) }
{
    if minimums {
        put_field(row, b" ", number as u128)?;
    }
    put_bytes(row, b"\n")
}

/// Appends a word and a number.
fn put_field(row: &mut Line, word: &[u8], number: u128) -> Result<(), LineFull>
    ensures variant { IsOk result ↔ (array_vec_len row.old + length word.now + length (decimal number) ≤ line_size) }
    ensures ok { OnOk result (row.new.items ≡ row.old.items ++ (word.now ++ decimal number)) }
{
    put_bytes(row, word)?;
    put_number(row, number)
}

/// Appends a blank and an amount of money.
fn put_amount(row: &mut Line, decimals: u8, amount: u64) -> Result<(), LineFull>
    requires { decimals ≤ 3 }
    ensures variant { IsOk result ↔ (array_vec_len row.old + 1 + length (money_text decimals amount) ≤ line_size) }
    ensures ok { OnOk result (row.new.items ≡ row.old.items ++ (codes " " ++ money_text decimals amount)) }
{
    put_bytes(row, b" ")?;
    put_money(row, amount as u128, decimals)
}
