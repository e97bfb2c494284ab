//! Reads texts of readings.
ghost use Rattle.std.specs.Prelude.{[], ℕ, ◌++◌, ◌↔◌, ◌∷◌, ◌≡◌, ◌≢◌, Err, IfErr, IfOk, List, Ok, OnOk, Result, true};
ghost use Rattle.{csv.specs.Records.{fields_of}, verify_bench.specs.Readings.{IsReadAs, Row, readings_in}};
ghost use Rattle.verify_bench.specs.{Common.{Reading, ReadingsFault}, RowsTaken.{HaveGiven, IsRowFault}};

use crate::reading::{Reading, ReadingsFault};
use crate::row::{is_header, reading_of};
use csv::{ByteRecord, ReaderBuilder};
use std::alloc::Global;

/// A text of readings has at most 1,048,576 bytes.
const LONGEST: usize = 1_048_576;

/// Reads a text of readings, as rows of `csv`. The first is the header `fare,distance,time`, and each other one a
/// reading: a fare with the tariff's decimals, a distance in metres with three, and a time in seconds with one.
///
/// `TooLong`: the text has more than 1,048,576 bytes. `BadRow`: with the number of the first row, counted from 1 as
/// `csv` gives them, that is neither the header nor a reading in its place; 1 for a text without rows. `NoMemory`:
/// memory ran out, of a text within the limit that has a byte. The form is this project's own.
pub fn read_readings(
    alloc: Global,
    text: &[u8],
    decimals: u8,
) -> Result<Vec<Reading>, ReadingsFault>
    ensures ok { IfOk result (λ readings. IsReadAs decimals text.now (Ok readings.items)) }
    ensures err { IfErr result (λ fault. IsReadAs decimals text.now (Err fault)) }
{
    if text.len() > LONGEST {
        return Err(ReadingsFault::TooLong);
    }
    if text.is_empty() {
        return Err(ReadingsFault::BadRow(1));
    }
    let reader = ReaderBuilder::new()
        .has_headers(false)
        .flexible(true)
        .from_reader(alloc, text);
    let mut headed = false;
    let mut readings = Vec::new(alloc);
    for row in reader.into_byte_records() {
        let Ok(row) = row else {
            return Err(ReadingsFault::NoMemory);
        };
        take_row(&row, decimals, headed, &mut readings)?;
        headed = true;
    }
    if headed {
        Ok(readings)
    } else {
        Err(ReadingsFault::BadRow(1))
    }
}

/// Takes a row behind those that gave these readings: the header, if none was taken yet, and else a reading. `NoMemory`
/// only if the row says one.
fn take_row(
    row: &ByteRecord,
    decimals: u8,
    headed: bool,
    readings: &mut Vec<Reading>,
) -> Result<(), ReadingsFault>
    ensures ok { OnOk result ((rows : List Row) → HaveGiven decimals rows headed readings.old.items
        → HaveGiven decimals (rows ++ fields_of row.now ∷ []) true readings.new.items) }
    ensures err { IfErr result (λ fault. (rows : List Row) → HaveGiven decimals rows headed readings.old.items
        → IsRowFault decimals rows (fields_of row.now) fault) }
{
    if !headed {
        if is_header(row) {
            return Ok(());
        }
        return Err(ReadingsFault::BadRow(1));
    }
    let Some(reading) = reading_of(row, decimals) else {
        return Err(ReadingsFault::BadRow(readings.len() as u64 + 2));
    };
    readings.push(reading).map_err(|_| ReadingsFault::NoMemory)
}

/// A law: a text of readings has one answer, which is a function of the text and the tariff's decimals. The relation in
/// the clauses of `read_readings` is the graph of that function, except for `NoMemory`.
pub fn texts_have_one_reading()
    ensures { (decimals : ℕ) (text : List ℕ) (answer : Result (List Reading) ReadingsFault)
        → answer ≢ Err ReadingsFault.NoMemory
        → (readings_in decimals text ≡ answer) ↔ IsReadAs decimals text answer }
{}
