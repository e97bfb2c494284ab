//! Writes the report.
ghost use Rattle.{std.specs.{Fmt.{decimal}, Prelude.{slice_get}}, csv.specs.Writing.{default_writer, row_text}};
ghost use Rattle.std.specs.Prelude.{[], ℕ, ◌++◌, ◌+◌, ◌∷◌, ◌≡◌, ◌≤◌, IfOk, List, OnOk, Some, map, option_map};
ghost use Rattle.{csv.specs.Records.{fields_of}, taxi_units.specs.Number.{money_text}};
ghost use Rattle.verify_bench.specs.{CsvWriter.{HasRows, IsRow}, Report.{report_text, row_at}};
ghost use Rattle.verify_bench.specs.Report.{amount_or_none, finding, kind_or_none, kind_word, report_header};

use crate::expected::Expected;
use crate::judging::{Verdict, judge};
use crate::reading::Reading;
use csv::{ByteRecord, Writer, WriterBuilder};
use std::alloc::Global;
use taxi_units::{Kind, Line, NoMemory, push_money, push_number};

/// The fields of the header.
const HEADER: [&[u8]; 9] = [
    b"hiring",
    b"kind",
    b"fare",
    b"read_fare",
    b"distance",
    b"read_distance",
    b"time",
    b"read_time",
    b"verdict",
];

/// Writes the report: a row of `csv` for each place of the two lists, under a header. Fares have the tariff's decimals,
/// distances in metres three, times in seconds one. Without a reading the row's three fields of it are empty and the
/// verdict is `MISSING`; without an expected receipt its four fields are empty and the verdict is `EXTRA`. A fare
/// passes if it is off by at most a display step of `step` smallest units; the other permissible errors are those of
/// `judge`.
///
/// `NoMemory`: only if memory ran out. The tariff's decimals are 0 to 3. The form is this project's own.
pub fn report(
    alloc: Global,
    expected: &[Expected],
    readings: &[Reading],
    step: u64,
    decimals: u8,
) -> Result<Vec<u8>, NoMemory>
    requires { decimals ≤ 3 }
    ensures { IfOk result (λ text. text.items ≡ report_text step decimals expected.now readings.now) }
{
    let mut writer = WriterBuilder::new().from_writer(Vec::new(alloc));
    put_row(&mut writer, &header(alloc)?)?;
    for place in 0..expected.len().max(readings.len()) {
        let expected = at(expected, place);
        let reading = at(readings, place);
        let row = row_of(alloc, place, expected, reading, step, decimals)?;
        put_row(&mut writer, &row)?;
    }
    writer.into_inner().map_err(|_| NoMemory)
}

/// The element at a place, if there is one.
pub(crate) fn at<T: Copy>(list: &[T], place: usize) -> Option<T>
    ensures { result ≡ slice_get list.now place }
{
    list.get(place).copied()
}

/// Writes a row.
fn put_row(writer: &mut Writer<Vec<u8>>, row: &ByteRecord) -> Result<(), NoMemory>
    ensures { OnOk result ((text : List ℕ) → HasRows (λ v. Some v.items) writer.old text
        → HasRows (λ v. Some v.items) writer.new (text ++ row_text default_writer (fields_of row.now))) }
{
    writer.write_byte_record(row).map_err(|_| NoMemory)
}

/// A row without fields.
fn begin_row(alloc: Global) -> ByteRecord
    ensures { IsRow result [] }
{
    ByteRecord::new(alloc)
}

/// Adds a field.
fn put_field(row: &mut ByteRecord, field: &[u8]) -> Result<(), NoMemory>
    ensures { OnOk result ((fields : List (List ℕ)) → IsRow row.old fields → IsRow row.new (fields ++ field.now ∷ [])) }
{
    row.push_field(field).map_err(|_| NoMemory)
}

/// The row of these fields.
fn row_with(alloc: Global, fields: &[&[u8]]) -> Result<ByteRecord, NoMemory>
    ensures { IfOk result (λ row. IsRow row (map (λ field. field.now) fields.now)) }
{
    let mut row = begin_row(alloc);
    for field in fields {
        put_field(&mut row, field)?;
    }
    Ok(row)
}

/// The header.
fn header(alloc: Global) -> Result<ByteRecord, NoMemory>
    ensures { IfOk result (λ row. IsRow row report_header) }
{
    row_with(alloc, &HEADER)
}

/// The row of a place, from 0 on.
fn row_of(
    alloc: Global,
    place: usize,
    expected: Option<Expected>,
    reading: Option<Reading>,
    step: u64,
    decimals: u8,
) -> Result<ByteRecord, NoMemory>
    requires { decimals ≤ 3 }
    ensures { IfOk result (λ row. IsRow row (row_at step decimals (place + 1) expected reading)) }
{
    let wanted = texts_expected(expected, decimals);
    let read = texts_read(reading, decimals);
    let mut row = begin_row(alloc);
    put_field(&mut row, number(place as u128 + 1).as_slice())?;
    put_field(&mut row, wanted.kind)?;
    put_field(&mut row, wanted.fare.as_slice())?;
    put_field(&mut row, read.fare.as_slice())?;
    put_field(&mut row, wanted.distance.as_slice())?;
    put_field(&mut row, read.distance.as_slice())?;
    put_field(&mut row, wanted.time.as_slice())?;
    put_field(&mut row, read.time.as_slice())?;
    put_field(&mut row, word_of(expected, reading, step))?;
    Ok(row)
}

/// The fields of what is expected.
#[derive(Drop)]
struct Wanted {
    kind: &'static [u8],
    fare: Line,
    distance: Line,
    time: Line,
}

/// The fields of what was read.
#[derive(Drop)]
struct Read {
    fare: Line,
    distance: Line,
    time: Line,
}

/// The fields of what is expected, which are empty if nothing is.
fn texts_expected(expected: Option<Expected>, decimals: u8) -> Wanted
    requires { decimals ≤ 3 }
    ensures kind { result.kind.now ≡ kind_or_none expected }
    ensures fare { result.fare.items ≡ amount_or_none decimals (option_map (λ e. e.fare) expected) }
    ensures distance { result.distance.items ≡ amount_or_none 3 (option_map (λ e. e.hired_mm) expected) }
    ensures time { result.time.items ≡ amount_or_none 1 (option_map (λ e. e.ticks) expected) }
{
    match expected {
        None => Wanted {
            kind: b"",
            fare: Line::new(),
            distance: Line::new(),
            time: Line::new(),
        },
        Some(expected) => Wanted {
            kind: word_of_kind(expected.kind),
            fare: amount(expected.fare as u128, decimals),
            distance: amount(expected.hired_mm, 3),
            time: amount(expected.ticks as u128, 1),
        },
    }
}

/// The fields of what was read, which are empty if nothing was.
fn texts_read(reading: Option<Reading>, decimals: u8) -> Read
    requires { decimals ≤ 3 }
    ensures fare { result.fare.items ≡ amount_or_none decimals (option_map (λ r. r.fare) reading) }
    ensures distance { result.distance.items ≡ amount_or_none 3 (option_map (λ r. r.distance_mm) reading) }
    ensures time { result.time.items ≡ amount_or_none 1 (option_map (λ r. r.tenths) reading) }
{
    match reading {
        None => Read {
            fare: Line::new(),
            distance: Line::new(),
            time: Line::new(),
        },
        Some(reading) => Read {
            fare: amount(reading.fare as u128, decimals),
            distance: amount(reading.distance_mm as u128, 3),
            time: amount(reading.tenths as u128, 1),
        },
    }
}

/// The text of a number.
fn number(value: u128) -> Line
    ensures { result.items ≡ decimal value }
{
    let mut line = Line::new();
    push_number(&mut line, value);
    line
}

/// The text of an amount.
fn amount(units: u128, decimals: u8) -> Line
    requires { decimals ≤ 3 }
    ensures { result.items ≡ money_text decimals units }
{
    let mut line = Line::new();
    push_money(&mut line, units, decimals);
    line
}

/// The word of how a hiring ended.
fn word_of_kind(kind: Kind) -> &'static [u8]
    ensures { result.now ≡ kind_word kind }
{
    match kind {
        Kind::Closed => b"CLOSED",
        Kind::Aborted => b"ABORTED",
        Kind::Expired => b"EXPIRED",
        Kind::Roam => b"",
    }
}

/// The word of what is found at a place.
fn word_of(expected: Option<Expected>, reading: Option<Reading>, step: u64) -> &'static [u8]
    ensures { result.now ≡ finding step expected reading }
{
    match (expected, reading) {
        (None, None) => b"",
        (None, Some(_)) => b"EXTRA",
        (Some(_), None) => b"MISSING",
        (Some(expected), Some(reading)) => match judge(&expected, &reading, step) {
            Verdict::Pass => b"PASS",
            Verdict::Fare => b"FARE",
            Verdict::Distance => b"DISTANCE",
            Verdict::Time => b"TIME",
        },
    }
}
