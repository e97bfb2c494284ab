//! The report of a book.
ghost use Rattle.std.specs.Prelude.{◌*◌, ◌++◌, ◌+◌, ◌≡◌, ◌≤◌, IfOk, None, OnOk, length, vec_len};
ghost use Rattle.{arrayvec.specs.ArrayVec.{array_vec_len}, shift_book.specs.Report.{shift_line, shift_lines}};
ghost use Rattle.shift_book.specs.{Common.{line_size}, MarkOrder.{FollowOn, numbers_in}};
ghost use Rattle.shift_book.specs.Report.{IsReport, amount_text, driver_line, driver_lines, growth_text, report_text};

use crate::mark::Mark;
use crate::numbers::{Numbers, numbers_in, push_field};
use crate::shift::{Shift, growth_of, shifts_of, unsigned_of};
use crate::sums::{Sums, sums_of};
use arrayvec::ArrayVec;
use std::alloc::Global;
use taxi_units::{Line, NoMemory, push_bytes, push_money, push_number};
use totals_record::Durable;

/// The report of a book beside the state of the store for which it was read: a line for each shift, one for each driver
/// in byte order, the growth while nobody was on, and all growth. Each has the hirings, the distance and the distance
/// when hired in metres with three decimals, the fare and the supplements with the store's decimals. A shift that is
/// still on runs to the store as it is.
///
/// It has at most 1,024 bytes for each mark, and 1,024 more. `NoMemory` if memory runs out. The form is this project's
/// own.
pub fn shifts(
    alloc: Global,
    marks: &[Mark],
    now: &Durable,
    decimals: u8,
) -> Result<Vec<u8>, NoMemory>
    requires book { FollowOn now.now None marks.now }
    requires decimals { decimals ≤ 3 }
    ensures text { IfOk result (λ report. report.items ≡ report_text decimals (numbers_in now.now) marks.now) }
    ensures short { IfOk result (λ report. vec_len report ≤ 1024 * (length marks.now + 1)) }
    ensures meaning { IfOk result (λ report. IsReport decimals (numbers_in now.now) marks.now report.items) }
{
    let now = numbers_in(now);
    let unsigned = unsigned_of(marks, &now);
    let shifts = shifts_of(alloc, marks, &now)?;
    let sums = sums_of(alloc, shifts.as_slice())?;
    let growth = growth_of(marks, &now);
    let mut report = Vec::new(alloc);
    push_shifts(&mut report, shifts.as_slice(), decimals)?;
    push_drivers(&mut report, sums, decimals)?;
    push_line(&mut report, b"UNSIGNED", &unsigned, decimals)?;
    push_line(&mut report, b"GROWTH", &growth, decimals)?;
    Ok(report)
}

/// Appends the lines of the shifts, numbered from 1.
fn push_shifts(report: &mut Vec<u8>, shifts: &[Shift], decimals: u8) -> Result<(), NoMemory>
    requires { decimals ≤ 3 }
    ensures text { OnOk result (report.new.items ≡ report.old.items ++ shift_lines decimals 1 shifts.now) }
    ensures most { OnOk result (vec_len report.new ≤ vec_len report.old + line_size * length shifts.now) }
{
    let total = shifts.len();
    let mut count = 0usize;
    let mut left = shifts;
    while let Some((shift, rest)) = left.split_first() {
        push_shift_line(report, (count + 1) as u64, shift, decimals)?;
        count += 1;
        left = rest;
    }
    Ok(())
}

/// Appends the line of a shift.
fn push_shift_line(
    report: &mut Vec<u8>,
    number: u64,
    shift: &Shift,
    decimals: u8,
) -> Result<(), NoMemory>
    requires { decimals ≤ 3 }
    ensures text { OnOk result (report.new.items ≡ report.old.items ++ shift_line decimals number shift.now) }
    ensures most { OnOk result (vec_len report.new ≤ vec_len report.old + line_size) }
{
    let mut head = Line::new();
    push_bytes(&mut head, b"SHIFT ");
    push_number(&mut head, u128::from(number));
    push_bytes(&mut head, b" ");
    push_bytes(&mut head, shift.driver.as_slice());
    push_line(report, head.as_slice(), &shift.growth, decimals)
}

/// Appends the lines of the drivers, in the order of their bytes.
fn push_drivers(report: &mut Vec<u8>, sums: Sums, decimals: u8) -> Result<(), NoMemory>
    requires { decimals ≤ 3 }
    ensures text { OnOk result (report.new.items ≡ report.old.items ++ driver_lines decimals sums.entries) }
    ensures most { OnOk result (vec_len report.new ≤ vec_len report.old + line_size * length sums.entries) }
{
    let mut left = sums;
    while let Some((driver, sum)) = left.pop_first() {
        push_driver_line(report, &driver, &sum, decimals)?;
    }
    Ok(())
}

/// Appends the line of a driver.
fn push_driver_line(
    report: &mut Vec<u8>,
    driver: &ArrayVec<u8, 16>,
    sum: &Numbers,
    decimals: u8,
) -> Result<(), NoMemory>
    requires { decimals ≤ 3 }
    ensures text { OnOk result (report.new.items ≡ report.old.items ++ driver_line decimals (driver.now, sum.now)) }
    ensures most { OnOk result (vec_len report.new ≤ vec_len report.old + line_size) }
{
    let mut head = Line::new();
    push_bytes(&mut head, b"DRIVER ");
    push_bytes(&mut head, driver.as_slice());
    push_line(report, head.as_slice(), sum, decimals)
}

/// Appends a line that has growth behind its head.
fn push_line(
    report: &mut Vec<u8>,
    head: &[u8],
    growth: &Numbers,
    decimals: u8,
) -> Result<(), NoMemory>
    requires head { length head.now ≤ 100 }
    requires decimals { decimals ≤ 3 }
    ensures text { OnOk result (report.new.items ≡ report.old.items ++ (head.now ++ growth_text decimals growth.now)) }
    ensures most { OnOk result (vec_len report.new ≤ vec_len report.old + line_size) }
{
    let mut line = Line::new();
    push_bytes(&mut line, head);
    push_growth(&mut line, growth, decimals);
    report
        .extend_from_slice(line.as_slice())
        .map_err(|_| NoMemory)
}

/// Appends growth, and the end of the line.
fn push_growth(line: &mut Line, growth: &Numbers, decimals: u8)
    requires room { array_vec_len line.old + 206 ≤ line_size }
    requires decimals { decimals ≤ 3 }
    ensures { line.new.items ≡ line.old.items ++ growth_text decimals growth.now }
{
    push_field(line, growth.hirings as u128);
    push_amount(line, growth.distance_mm, 3);
    push_amount(line, growth.hired_mm, 3);
    push_amount(line, growth.fare, decimals);
    push_amount(line, growth.supplements, decimals);
    push_bytes(line, b"\n");
}

/// Appends an amount behind a blank.
fn push_amount(line: &mut Line, units: u128, decimals: u8)
    requires room { array_vec_len line.old + 41 ≤ line_size }
    requires decimals { decimals ≤ 3 }
    ensures text { line.new.items ≡ line.old.items ++ amount_text decimals units }
    ensures most { array_vec_len line.new ≤ array_vec_len line.old + 41 }
{
    push_bytes(line, b" ");
    push_money(line, units, decimals);
}
