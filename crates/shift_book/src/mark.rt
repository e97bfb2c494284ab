//! Marks: what a driver signs on and off by.
ghost use Rattle.std.specs.Prelude.{◌++◌, ◌+◌, ◌<◌, ◌↔◌, ◌≡◌, ◌≤◌, IsOk, OnErr, OnOk, length};
ghost use Rattle.{arrayvec.specs.ArrayVec.{array_vec_len}, shift_book.specs.MarkOrder.{Fit}};
ghost use Rattle.shift_book.specs.{Common.{line_size}, Marks.{HasDriver, IsMarkLine, head_text, mark_text}};

use crate::numbers::{Numbers, numbers_of, push_numbers};
use arrayvec::ArrayVec;
use std::marker::Model;
use taxi_units::{Line, LineFull, push_bytes, put_bytes};

/// A mark of the store: who signs on, or that whoever was on signs off, and the number and totals of the store at that
/// moment. Distances are in millimetres, money in the tariff's smallest units.
#[derive(Drop)]
pub struct Mark {
    /// The driver: 1 to 16 characters of A to Z, 0 to 9 and `-`; none if the mark signs off.
    pub driver: ArrayVec<u8, 16>,
    /// Whether it signs on.
    pub on: bool,
    pub number: u64,
    pub distance_mm: u128,
    pub hired_mm: u128,
    pub hirings: u64,
    pub supplements: u128,
    pub fare: u128,
}

impl Model for Mark {
    ghost use Rattle.shift_book.specs.Marks.{Signing, numbers_of};

    ghost Value = { Signing };

    ghost view = { λ m. record {
      driver = m.driver.items;
      on = m.on;
      numbers = numbers_of m.number m.distance_mm m.hired_mm m.hirings m.supplements m.fare;
    } };
}

impl Mark {
    /// A mark of a driver, or of nobody, with these numbers.
    pub(crate) fn with(driver: ArrayVec<u8, 16>, on: bool, numbers: &Numbers) -> Mark
        ensures { result ≡ record { driver = driver.items; on = on; numbers = numbers.now } }
    {
        Mark {
            driver,
            on,
            number: numbers.number,
            distance_mm: numbers.distance_mm,
            hired_mm: numbers.hired_mm,
            hirings: numbers.hirings,
            supplements: numbers.supplements,
            fare: numbers.fare,
        }
    }

    /// Its numbers.
    pub(crate) fn numbers(&self) -> Numbers
        ensures numbers { result ≡ self.now.numbers }
        ensures fit { Fit result }
    {
        numbers_of(
            self.number,
            self.distance_mm,
            self.hired_mm,
            self.hirings,
            self.supplements,
            self.fare,
        )
    }
}

/// Appends the line of a mark: `ON`, the driver and the six numbers, or `OFF` and the six numbers, with one blank
/// between them and LF at the end. The driver of a mark that signs off isn't written.
///
/// `LineFull` if it doesn't fit; the line is then unchanged. It has at most 222 bytes, so it fits an empty line. The
/// form is this project's own.
#[tactic(auto, using(crate::proofs::Lines::said))]
pub fn put_mark(line: &mut Line, mark: &Mark) -> Result<(), LineFull>
    ensures variant { IsOk result ↔ (array_vec_len line.old + length (mark_text mark.now) ≤ line_size) }
    ensures ok { OnOk result (line.new.items ≡ line.old.items ++ mark_text mark.now) }
    ensures err { OnErr result (line.new ≡ line.old) }
    ensures some { 0 < length (mark_text mark.now) }
    ensures short { length (mark_text mark.now) ≤ 222 }
    ensures says { HasDriver mark.now.on mark.now.driver → IsMarkLine (mark_text mark.now) mark.now }
{
    put_bytes(line, spelled(mark).as_slice())
}

/// The line of a mark.
pub(crate) fn spelled(mark: &Mark) -> Line
    ensures text { result.items ≡ mark_text mark.now }
    ensures some { 0 < array_vec_len result }
    ensures short { array_vec_len result ≤ 222 }
    ensures fit { Fit mark.now.numbers }
{
    let mut line = Line::new();
    push_head(&mut line, mark);
    push_numbers(&mut line, &mark.numbers());
    line
}

/// Appends whether the mark signs on, and who does.
fn push_head(line: &mut Line, mark: &Mark)
    requires { array_vec_len line.old ≡ 0 }
    ensures text { line.new.items ≡ line.old.items ++ head_text mark.now.on mark.now.driver }
    ensures some { 0 < array_vec_len line.new }
    ensures most { array_vec_len line.new ≤ 19 }
{
    if mark.on {
        push_bytes(line, b"ON ");
        push_bytes(line, mark.driver.as_slice());
    } else {
        push_bytes(line, b"OFF");
    }
}
