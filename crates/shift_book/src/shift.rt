//! Shifts, and the growth between the points of a book.
ghost use Rattle.std.specs.Prelude.{◌++◌, ◌≡◌, IfOk, OnOk};
ghost use Rattle.shift_book.specs.{MarkOrder.{Fit, IsNowhereLess}, ShareStages.{Rise}, Shares.{unsigned_in}};
ghost use Rattle.shift_book.specs.Shares.{begun_by, free_behind, grown, growth_in, next_point, plus, shifts_in};

use crate::mark::Mark;
use crate::numbers::Numbers;
use arrayvec::ArrayVec;
use std::alloc::Global;
use taxi_units::NoMemory;

/// A shift: its driver, and what grew in it.
#[derive(Drop)]
pub(crate) struct Shift {
    pub driver: ArrayVec<u8, 16>,
    pub growth: Numbers,
}

/// The shifts of a book, in order. `now` has the numbers of the store.
pub(crate) fn shifts_of(
    alloc: Global,
    marks: &[Mark],
    now: &Numbers,
) -> Result<Vec<Shift>, NoMemory>
    requires { Rise now.now marks.now }
    ensures { IfOk result (λ shifts. shifts.items ≡ shifts_in now.now marks.now) }
{
    let mut shifts = Vec::new(alloc);
    let mut left = marks;
    while let Some((mark, rest)) = left.split_first() {
        push_shift(&mut shifts, mark, &point_behind(now, rest))?;
        left = rest;
    }
    Ok(shifts)
}

/// Appends the shift that a mark begins, if it signs on.
fn push_shift(shifts: &mut Vec<Shift>, mark: &Mark, next: &Numbers) -> Result<(), NoMemory>
    requires { IsNowhereLess mark.now.numbers next.now }
    ensures { OnOk result (shifts.new.items ≡ shifts.old.items ++ begun_by mark.now next.now) }
{
    if !mark.on {
        return Ok(());
    }
    let mut driver = ArrayVec::new();
    driver
        .try_extend_from_slice(mark.driver.as_slice())
        .unwrap();
    let growth = grown(&mark.numbers(), next);
    shifts.push(Shift { driver, growth }).map_err(|_| NoMemory)
}

/// What grew while nobody was on.
pub(crate) fn unsigned_of(marks: &[Mark], now: &Numbers) -> Numbers
    requires rise { Rise now.now marks.now }
    requires fit { Fit (unsigned_in now.now marks.now) }
    ensures { result ≡ unsigned_in now.now marks.now }
{
    let mut unsigned = NOTHING;
    let mut left = marks;
    while let Some((mark, rest)) = left.split_first() {
        unsigned = plus(&unsigned, &free_behind(mark, &point_behind(now, rest)));
        left = rest;
    }
    unsigned
}

/// What grew behind a mark, if nobody is on there.
fn free_behind(mark: &Mark, next: &Numbers) -> Numbers
    requires { IsNowhereLess mark.now.numbers next.now }
    ensures { result ≡ free_behind mark.now next.now }
{
    if mark.on {
        NOTHING
    } else {
        grown(&mark.numbers(), next)
    }
}

/// What grew from the first point of a book to the last.
pub(crate) fn growth_of(marks: &[Mark], now: &Numbers) -> Numbers
    requires { IsNowhereLess (next_point now.now marks.now) now.now }
    ensures { result ≡ growth_in now.now marks.now }
{
    match marks.split_first() {
        Some((mark, _)) => grown(&mark.numbers(), now),
        None => NOTHING,
    }
}

/// The first point of these marks, or the store as it is.
fn point_behind(now: &Numbers, marks: &[Mark]) -> Numbers
    ensures { result ≡ next_point now.now marks.now }
{
    match marks.split_first() {
        Some((mark, _)) => mark.numbers(),
        None => *now,
    }
}

/// No growth.
pub(crate) const NOTHING: Numbers = Numbers {
    number: 0,
    distance_mm: 0,
    hired_mm: 0,
    hirings: 0,
    supplements: 0,
    fare: 0,
};

/// The growth from one point to a later one.
fn grown(before: &Numbers, after: &Numbers) -> Numbers
    requires { IsNowhereLess before.now after.now }
    ensures { result ≡ grown before.now after.now }
{
    Numbers {
        number: after.number - before.number,
        distance_mm: after.distance_mm - before.distance_mm,
        hired_mm: after.hired_mm - before.hired_mm,
        hirings: after.hirings - before.hirings,
        supplements: after.supplements - before.supplements,
        fare: after.fare - before.fare,
    }
}

/// Two growths together.
pub(crate) fn plus(a: &Numbers, b: &Numbers) -> Numbers
    requires { Fit (plus a.now b.now) }
    ensures { result ≡ plus a.now b.now }
{
    Numbers {
        number: a.number + b.number,
        distance_mm: a.distance_mm + b.distance_mm,
        hired_mm: a.hired_mm + b.hired_mm,
        hirings: a.hirings + b.hirings,
        supplements: a.supplements + b.supplements,
        fare: a.fare + b.fare,
    }
}
