//! The sums of the drivers over their shifts.
ghost use Rattle.std.specs.{BTreeMap.{insert_entry, is_at}, Prelude.{[], ◌≡◌, IfOk, OnOk, Some, if◌then◌else◌}};
ghost use Rattle.{std.specs.Map.{lookup}, shift_book.specs.ShareStages.{sum_so_far, total_of, with_shifts}};
ghost use Rattle.shift_book.specs.{MarkOrder.{Fit}, Shares.{AreOrdered, AreSums, Driver, driver_cmp, is_of, plus}};

use crate::numbers::Numbers;
use crate::shift::{NOTHING, Shift, plus};
use arrayvec::ArrayVec;
use std::alloc::Global;
use std::collections::BTreeMap;
use taxi_units::NoMemory;

/// The sums of drivers, in the order of their bytes.
pub(crate) type Sums = BTreeMap<ArrayVec<u8, 16>, Numbers>;

/// The drivers who have a shift, each with the sum over that driver's shifts.
pub(crate) fn sums_of(alloc: Global, shifts: &[Shift]) -> Result<Sums, NoMemory>
    requires { Fit (total_of shifts.now) }
    ensures sums { IfOk result (λ sums. AreSums sums.entries shifts.now) }
    ensures ordered { IfOk result (λ sums. AreOrdered sums.entries) }
    ensures entries { IfOk result (λ sums. sums.entries ≡ with_shifts [] shifts.now) }
{
    let mut sums = BTreeMap::new(alloc);
    let mut left = shifts;
    while let Some((shift, rest)) = left.split_first() {
        add_shift(&mut sums, shift)?;
        left = rest;
    }
    Ok(sums)
}

/// Adds a shift to its driver's sum.
fn add_shift(sums: &mut Sums, shift: &Shift) -> Result<(), NoMemory>
    requires { Fit (plus (sum_so_far shift.now.driver sums.old.entries) shift.now.growth) }
    ensures entries { OnOk result (sums.new.entries ≡ insert_entry driver_cmp sums.old.entries shift.now.driver
        (plus (sum_so_far shift.now.driver sums.old.entries) shift.now.growth)) }
    ensures found { OnOk result ((driver : Driver) → lookup (is_at (driver_cmp driver)) sums.new.entries
        ≡ (if is_of driver shift.now
        then Some (plus (sum_so_far shift.now.driver sums.old.entries) shift.now.growth)
        else lookup (is_at (driver_cmp driver)) sums.old.entries)) }
    ensures ordered { OnOk result (AreOrdered sums.new.entries) }
{
    let driver = copied(&shift.driver);
    let sum = plus(&sum_so_far(sums, &driver), &shift.growth);
    sums.insert(driver, sum).map_err(|_| NoMemory)?;
    Ok(())
}

/// A copy of a driver.
fn copied(driver: &ArrayVec<u8, 16>) -> ArrayVec<u8, 16>
    ensures { result ≡ driver.now }
{
    let mut copy = ArrayVec::new();
    copy.try_extend_from_slice(driver.as_slice()).unwrap();
    copy
}

/// The sum that a driver has, or nothing if there is none yet.
fn sum_so_far(sums: &Sums, driver: &ArrayVec<u8, 16>) -> Numbers
    ensures { result ≡ sum_so_far driver.now sums.now.entries }
{
    match sums.get(driver) {
        Some(sum) => *sum,
        None => NOTHING,
    }
}
