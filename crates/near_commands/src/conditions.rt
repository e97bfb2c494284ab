//! Copies of conditions.
ghost use Rattle.std.specs.Prelude.{◌≡◌, IfOk};
ghost use Rattle.tariff_tree.specs.Condition.{condition_if, condition_of};
ghost use Rattle.tariff_tree.specs.Condition as tree;

use std::alloc::Global;
use tariff_tree::Cond;
use taxi_units::NoMemory;

/// A condition like another one.
fn copy_of(alloc: Global, cond: &Cond) -> Result<Cond, NoMemory>
    ensures { IfOk result (λ copy. condition_of copy ≡ condition_of cond.now) }
{
    match cond {
        Cond::And(left, right) => {
            let left = copy_of(alloc, left)?;
            let right = copy_of(alloc, right)?;
            both(alloc, left, right)
        }
        Cond::Or(left, right) => {
            let left = copy_of(alloc, left)?;
            let right = copy_of(alloc, right)?;
            either(alloc, left, right)
        }
        Cond::Not(inner) => {
            let inner = copy_of(alloc, inner)?;
            not(alloc, inner)
        }
        Cond::Position(number) => Ok(Cond::Position(*number)),
        Cond::Zone(number) => Ok(Cond::Zone(*number)),
        Cond::Time { from, to } => Ok(Cond::Time {
            from: *from,
            to: *to,
        }),
        Cond::Day { from, to } => Ok(Cond::Day {
            from: *from,
            to: *to,
        }),
        Cond::Date { from, to } => Ok(Cond::Date {
            from: *from,
            to: *to,
        }),
        Cond::Holiday => Ok(Cond::Holiday),
        Cond::AfterDistance(decimetres) => Ok(Cond::AfterDistance(*decimetres)),
        Cond::AfterTime(tenths) => Ok(Cond::AfterTime(*tenths)),
    }
}

/// That both conditions hold.
fn both(alloc: Global, left: Cond, right: Cond) -> Result<Cond, NoMemory>
    ensures { IfOk result (λ joined. condition_of joined ≡ tree.and (condition_of left) (condition_of right)) }
{
    let left = Box::new(alloc, left).map_err(|_| NoMemory)?;
    let right = Box::new(alloc, right).map_err(|_| NoMemory)?;
    Ok(Cond::And(left, right))
}

/// That one of two conditions holds, or both.
fn either(alloc: Global, left: Cond, right: Cond) -> Result<Cond, NoMemory>
    ensures { IfOk result (λ joined. condition_of joined ≡ tree.or (condition_of left) (condition_of right)) }
{
    let left = Box::new(alloc, left).map_err(|_| NoMemory)?;
    let right = Box::new(alloc, right).map_err(|_| NoMemory)?;
    Ok(Cond::Or(left, right))
}

/// That a condition doesn't hold.
fn not(alloc: Global, inner: Cond) -> Result<Cond, NoMemory>
    ensures { IfOk result (λ turned. condition_of turned ≡ tree.not (condition_of inner)) }
{
    let inner = Box::new(alloc, inner).map_err(|_| NoMemory)?;
    Ok(Cond::Not(inner))
}

/// The condition of a line, if it has one, like another one.
pub(crate) fn copy_if(alloc: Global, cond: &Option<Cond>) -> Result<Option<Cond>, NoMemory>
    ensures { IfOk result (λ copy. condition_if copy ≡ condition_if cond.now) }
{
    match cond {
        Some(cond) => {
            let copy = copy_of(alloc, cond)?;
            Ok(Some(copy))
        }
        None => Ok(None),
    }
}
