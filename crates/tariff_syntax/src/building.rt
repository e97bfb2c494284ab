//! Builds a condition of its parts, any of which may be missing if memory ran out.
ghost use Rattle.tariff_syntax.specs.{Built.{IsBuilt}, Common.{Condition}};
ghost use Rattle.tariff_tree.specs.Condition as tree;

use std::alloc::Global;
use tariff_tree::Cond;
use taxi_units::NoMemory;

/// A condition, or `NoMemory` if memory ran out for it or for one of its parts.
pub type Built = Result<Cond, NoMemory>;

/// That both hold. `NoMemory` if one is missing, or memory runs out.
pub fn and(alloc: Global, left: Built, right: Built) -> Built
    ensures { (a b : Condition) → IsBuilt left a → IsBuilt right b → IsBuilt result (tree.and a b) }
{
    let left = Box::new(alloc, left?).map_err(|_| NoMemory)?;
    let right = Box::new(alloc, right?).map_err(|_| NoMemory)?;
    Ok(Cond::And(left, right))
}

/// That one of them holds. `NoMemory` if one is missing, or memory runs out.
pub fn or(alloc: Global, left: Built, right: Built) -> Built
    ensures { (a b : Condition) → IsBuilt left a → IsBuilt right b → IsBuilt result (tree.or a b) }
{
    let left = Box::new(alloc, left?).map_err(|_| NoMemory)?;
    let right = Box::new(alloc, right?).map_err(|_| NoMemory)?;
    Ok(Cond::Or(left, right))
}

/// That it doesn't hold. `NoMemory` if it is missing, or memory runs out.
pub fn not(alloc: Global, inner: Built) -> Built
    ensures { (a : Condition) → IsBuilt inner a → IsBuilt result (tree.not a) }
{
    let inner = Box::new(alloc, inner?).map_err(|_| NoMemory)?;
    Ok(Cond::Not(inner))
}
