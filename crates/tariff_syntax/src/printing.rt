//! Writes the parts that lines of a tariff share.
ghost use Rattle.std.specs.Prelude.{[], ◌++◌, ◌∷◌, ◌≡◌, ◌≤◌, OnOk, codes};
ghost use Rattle.tariff_syntax.specs.{Appends.{Appends}, Common.{money_text}, Printed.{parts_text, rounding_word}};
ghost use Rattle.tariff_tree.specs.Part as part;

use drive_modes::Rounding;
use std::alloc::AllocError;
use taxi_units::{Line, put_money};

/// An amount for each measure, with a blank before it and its unit behind it.
pub fn push_per(
    text: &mut Vec<u8>,
    decimals: u8,
    amount: u64,
    measure: u64,
    unit: &[u8],
) -> Result<(), AllocError>
    requires { decimals ≤ 3 }
    ensures { OnOk result (Appends text.old.items text.new.items
        (λ rest. parts_text decimals (part.money amount ∷ part.name (codes "per") ∷ part.measure measure ∷ [])
        (unit.now ++ rest))) }
{
    text.push(b' ')?;
    push_money(text, amount, decimals)?;
    text.extend_from_slice(b" per ")?;
    push_money(text, measure, 1)?;
    text.extend_from_slice(unit)?;
    Ok(())
}

/// A rounding word.
pub fn push_rounding(text: &mut Vec<u8>, rounding: Rounding) -> Result<(), AllocError>
    ensures { OnOk result (text.new.items ≡ text.old.items ++ rounding_word rounding) }
{
    match rounding {
        Rounding::Behind => text.extend_from_slice(b"behind"),
        Rounding::Ahead => text.extend_from_slice(b"ahead"),
    }
}

/// An amount of money, or another number with `decimals` decimals.
pub fn push_money(text: &mut Vec<u8>, units: u64, decimals: u8) -> Result<(), AllocError>
    requires { decimals ≤ 3 }
    ensures { OnOk result (text.new.items ≡ text.old.items ++ money_text decimals units) }
{
    let mut line = Line::new();
    match put_money(&mut line, units as u128, decimals) {
        Ok(()) => text.extend_from_slice(line.as_slice()),
        Err(_) => Err(AllocError),
    }
}
