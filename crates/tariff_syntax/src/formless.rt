//! The lines of a text that have none of the forms of a line.
ghost use Rattle.std.specs.Prelude.{◌+◌, ◌<◌, ◌^◌, ◌≡◌, ◌≤◌, IfOk, length};
ghost use Rattle.tariff_syntax.specs.{BadLines.{bad_from, bad_lines}, TextLines.{lines_of}};

use crate::parsing::{first_line, heading, is_bad};
use std::alloc::Global;
use taxi_units::NoMemory;

/// The numbers, from 1 on, of all lines of a text that have none of the forms which `parse` reads, in order. A line of
/// decimals that is the first filled one has a form, and so has each empty line. `parse` names the first of them in its
/// `Syntax`, and gives a tariff if there is none. The text has at most 65,536 bytes, as `parse` asks, too. `NoMemory`:
/// memory runs out. This language is this project's own.
#[tactic(auto, unfolding(crate::specs::BadLines::bad_lines))]
pub fn bad_lines(alloc: Global, text: &[u8]) -> Result<Vec<u32>, NoMemory>
    requires { length text.now ≤ 65536 }
    ensures { IfOk result (λ numbers. numbers.items ≡ bad_lines text.now) }
{
    let (decimals, number, rest) = heading(text);
    bad_from(alloc, decimals, number, rest)
}

/// The numbers of the bad lines of a text whose lines are numbered on from a number.
fn bad_from(alloc: Global, decimals: u8, first: u32, text: &[u8]) -> Result<Vec<u32>, NoMemory>
    requires decimals { decimals ≤ 3 }
    requires room { first + length text.now < 2 ^ 32 }
    ensures { IfOk result (λ numbers. numbers.items ≡ bad_from decimals first (lines_of text.now)) }
{
    let mut numbers = Vec::new(alloc);
    let mut rest = text;
    let mut number = first;
    while let Some((line, below)) = first_line(rest) {
        if is_bad(alloc, decimals, line) {
            numbers.push(number).map_err(|_| NoMemory)?;
        }
        number += 1;
        rest = below;
    }
    Ok(numbers)
}
