//! The fees of a hiring, over the parts of a tariff.
ghost use Rattle.std.specs.Prelude.{◌∷◌, ◌≡◌, get_or};
ghost use Rattle.{tariff_check.specs.Amounts.{place_number}, verify_bench.specs.Fees.{fees_of_hiring, line_at_place}};
ghost use Rattle.verify_bench.specs.Common.{IsFitInitial, own_lines, own_values, sound_of, tree_of};

use crate::lookups::value_at;
use tariff_check::{Checked, Choice, Initial, InitialNumbers};
use tariff_tree::Context;

/// The fees of a hiring, with the number of the line of each in the text, counted from 1. The minimum fare has a line
/// if the tariff had a minimum fare at the hiring.
#[derive(Clone, Copy)]
pub struct HiringFees {
    pub amounts: Initial,
    pub initial_line: u32,
    pub minimum_line: Option<u32>,
}

/// The fees of a hiring in a context.
pub(crate) fn fees_of_hiring(checked: &Checked, x: &Context) -> HiringFees
    ensures fees { result ≡ fees_of_hiring (sound_of (tree_of checked.now)) x.now }
    ensures fit { IsFitInitial result.amounts }
{
    let none = InitialNumbers {
        amount: 0,
        covers: 0,
    };
    let initials = checked.initials();
    let minimums = checked.minimums();
    let initial = checked.initial_of(x).unwrap_or(0);
    let minimum = checked.minimum_of(x);
    let fee = value_at(initials, initial, none);
    HiringFees {
        amounts: Initial {
            amount: fee.amount,
            covers: fee.covers,
            minimum: amount_in(minimums, minimum),
        },
        initial_line: line_at(initials, initial),
        minimum_line: line_in(minimums, minimum),
    }
}

/// The amount of the choice at a place, from 0; 0 without a place.
fn amount_in(choices: &[Choice<u64>], place: Option<usize>) -> u64
    ensures { result ≡ get_or (0 ∷ own_values choices.now) (place_number place) 0 }
{
    match place {
        None => 0,
        Some(place) => value_at(choices, place, 0),
    }
}

/// The number of the line of the choice at a place, from 0; 0 if there is none.
pub(crate) fn line_at<V>(choices: &[Choice<V>], place: usize) -> u32
    ensures { result ≡ get_or (own_lines choices.now) place 0 }
{
    match choices.get(place) {
        Some(choice) => choice.line,
        None => 0,
    }
}

/// The number of the line of the choice at a place, from 0; none without a place.
fn line_in<V>(choices: &[Choice<V>], place: Option<usize>) -> Option<u32>
    ensures { result ≡ line_at_place (own_lines choices.now) place }
{
    match place {
        None => None,
        Some(place) => Some(line_at(choices, place)),
    }
}
