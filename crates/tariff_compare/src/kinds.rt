//! The kinds of lines of which the first that holds counts: which line counts by the tables, what differs, and words.
ghost use Rattle.std.specs.Prelude.{◌++◌, ◌≡◌, OnOk, find};
ghost use Rattle.tariff_compare.specs.{Common.{IsInRangeFor}, Kinds.{place_in}, Sides.{in_force_by}};
ghost use Rattle.tariff_compare.specs.Kinds.{differing_kind, have_same_fee, have_same_minimum, is_asked, is_asked_amid};
ghost use Rattle.tariff_compare.specs.Kinds.{is_hiring, is_other, is_same_of, kind_word, part_word, place_before};

use crate::costs::cost_same;
use crate::meter_context::MeterContext;
use crate::side::Side;
use std::alloc::AllocError;
use tariff_check::{ChoiceKind, Initial};
use tariff_compile::CellLines;
use tariff_tree::Context;

/// Whether a line of a kind can count in a context.
pub(crate) fn is_asked(kind: ChoiceKind, m: &MeterContext) -> bool
    ensures { result ≡ is_asked kind m.now }
{
    is_asked_amid(kind) || is_hiring(m)
}

/// Whether a line of a kind can count amid a trip, and not at a hiring alone.
pub(crate) fn is_asked_amid(kind: ChoiceKind) -> bool
    ensures { result ≡ is_asked_amid kind }
{
    match kind {
        ChoiceKind::Rate => true,
        ChoiceKind::Initial => false,
        ChoiceKind::Minimum => false,
    }
}

/// Whether a context is one at a hiring.
fn is_hiring(m: &MeterContext) -> bool
    ensures { result ≡ is_hiring m.now }
{
    m.ticks == 0 && m.pulses == 0
}

/// The place, from 0, of the line of a kind that a cell names; `None` if it names none.
pub(crate) fn place_in(kind: ChoiceKind, lines: CellLines) -> Option<usize>
    ensures { result ≡ place_in kind lines }
{
    match kind {
        ChoiceKind::Rate => Some(lines.rate as usize),
        ChoiceKind::Initial => Some(lines.initial as usize),
        ChoiceKind::Minimum => place_before(lines.minimum),
    }
}

/// The place of a number from 1 on; `None` for 0.
fn place_before(number: u8) -> Option<usize>
    ensures { result ≡ place_before number }
{
    if number == 0 {
        None
    } else {
        Some(number as usize - 1)
    }
}

/// The kinds that are compared, one after another.
const COMPARED: [ChoiceKind; 3] = [ChoiceKind::Initial, ChoiceKind::Minimum, ChoiceKind::Rate];

/// The kind that differs first in a context, by what is in force there on both sides.
#[tactic(auto, unfolding(crate::specs::Kinds::differing_kind))]
pub(crate) fn differing_kind(
    one: &Side,
    other: &Side,
    m: &MeterContext,
    x: &Context,
    y: &Context,
) -> Option<ChoiceKind>
    requires one { IsInRangeFor one.now.tables x.now }
    requires other { IsInRangeFor other.now.tables y.now }
    ensures { result ≡ differing_kind m.now (in_force_by one.now x.now) (in_force_by other.now y.now) }
{
    first_other(one, other, m, x, y, &COMPARED)
}

/// The first of some kinds that differs in a context.
fn first_other(
    one: &Side,
    other: &Side,
    m: &MeterContext,
    x: &Context,
    y: &Context,
    kinds: &[ChoiceKind],
) -> Option<ChoiceKind>
    requires one { IsInRangeFor one.now.tables x.now }
    requires other { IsInRangeFor other.now.tables y.now }
    ensures { result ≡ find (is_other m.now (in_force_by one.now x.now) (in_force_by other.now y.now)) kinds.now }
{
    for kind in kinds {
        if is_asked(*kind, m) && !is_same_of(*kind, one, other, x, y) {
            return Some(*kind);
        }
    }
    None
}

/// Whether lines of a kind make no difference between what is in force on both sides.
#[tactic(auto, unfolding(crate::specs::Sides::in_force_by))]
fn is_same_of(kind: ChoiceKind, one: &Side, other: &Side, x: &Context, y: &Context) -> bool
    requires one { IsInRangeFor one.now.tables x.now }
    requires other { IsInRangeFor other.now.tables y.now }
    ensures { result ≡ is_same_of kind (in_force_by one.now x.now) (in_force_by other.now y.now) }
{
    match kind {
        ChoiceKind::Rate => cost_same(one.rate_at(x), other.rate_at(y)),
        ChoiceKind::Initial => have_same_fee(one.fees_at(x), other.fees_at(y)),
        ChoiceKind::Minimum => have_same_minimum(one.fees_at(x), other.fees_at(y)),
    }
}

/// Whether two hirings have the same fee.
fn have_same_fee(one: Initial, other: Initial) -> bool
    ensures { result ≡ have_same_fee one other }
{
    one.amount == other.amount && one.covers == other.covers
}

/// Whether two hirings have the same minimum fare.
fn have_same_minimum(one: Initial, other: Initial) -> bool
    ensures { result ≡ have_same_minimum one other }
{
    one.minimum == other.minimum
}

/// The word of a kind.
pub(crate) fn push_kind(text: &mut Vec<u8>, kind: ChoiceKind) -> Result<(), AllocError>
    ensures { OnOk result (text.new.items ≡ text.old.items ++ kind_word kind) }
{
    match kind {
        ChoiceKind::Rate => text.extend_from_slice(b"rate"),
        ChoiceKind::Initial => text.extend_from_slice(b"initial"),
        ChoiceKind::Minimum => text.extend_from_slice(b"minimum"),
    }
}

/// The word of a kind whose lines differ.
pub(crate) fn push_part_word(text: &mut Vec<u8>, kind: ChoiceKind) -> Result<(), AllocError>
    ensures { OnOk result (text.new.items ≡ text.old.items ++ part_word kind) }
{
    match kind {
        ChoiceKind::Rate => text.extend_from_slice(b"RATE "),
        ChoiceKind::Initial => text.extend_from_slice(b"INITIAL "),
        ChoiceKind::Minimum => text.extend_from_slice(b"MINIMUM "),
    }
}
