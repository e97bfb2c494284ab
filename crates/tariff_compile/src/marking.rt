//! In which of up to 64 contexts the conditions of a tariff hold: a condition is asked in all of them at
//! once.
ghost use Rattle.std.specs.{List.{position_from}, Prelude.{◌<◌, ◌≡◌, ◌≤◌, IfOk, length}};
ghost use Rattle.tariff_compile.specs.{Alike.{AllAgree}, Marks.{MarkEach, MarksThose, is_marked}};
ghost use Rattle.tariff_compile.specs.Common.{condition_of, holds, holds_if, own_conditions, tree_of, when_at};

use crate::alike::Alike;
use crate::marks::Marks;
use std::alloc::Global;
use tariff_check::{Checked, Choice};
use tariff_tree::{Cond, Context, sat};
use taxi_units::NoMemory;

/// The marks of each choice of a tariff, in order: the contexts in which it holds.
pub(crate) fn marks_of_each<V>(
    alloc: Global,
    checked: &Checked,
    choices: &[Choice<V>],
    contexts: &[Context],
) -> Result<Vec<Marks>, NoMemory>
    requires { length contexts.now ≤ 64 }
    ensures { IfOk result
        (λ all. MarkEach (own_conditions (tree_of checked.now).lines choices.now) contexts.now all.items) }
{
    let alike = Alike::of(contexts);
    let mut all = Vec::new(alloc);
    for choice in choices {
        let marks = marks_at(checked, choice.place, alike, contexts);
        if all.push(marks).is_err() {
            return Err(NoMemory);
        }
    }
    Ok(all)
}

/// The first marks that have a place, by their own place from 0.
pub(crate) fn first_marked(all: &[Marks], place: usize) -> Option<usize>
    requires { place < 64 }
    ensures { result ≡ position_from (λ marks. is_marked marks place) 0 all.now }
{
    for i in 0..all.len() {
        if all[i].is_marked(place) {
            return Some(i);
        }
    }
    None
}

/// The contexts in which the line at a place of a tariff holds: all, if it has no condition.
fn marks_at(checked: &Checked, place: usize, alike: Alike, contexts: &[Context]) -> Marks
    requires few { length contexts.now ≤ 64 }
    requires alike { AllAgree alike contexts.now }
    ensures { MarksThose (λ x. holds_if x (when_at (tree_of checked.now).lines place)) contexts.now result }
{
    match checked.condition_at(place) {
        Some(cond) => marks_of(cond, alike, contexts),
        None => Marks::all_or_none(true),
    }
}

/// The contexts in which a condition holds. The right part is asked first, as it is in a single context.
fn marks_of(cond: &Cond, alike: Alike, contexts: &[Context]) -> Marks
    requires few { length contexts.now ≤ 64 }
    requires alike { AllAgree alike contexts.now }
    ensures { MarksThose (holds (condition_of cond.now)) contexts.now result }
{
    match cond {
        Cond::And(left, right) => {
            marks_of(right, alike, contexts).both(marks_of(left, alike, contexts))
        }
        Cond::Or(left, right) => {
            marks_of(right, alike, contexts).either(marks_of(left, alike, contexts))
        }
        Cond::Not(inner) => marks_of(inner, alike, contexts).others(),
        _ => marks_of_atom(cond, alike, contexts),
    }
}

/// The contexts in which an atom holds. It is asked once if it asks for what the contexts have in common.
fn marks_of_atom(cond: &Cond, alike: Alike, contexts: &[Context]) -> Marks
    requires few { length contexts.now ≤ 64 }
    requires alike { AllAgree alike contexts.now }
    ensures { MarksThose (holds (condition_of cond.now)) contexts.now result }
{
    if !alike.is_asked(cond) {
        return marks_one_by_one(cond, contexts);
    }
    match contexts.first() {
        Some(first) => Marks::all_or_none(sat(cond, first)),
        None => Marks::none(),
    }
}

/// The contexts in which a condition holds, asked in each.
fn marks_one_by_one(cond: &Cond, contexts: &[Context]) -> Marks
    requires { length contexts.now ≤ 64 }
    ensures { MarksThose (holds (condition_of cond.now)) contexts.now result }
{
    let mut marks = Marks::none();
    for place in 0..contexts.len() {
        marks = marks.and_at(place, sat(cond, &contexts[place]));
    }
    marks
}
