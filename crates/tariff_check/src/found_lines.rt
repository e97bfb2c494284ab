//! The line of a tariff that says a part of its frame, or that counts in a context.
ghost use Rattle.std.specs.Prelude.{◌≡◌, map, option_and_then};
ghost use Rattle.tariff_check.specs.Common.{Gives, entry_of, line_of, tree_of};
ghost use Rattle.tariff_check.specs.{FoundLines.{frame_line, line_in_force, says}, Resolved.{line_of_own}};
ghost use Rattle.tariff_check.specs.SoundTariff.{own_conditions, place_of};

use crate::checked::Checked;
use crate::choice::{Choice, ChoiceKind};
use tariff_tree::{Context, Item, TariffLine};

/// What a line of a tariff's frame says.
#[derive(Clone, Copy)]
pub enum FramePart {
    /// The display step, and how the fare is rounded to it.
    Step,
    /// How many positions there are.
    Positions,
    /// How many zones there are.
    Zones,
    /// The supplement of a number.
    Supplement(u8),
}

impl Checked {
    /// The line that says a part of the frame. `None` exactly if no line does.
    pub fn frame_line(&self, part: FramePart) -> Option<&TariffLine>
        ensures { Gives (λ line. line_of line.now) result (frame_line part (tree_of self.now).lines) }
    {
        first_saying(part, self.tariff.lines.as_slice())
    }

    /// The line of the first choice of a kind that has no condition or whose condition holds in a context. `None`
    /// exactly if none holds.
    pub fn line_in_force(&self, kind: ChoiceKind, x: &Context) -> Option<&TariffLine>
        ensures { Gives (λ line. line_of line.now) result (line_in_force kind x.now (tree_of self.now).lines) }
    {
        let parts = self.parts();
        match kind {
            ChoiceKind::Rate => self.line_of_first(parts.choices.rates.as_slice(), x),
            ChoiceKind::Initial => self.line_of_first(parts.choices.initials.as_slice(), x),
            ChoiceKind::Minimum => self.line_of_first(parts.choices.minimums.as_slice(), x),
        }
    }

    /// The line of the first of some choices that holds in a context, if one does.
    fn line_of_first<V>(&self, choices: &[Choice<V>], x: &Context) -> Option<&TariffLine>
        ensures { Gives (λ line. line_of line.now) result (option_and_then
            (line_of_own (tree_of self.now).lines choices.now)
            (place_of x.now (own_conditions (tree_of self.now).lines choices.now))) }
    {
        match self.place_of(choices, x) {
            Some(place) => self.line_of_own(choices, place),
            None => None,
        }
    }

    /// The line of the choice at a place among some, from 0, if there is one.
    fn line_of_own<V>(&self, choices: &[Choice<V>], place: usize) -> Option<&TariffLine>
        ensures { Gives (λ line. line_of line.now) result
            (line_of_own (tree_of self.now).lines choices.now place) }
    {
        match choices.get(place) {
            Some(choice) => self.tariff.lines.as_slice().get(choice.place),
            None => None,
        }
    }
}

/// The first of some lines that says a part of the frame.
pub(crate) fn first_saying(part: FramePart, lines: &[TariffLine]) -> Option<&TariffLine>
    ensures { Gives (λ line. line_of line.now) result (frame_line part (map line_of lines.now)) }
{
    for line in lines {
        if says(part, &line.item) {
            return Some(line);
        }
    }
    None
}

/// Whether an item says a part of the frame.
fn says(part: FramePart, item: &Item) -> bool
    ensures { result ≡ says part (entry_of item.now) }
{
    match (part, item) {
        (FramePart::Step, Item::Step { .. }) => true,
        (FramePart::Positions, Item::Positions(_)) => true,
        (FramePart::Zones, Item::Zones(_)) => true,
        (FramePart::Supplement(wanted), Item::Supplement { number, .. }) => *number == wanted,
        _ => false,
    }
}
