//! Which line of a kind holds first.
ghost use Rattle.std.specs.Prelude.{ℕ, ◌↔◌, ◌≡◌, List, Option};
ghost use Rattle.tariff_tree.specs.Choices.{choices, conditions_of, initial_part, minimum_part, rate_part};
ghost use Rattle.tariff_tree.specs.{Common.{Context}, Condition.{Condition}, Meaning.{rate_place}, Tree.{Tree}};
ghost use Rattle.tariff_tree.specs.Meaning.{IsFirstPlace, at_hiring, holds_if, initial_place, minimum_place, place_of};

/// The law of places: the choice that is found in a context is the one at which a condition holds or there is none, and
/// before which none holds. No choice is found exactly if none holds. So it is for the rate of a context among the
/// rates of a tariff, and for its initial hire fee and its minimum fare at the hiring.
pub fn first_lines_hold()
    ensures conditions { (x : Context) (conditions : List (Option Condition)) (place : Option ℕ)
        → (place_of x conditions ≡ place) ↔ IsFirstPlace (holds_if x) conditions place }
    ensures rate { (t : Tree) (x : Context) (place : Option ℕ) → (rate_place t x ≡ place)
        ↔ IsFirstPlace (holds_if x) (conditions_of (choices rate_part t.lines)) place }
    ensures initial { (t : Tree) (x : Context) (place : Option ℕ) → (initial_place t x ≡ place)
        ↔ IsFirstPlace (holds_if (at_hiring x)) (conditions_of (choices initial_part t.lines)) place }
    ensures minimum { (t : Tree) (x : Context) (place : Option ℕ) → (minimum_place t x ≡ place)
        ↔ IsFirstPlace (holds_if (at_hiring x)) (conditions_of (choices minimum_part t.lines)) place }
{}
