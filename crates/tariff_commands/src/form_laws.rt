//! What the printed form of a tariff is read as.
ghost use Rattle.std.specs.Prelude.{ℕ, ◌≡◌, ◌≤◌, List, Ok, length};
ghost use Rattle.tariff_syntax.specs.Renumbered.{renumbered};
ghost use Rattle.tariff_commands.specs.{Common.{Tree, printed_form, shows}, Form.{form_answer, tree_in}};

/// A law: the printed form of a tariff reads as the same tariff, but for the numbers of its lines, if it has at most
/// 65,536 bytes. Its own printed form is then the same to the byte.
pub fn forms_are_their_own_form()
    ensures tariff { (text : List ℕ) (t : Tree) → tree_in text ≡ Ok t → length (printed_form t) ≤ 65536
        → tree_in (printed_form t) ≡ Ok (renumbered t) }
    ensures again { (text form : List ℕ) → form_answer (tree_in text) ≡ shows form → length form ≤ 65536
        → form_answer (tree_in form) ≡ shows form }
{}
