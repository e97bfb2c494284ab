//! What texts of rules mean, in words that share nothing with how they are read.
ghost use Rattle.std.specs.Prelude.{ℕ, ◌↔◌, ◌≡◌, List, Ok, Result};
ghost use Rattle.offset_rules.specs.{Common.{RuleFault}, Texts.{plain_text}};
ghost use Rattle.offset_rules.specs.{Reading.{rules_read}, Rule.{IsRule, Rule}, RulesText.{IsReadAs}};

/// A law: the answer to a text is the rule that its four lines say, or its first fault. A fault is more than
/// 4,096 bytes; the first of the lines 1 to 4 that breaks its form or is absent, or 5 if bytes follow them;
/// both changes in one month. A text has one answer, and its rule has each part in its range.
pub fn texts_say_rules_line_by_line()
    ensures answers { (text : List ℕ) (answer : Result Rule RuleFault)
        → (rules_read text ≡ answer) ↔ IsReadAs text answer }
    ensures one { (text : List ℕ) (a b : Result Rule RuleFault) → IsReadAs text a → IsReadAs text b → a ≡ b }
    ensures lawful { (text : List ℕ) (rule : Rule) → rules_read text ≡ Ok rule → IsRule rule }
{}

/// A law: each rule is written by a plain text of four lines, and that text is read as it.
pub fn plain_texts_are_read_back()
    ensures { (rule : Rule) → IsRule rule → rules_read (plain_text rule) ≡ Ok rule }
{}
