//! What a whole text of parameters says.
ghost use Rattle.std.specs.Prelude.{ℕ, ◌<◌, ◌↔◌, ◌≡◌, Err, List, Ok, length};
ghost use Rattle.seal_record.specs.{Common.{Name, Params, TooLong}, declared.params.ParamFault.TheVariants.{Missing}};
ghost use Rattle.seal_record.specs.{Limits.{longest_text}, ParamText.{IsTextOfParams, LacksFirst}};
ghost use Rattle.seal_record.specs.Reading.{params_read};

/// A law: a text is read as parameters exactly if it has at most 65,536 bytes and its lines, from the first to the
/// last, say each of these parameters, and nothing else.
pub fn texts_say_their_parameters()
    ensures { (text : List ℕ) (params : Params) → (params_read text ≡ Ok params) ↔ IsTextOfParams text params }
{}

/// A law: a text is too long exactly if it has more than 65,536 bytes. A parameter is missing exactly if the text isn't
/// too long, all its lines are good, and that parameter is the first of the format's table that no line says.
pub fn texts_are_too_long_or_lack_a_parameter()
    ensures too_long { (text : List ℕ) → (params_read text ≡ Err TooLong) ↔ (longest_text < length text) }
    ensures missing { (text : List ℕ) (which : Name)
        → (params_read text ≡ Err (Missing which)) ↔ LacksFirst text which }
{}
