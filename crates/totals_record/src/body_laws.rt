//! What a slot's bytes are read as.
ghost use Rattle.std.specs.Prelude.{ℕ, ◌↔◌, ◌≡◌, List, Some};
ghost use Rattle.totals_record.specs.{Common.{Durable}, Ranges.{IsDurable}, Reading.{reads}, Spelling.{spelling}};

/// A law: bytes are read as a state exactly if each field of the state is in its range and the bytes are those of the
/// state, in the layout that it names.
pub fn states_are_read_by_their_table()
    ensures { (bytes : List ℕ) (durable : Durable)
        → (reads bytes ≡ Some durable) ↔ (IsDurable durable × (bytes ≡ spelling durable)) }
{}
