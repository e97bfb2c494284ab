//! What holds of drives whatever a reader does.
ghost use Rattle.std.specs.Prelude.{[], ℕ, ◌++◌, ◌<◌, ◌↔◌, ◌∷◌, ◌≡◌, ◌≤◌, All, List, None, Option, Some, false};
ghost use Rattle.std.specs.{Prelude.{flat_map, length, true}, Str.Lines.{strip_carriage_return}};
ghost use Rattle.drive_text.specs.{Common.{Event}, Ranges.{IsInRange}, Reading.{HasTaken, Reading}, Runs.{run_events}};
ghost use Rattle.drive_text.specs.{Drive.{bad_at_end, events_in, first_bad, runs_after, runs_in}, Fields.{line_runs}};
ghost use Rattle.drive_text.specs.{Ending.{Whole, drive_end, events_of, stream_limit}, Written.{drive_of, event_text}};
ghost use Rattle.drive_text.specs.{Lines.{IsOneLine, ended_lines, text_of, unfinished_line}, declared.run.Run.{Run}};
ghost use Rattle.drive_text.specs.Table.{Means};
ghost use Rattle.drive_text.specs.{Whole.{EndsWhole, IsReadAs, bytes_of, given_by}, declared.run.Run.TheVariants.{One}};

/// A text is its ended lines, each with its LF, and the unfinished one, and no line has an LF. No other lines make that
/// text.
pub fn lines_make_the_text()
    ensures { (bytes : List ℕ) (lines : List (List ℕ)) (rest : List ℕ) → ((ended_lines bytes ≡ lines)
        × (unfinished_line bytes ≡ rest)) ↔ ((bytes ≡ text_of lines rest) × All IsOneLine lines × IsOneLine rest) }
{}

/// A line that an LF ended gives what the table of lines says, and nothing else. One CR at its end is dropped first.
pub fn lines_give_what_the_table_says()
    ensures { (line : List ℕ) (runs : List Run) → (line_runs line ≡ Some runs)
        ↔ Means (strip_carriage_return line) runs }
{}

/// The first bad line and the runs of bytes so far are those that their lines say, one by one. The first bad line is
/// the first that is ended and gives nothing by the table, or that is too long so far; the lines before it give the
/// runs. At the end of a drive there is no bad line exactly if its last line too is ended.
pub fn drives_mean_what_their_lines_say()
    ensures so_far { (bytes : List ℕ) (bad : Option ℕ) (runs : List Run) → ((first_bad bytes ≡ bad)
        × (runs_in bytes ≡ runs)) ↔ IsReadAs bytes bad runs }
    ensures at_end { (bytes : List ℕ) (runs : List Run) → ((bad_at_end bytes ≡ None) × (runs_in bytes ≡ runs))
        ↔ EndsWhole bytes runs }
{}

/// A first bad line stays the first one, whatever comes after it, and no runs come after it. More bytes add runs, and
/// their events, to those before them.
pub fn more_bytes_add_runs()
    ensures bad { (b c : List ℕ) (n : ℕ) → first_bad b ≡ Some n → first_bad (b ++ c) ≡ Some n }
    ensures ended { (b c : List ℕ) (n : ℕ) → first_bad b ≡ Some n → runs_in (b ++ c) ≡ runs_in b }
    ensures runs { (b c : List ℕ) → runs_in (b ++ c) ≡ runs_in b ++ runs_after b c }
    ensures events { (b c : List ℕ) → events_in (b ++ c) ≡ events_in b ++ flat_map run_events (runs_after b c) }
{}

/// What a drive gives doesn't depend on where its bytes were cut: any pieces, taken in turn, give the runs and the
/// events of all their bytes.
pub fn pieces_give_the_runs_of_all_bytes()
    ensures runs { (pieces : List (List ℕ)) → given_by [] pieces ≡ runs_in (bytes_of pieces) }
    ensures events { (pieces : List (List ℕ)) → flat_map run_events (given_by [] pieces) ≡ events_in (bytes_of pieces) }
    ensures cuts { (one other : List (List ℕ)) → bytes_of one ≡ bytes_of other → given_by [] one ≡ given_by [] other }
{}

/// A reader that goes on has taken no bad line. One that has failed did so at the first bad line of what it has taken,
/// whatever it is said to have taken after it. Readers that have taken the same bytes, in whatever pieces, are the
/// same. No more lines were begun than bytes taken.
pub fn a_reader_is_known_by_its_bytes()
    ensures going { (reading : Reading) (b : List ℕ) → HasTaken reading b → reading.failed ≡ false
        → first_bad b ≡ None }
    ensures failed { (reading : Reading) (b : List ℕ) → HasTaken reading b → reading.failed ≡ true
        → first_bad b ≡ Some reading.begun }
    ensures stays { (reading : Reading) (b c : List ℕ) → HasTaken reading b → reading.failed ≡ true
        → HasTaken reading (b ++ c) }
    ensures same { (reading other : Reading) (b : List ℕ) → HasTaken reading b → HasTaken other b → reading ≡ other }
    ensures few { (reading : Reading) (b : List ℕ) → HasTaken reading b → reading.begun ≤ length b }
{}

/// The line of an event, after ended lines of which none is bad, adds this event alone, and is not bad. It has at most
/// 13 bytes.
pub fn written_lines_read_back()
    ensures run { (b : List ℕ) (event : Event) → IsInRange event → bad_at_end b ≡ None
        → runs_in (b ++ event_text event) ≡ runs_in b ++ One event ∷ [] }
    ensures good { (b : List ℕ) (event : Event) → IsInRange event → bad_at_end b ≡ None
        → bad_at_end (b ++ event_text event) ≡ None }
    ensures short { (event : Event) → IsInRange event → length (event_text event) ≤ 13 }
{}

/// The lines of events are a drive that ends whole and means these events, if it is within the limit.
pub fn written_drives_read_back()
    ensures ends { (events : List Event) → All IsInRange events → length (drive_of events) < stream_limit
        → drive_end (drive_of events) ≡ Whole }
    ensures means { (events : List Event) → All IsInRange events → length (drive_of events) < stream_limit
        → events_of (drive_of events) ≡ events }
{}
