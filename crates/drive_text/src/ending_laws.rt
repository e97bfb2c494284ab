//! How drives end.
ghost use Rattle.std.specs.Prelude.{[], ℕ, ◌++◌, ◌<◌, ◌≡◌, ◌≤◌, List, None, Some, length};
ghost use Rattle.drive_text.specs.Drive.{bad_at_end, first_bad};
ghost use Rattle.drive_text.specs.Ending.{BadAt, Endless, ReachesEnd, Whole, stream_limit};

/// What the bytes taken of a drive tell of its end. A drive below the limit of 2^40 bytes, of which all was taken, ends
/// whole, or at its bad line. A bad line among bytes up to the limit ends the drive, whatever is left. If as many bytes
/// as the limit were taken and no line is bad, the end isn't seen. The limit is this project's own.
pub fn bytes_tell_how_a_drive_ends()
    ensures whole { (drive : List ℕ) → length drive < stream_limit → bad_at_end drive ≡ None
        → ReachesEnd drive drive [] Whole }
    ensures unfinished { (drive : List ℕ) (line : ℕ) → length drive < stream_limit → bad_at_end drive ≡ Some line
        → ReachesEnd drive drive [] (BadAt line) }
    ensures bad { (taken left : List ℕ) (line : ℕ) → length taken ≤ stream_limit → first_bad taken ≡ Some line
        → ReachesEnd (taken ++ left) taken left (BadAt line) }
    ensures endless { (taken left : List ℕ) → length taken ≡ stream_limit → first_bad taken ≡ None
        → ReachesEnd (taken ++ left) taken left Endless }
{}
