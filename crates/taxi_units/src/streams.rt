//! Streams of bytes that are taken from their front, and how they end.
ghost use Rattle.std.specs.Prelude.{[], ℕ, ◌++◌, ◌-◌, ◌<◌, ◌≡◌, ◌≤◌, ◌⊎◌, List, None, Some, length, take};
ghost use Rattle.taxi_units.specs.Streams.{BadAt, Endless, IsSplit, IsTakenTo, KeepsBad, StreamKind, Whole};
ghost use Rattle.taxi_units.specs.Streams.{stream_limit};

/// The most bytes that are taken of a stream: a drive, the requests of a data port or a roll. The limit is this
/// project's own.
pub const STREAM_LIMIT: u64 = 1 << 40;

/// How a stream ends, as far as the bytes that were taken tell it. If nothing is left and fewer than 2^40 were taken,
/// it ends whole, or at the place that is bad then. If at most 2^40 were taken, a place of theirs is bad, and the kind
/// of stream keeps what is bad, it ends there, whatever is left. If 2^40 were taken and none is bad, no end is seen.
pub fn bytes_tell_how_a_stream_ends()
    ensures whole { (kind : StreamKind) (stream taken left : List ℕ) → IsSplit stream taken left → left ≡ []
        → length taken < stream_limit → kind.bad_at_end taken ≡ None → IsTakenTo kind stream taken left Whole }
    ensures unfinished { (kind : StreamKind) (stream taken left : List ℕ) (place : ℕ) → IsSplit stream taken left
        → left ≡ [] → length taken < stream_limit → kind.bad_at_end taken ≡ Some place
        → IsTakenTo kind stream taken left (BadAt place) }
    ensures bad { (kind : StreamKind) (stream taken left : List ℕ) (place : ℕ) → KeepsBad kind
        → IsSplit stream taken left → length taken ≤ stream_limit → kind.first_bad taken ≡ Some place
        → IsTakenTo kind stream taken left (BadAt place) }
    ensures endless { (kind : StreamKind) (stream taken left : List ℕ) → IsSplit stream taken left
        → length taken ≡ stream_limit → kind.first_bad taken ≡ None → IsTakenTo kind stream taken left Endless }
{}

/// The bytes of a stream up to the limit of 2^40 are those that were taken and the first ones of what is left. They are
/// just those that were taken if nothing is left, or if 2^40 were taken.
pub fn limits_fall_behind_what_was_taken()
    ensures front { (stream taken left : List ℕ) → IsSplit stream taken left → length taken ≤ stream_limit
        → take stream_limit stream ≡ taken ++ take (stream_limit - length taken) left }
    ensures all { (stream taken left : List ℕ) → IsSplit stream taken left → length taken ≤ stream_limit
        → (left ≡ []) ⊎ (length taken ≡ stream_limit) → take stream_limit stream ≡ taken }
{}
