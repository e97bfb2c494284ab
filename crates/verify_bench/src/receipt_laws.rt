//! What the expected list is, by the actions of the meter.
ghost use Rattle.std.specs.Prelude.{◌≡◌, List, map};
ghost use Rattle.verify_bench.specs.Common.{Event, Setting, actions_of, first_state};
ghost use Rattle.verify_bench.specs.{ExpectedReceipts.{expected_of, hirings_in, untimed}, Shortened.{short_of}};
ghost use Rattle.verify_bench.specs.TripExplanations.{explanations_of};

/// A law: the expected list has one hiring for each receipt of the meter's actions on an empty store, in order, with
/// the receipt's kind, fare and distance. It has the ticks of the whole trip that its explanation is of.
pub fn expected_hirings_are_the_receipts()
    ensures receipts { (s : Setting) (events : List Event)
        → map untimed (expected_of s events) ≡ hirings_in 0 (actions_of s first_state events) }
    ensures ticks { (s : Setting) (events : List Event)
        → expected_of s events ≡ map short_of (explanations_of s events) }
{}
