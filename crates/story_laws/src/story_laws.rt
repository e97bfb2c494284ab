//! What the stories of a drive are of.
ghost use Rattle.std.specs.{List.{AllZip}, Prelude.{[], ◌++◌, ◌≡◌, List, flat_map, map}};
ghost use Rattle.story_laws.specs.ClosedStories.{BeginsWith, EndsWith, HasLines, Rises, left_from, shown_at, shown_by};
ghost use Rattle.story_laws.specs.{Closings.{Closing, closings_of}, Common.{receipts_in, stories_of}};
ghost use Rattle.story_laws.specs.Common.{Event, HiringStory, Receipt, Setting, actions_of, first_state, moments_in};

/// A law: the closings of a drive have the receipts of the meter's run on a new store, each once and in order, and the
/// stories are theirs, one for each. Each story ends with its receipt, and with the ticks and pulses of its trip.
pub fn stories_end_with_their_receipts()
    ensures receipts { (s : Setting) (events : List Event)
        → map (λ (c : Closing). c.receipt) (closings_of s events) ≡ receipts_in (actions_of s first_state events) }
    ensures ends { (s : Setting) (events : List Event) → AllZip EndsWith (closings_of s events) (stories_of s events) }
{}

/// A law: what the stories show, and then what is told of the trip that is left open at the end, are the displays of the
/// meter's run on a new store in Hired and Stopped, each once and in order.
pub fn stories_show_what_the_run_shows()
    ensures { (s : Setting) (events : List Event)
        → flat_map (λ (story : HiringStory). shown_at story.moments) (stories_of s events)
        ++ shown_at (left_from [] (moments_in s events)) ≡ shown_by (actions_of s first_state events) }
{}

/// A law: each story begins with the hiring of its trip, by a meter that is for hire: at the start that its receipt
/// has, without ticks and pulses, with the position and the zone of the meter, and with the lines of the fees that are
/// in force there. The receipt has these fees, and the distance of the trip's pulses.
pub fn stories_begin_with_their_hirings()
    ensures { (s : Setting) (events : List Event)
        → AllZip (BeginsWith s) (closings_of s events) (stories_of s events) }
{}

/// A law: each interval in Hired of a trip that a drive closes was charged by the line that its story tells of it: that
/// of the last moment of a rate with at most as many ticks as the trip had at the interval's beginning. So before the
/// first such interval ends there is one.
pub fn intervals_are_charged_by_the_line_told()
    ensures { (s : Setting) (events : List Event)
        → AllZip (HasLines s) (closings_of s events) (stories_of s events) }
{}

/// A law: in each story the ticks and the pulses of the moments never fall.
pub fn ticks_and_pulses_never_fall()
    ensures { (s : Setting) (events : List Event) → AllZip Rises (closings_of s events) (stories_of s events) }
{}
