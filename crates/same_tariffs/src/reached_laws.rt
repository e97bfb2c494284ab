//! The contexts in which the intervals and the hirings of runs are charged.
ghost use Rattle.{std.specs.Prelude.{ℕ, All, List}, same_tariffs.specs.Reached.{HoldGoesOn, IsWithinReach}};
ghost use Rattle.same_tariffs.specs.Common.{Durable, Event, IsMeterContext, IsSound, IsTimely, IsWritable, Meter};
ghost use Rattle.same_tariffs.specs.Common.{MeterContext, Mode, Setting, Tree, events_of, opened, run};
ghost use Rattle.same_tariffs.specs.Contexts.{IsChargedIn, IsHiredIn, IsSettingInRange, meter_context_at, without_trip};
ghost use Rattle.same_tariffs.specs.Drives.{IsReached};

/// Each event that a drive can have, and that has a second, has one of the meter's seconds.
pub fn events_of_drives_are_timely()
    ensures { (drive : List ℕ) → All IsTimely (events_of drive) }
{}

/// After any events of the meter's seconds the meter is within reach. The running interval is charged in the lines of
/// the context of a meter at its beginning. A hiring begins with what one does in a context without a trip.
pub fn intervals_are_charged_in_contexts_of_a_meter()
    ensures reached { (t : Tree) (s : Setting) (durable : Durable) (events : List Event) → IsSettingInRange t s
        → All IsTimely events
        → HoldGoesOn s.tariff durable.hold → IsWithinReach s (run s events (opened s durable)).next }
    ensures interval { (t : Tree) (s : Setting) (m : Meter) → IsSettingInRange t s → IsWithinReach s m
        → IsChargedIn t s m (meter_context_at s m.began m) }
    ensures hiring { (t : Tree) (s : Setting) (m : Meter) → IsSettingInRange t s → IsWithinReach s m
        → IsHiredIn t s m (without_trip (meter_context_at s m.clock m)) }
{}

/// Some drive reaches each context of a meter, under the constant and each mode and hold. The drive ends whole, with
/// fewer than 2^40 bytes. From a store without entries it leads to an interval in Hired that begins in the context, of
/// a trip with the fees and the cover of a hiring in the same context without ticks and pulses. Its pulses come by
/// drops of the supply: each leaves an interval unfinished, whose pulses count and whose tick doesn't.
pub fn each_context_is_reached()
    ensures { (t : Tree) (k : ℕ) (mode : Mode) (hold : ℕ) (c : MeterContext) → IsWritable t → IsSound t
        → IsMeterContext t c → IsReached t k mode hold c }
{}
