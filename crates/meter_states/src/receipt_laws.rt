//! Receipts stand behind their entries, and the store has what the acts commit.
ghost use Rattle.std.specs.Prelude.{◌++◌, ◌≡◌, List, None};
ghost use Rattle.{meter_model.specs.Run.{actions_of, run_both}, meter_states.specs.Pairs.{ArePaired, commits_of}};
ghost use Rattle.meter_states.specs.Common.{Durable, Event, Meter, Setting, after_all, run, step, whole_run};

/// In the acts of an event, and in those of a whole run, each entry of a hiring stands directly before its receipt.
/// Each receipt stands directly behind its entry, with the number that the store has then.
pub fn receipts_follow_their_entries()
    ensures event { (s : Setting) (event : Event) (m : Meter) → ArePaired m.durable.number None (step s event m).acts }
    ensures run { (s : Setting) (durable : Durable) (events : List Event)
        → ArePaired durable.number None (actions_of s durable events) }
{}

/// After an event the store has the state before it with the commits of the event's acts, in order. After a whole run
/// it has the opening state with those of the run.
pub fn the_store_has_what_the_acts_commit()
    ensures event { (s : Setting) (event : Event) (m : Meter)
        → (step s event m).next.durable ≡ after_all m.durable (commits_of (step s event m).acts) }
    ensures run { (s : Setting) (durable : Durable) (events : List Event)
        → (whole_run s durable events).next.durable ≡ after_all durable (commits_of (actions_of s durable events)) }
{}

/// A run over one list of events and then over another is the run over both.
pub fn runs_add_up()
    ensures { (s : Setting) (first second : List Event) (m : Meter)
        → run s (first ++ second) m ≡ run_both s first second m }
{}
