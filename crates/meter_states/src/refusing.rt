//! A refusal among the acts.
ghost use Rattle.std.specs.Prelude.{[], ◌++◌, ◌<◌, ◌∷◌, ◌≡◌, length};
ghost use Rattle.meter_states.specs.Common.{Refuse};

use meter_model::{Act, Acts};
use taxi_units::Why;

/// Appends a refusal.
pub fn refuse(why: Why, acts: &mut Acts)
    requires { length acts.old.items < 4 }
    ensures { acts.new.items ≡ acts.old.items ++ Refuse why ∷ [] }
{
    acts.push(Act::Refuse(why));
}
