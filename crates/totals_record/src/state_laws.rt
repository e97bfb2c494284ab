//! The state after a list of commits, told apart from how the code finds it.
ghost use Rattle.{std.specs.Prelude.{List}, totals_record.specs.{Common.{Change, Durable}, States.{after_all}}};
ghost use Rattle.totals_record.specs.Sums.{GrowsBy};

/// A law: after a list of commits the number has grown by the list's length, and the totals by the sums over its
/// entries. The layout is that of the opening state if the list is empty, and else the newest. The held trip is the
/// last one of the list that no entry of a closed hiring follows; the opening state's trip counts as the first.
pub fn changes_add_up()
    ensures { (opening : Durable) (changes : List Change) → GrowsBy opening (after_all opening changes) changes }
{}
