//! Totals as sums over the list of entries.
ghost use Rattle.{std.specs.Prelude.{List}, totals_record.specs.{Common.{Entry, Totals}, Sums.{AddsUp, totals_of}}};

/// A law: after a list of entries each of the totals has grown by the sum over the list of what an entry adds to it.
/// The share of each tariff position has grown by the hirings that were closed there and by their fares. What was
/// counted before stays.
pub fn entries_add_up()
    ensures { (totals : Totals) (entries : List Entry) → AddsUp totals (totals_of totals entries) entries }
{}
