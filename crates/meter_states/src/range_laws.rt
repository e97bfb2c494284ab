//! What the meter commits keeps the ranges of the store.
ghost use Rattle.meter_states.specs.{Acts.{IsLawfulAct, KeepsRanges}, Common.{Act, Durable, IsDurable, TableParts}};

/// A lawful act leaves the store's state in its ranges, if the state was in its ranges and has the number beside which
/// the act is lawful.
pub fn lawful_acts_keep_the_ranges()
    ensures { (tables : TableParts) (durable : Durable) (act : Act) → IsDurable durable
        → IsLawfulAct tables durable.number act → KeepsRanges durable act }
{}
