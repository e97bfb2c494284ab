//! The core of the meter: what each event does to it, under the tables of a tariff and a seal. Of a trip it keeps sums
//! and the running interval, and no list of intervals. `specs/` says what a meter is: its states keep each interval of
//! a trip, and an interval is charged by the rate that the tariff's text names.
#![tactic(auto)]

mod cache;
mod charge_laws;
mod closing;
mod contexts;
mod core_state;
mod display;
mod equal_trip;
mod equals;
mod fitting;
mod held;
mod held_trip_laws;
mod interval;
mod key_acts;
mod keys;
mod lookups;
mod meter_state;
mod meterage;
mod power_up;
mod range_laws;
mod receipt_laws;
mod records;
mod refusal_laws;
mod refusing;
mod shown;
mod stepping;
mod supply_drop;
mod tick;
mod trip;

pub use charge_laws::{charges_by_weights_are_by_the_rates, tables_charge_by_the_rate_in_force};
pub use core_state::Core;
pub use fitting::fits;
pub use held_trip_laws::the_store_keeps_the_trip;
pub use range_laws::lawful_acts_keep_the_ranges;
pub use receipt_laws::{
    receipts_follow_their_entries, runs_add_up, the_store_has_what_the_acts_commit,
};
pub use refusal_laws::{
    keys_act_after_their_interval, keys_are_refused_at_an_expiry,
    pulses_too_fast_fill_the_interval, refused_events_change_nothing,
};
