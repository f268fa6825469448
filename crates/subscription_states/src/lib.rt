//! The states of a namespace's subscriptions, and the write of the first one that isn't up to date.
//!
//! The state of a subscription is said in `csv_phases`, in `specs/States.antt`, and the writes in `specs/Phases.antt`.
//! What the upgrades of all subscriptions rest on is read from the view once, and only where a state needs it.
#![tactic(auto)]

mod offered;
mod plans;
mod states;
mod subscriptions;
mod writes;

pub use writes::first_state;
