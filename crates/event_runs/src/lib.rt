//! Runs of a list of events over a store: each event is applied and has its line, up to the one that ends the run.
//!
//! The lines stand in `specs/Lines.antt`, and what a run is in `specs/Runs.antt`.
#![tactic(auto)]

mod events;
mod halts;
mod lines;
mod running;

pub use halts::Halt;
pub use running::run_events;
