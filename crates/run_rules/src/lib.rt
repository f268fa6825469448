//! Runs: what a list of events makes of a history and of the workers that come in it.
//!
//! The definitions stand in `specs/`: a run's state (`States`), what its lines say (`Outcomes`), what an act
//! (`Acting`), a settle (`Settling`) and the request for a lease (`Leasing`) come to, and a run of events (`Runs`). A
//! worker of a run is the program's own [`Worker`]. The functions here have empty bodies: their contracts are laws of
//! these definitions.
#![tactic(auto)]

mod laws;
mod outcomes;
mod workers;

pub use laws::{
    fenced_puts_hold_the_term, runs_extend_histories, settles_say_what_they_made,
    workers_hold_views_of_the_history,
};
pub use outcomes::Outcome;
pub use workers::Worker;
