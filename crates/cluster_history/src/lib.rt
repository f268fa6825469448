//! The history of a cluster: its writes, the state that they fold to, and what a namespace sees of it.
//!
//! The definitions stand in `specs/History.antt` and `specs/Views.antt`. The functions here have empty bodies:
//! their contracts are the laws that hold of every history.
#![tactic(auto)]

mod laws;
mod slots;

pub use laws::{one_slot_changes, slots_tell, state_counts_stamps, views_stay};
pub use slots::{Base, Slot};
