//! What the role phases writes in a view.
//!
//! The list of its writes is said in `csv_phases`, in `specs/Phases.antt`. Only the first one is built. `specs/Each.antt`
//! says what claims, deployments and collection write for one CSV and for one slot.
#![tactic(auto)]

mod claims;
mod collecting;
mod deployments;
mod first;

pub use first::phases_first;
