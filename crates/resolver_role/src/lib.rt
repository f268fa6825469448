//! What the resolver writes in a view.
//!
//! The resolver's write is said in `controller_rules`, in `specs/Resolving.antt`. It is found in this order: whether a
//! plan is under way, whether the resolution that is there still stands, and then the next resolution or the plan of the
//! one that stands. The functions of `laws` have as contracts what is so of each such write (`specs/Laws.antt`).
#![tactic(auto)]

mod deciding;
mod decisions;
mod laws;
mod naming;
mod objects;
mod plans;
mod resolving;
mod resting;
mod standing;

pub use laws::{decisions_are_of_their_view, idle_resolutions_are_fresh, writes_are_allowed};
pub use resolving::resolver_first;
