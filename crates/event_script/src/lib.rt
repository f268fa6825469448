//! The events of a run, read from a script: a text of JSON objects that follow one another.
//!
//! Which event each blob is, its fields and their ranges stand in `specs/Events.antt` and `specs/Numbers.antt`, and
//! what a text gives and which fault comes first in `specs/Script.antt`. docs/events.md has the same in tables.
#![tactic(auto)]

mod events;
mod laws;
mod numbers;
mod paths;
mod reading;

pub use events::Event;
pub use laws::script_law;
pub use reading::{EventFault, read_events};
