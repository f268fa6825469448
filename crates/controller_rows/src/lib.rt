//! Worked rows of the controller, as laws over its definitions.
#![tactic(auto)]

mod laws;

pub use laws::{forward_row, lost_row, manual_row, upgrade_row};
