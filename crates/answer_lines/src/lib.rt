//! The lines that tell what was decided of a problem, and what a text is found to be that shall show it.
//!
//! A decision is told by its word, a line for each thing that is picked where something is chosen, and the
//! certificate. A text is told by what it shows of a problem, or by its first fault. Nothing here reads or writes
//! anything but values: the definitions stand in `specs/`, one file for each kind of line.
#![tactic(auto)]

mod answers;
mod faults;
mod picks;
mod pieces;
mod verdicts;

pub use answers::{answer_text, certificate_of};
use cluster_objects::Taken;
use olm_base::Name;
pub use verdicts::{Checked, verify};

/// One thing that a decision picks.
#[derive(Debug, PartialEq, Eq, Drop)]
pub enum Pick {
    /// An entry of a channel.
    Take(Taken),
    /// What is installed already, by its name.
    Keep(Name),
}
