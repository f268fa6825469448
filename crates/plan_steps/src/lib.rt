//! The writes that the installer may make in a view, one for each plan that has one.
//!
//! What they are is defined with the law of histories, in `lawful_history`. `specs/Shown.antt` says what the values
//! of this crate stand for there, and `specs/Laws.antt` what the laws speak of.
#![tactic(auto)]

mod installer;
mod laws;
mod moves;
mod there;
mod writes;

pub use installer::{installer_first, installer_writes};
pub use laws::{installer_writes_are_allowed, plans_have_one_write_each};
