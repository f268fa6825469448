//! The problem of a namespace: what may be chosen for its subscriptions, and what every choice must meet.
//!
//! It is stated over what a view shows, by filters of whole lists: the entries of the visible catalogs in
//! `specs/Entries.antt`, what subscriptions ask for in `specs/Asking.antt`, which entries are reached from there in
//! `specs/Reaching.antt`, the variables with their constraints and names in `specs/Variables.antt`, and the answer
//! with its limit in `specs/Building.antt`.
#![tactic(auto)]

mod asking;
mod building;
mod candidates;
mod channels;
mod choices;
mod entries;
mod laws;
mod names;
mod problem;
mod reaching;
mod rows;
mod shared;

pub use asking::{installed, upgrades_from};
pub use building::{BuildFault, Built};
pub use laws::{
    named_variables_are_there, packages_and_kinds_are_once, picks_are_entries_or_tips,
    problem_is_one,
};
pub use names::VarName;
pub use problem::{problem_of, upgrades_of};
pub use view_basis::{Visible, basis_of, catalogs_of, installed_of};
