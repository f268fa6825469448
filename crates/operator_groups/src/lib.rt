//! OperatorGroups: in which namespaces operators act, what a CSV supports of it, and what namespaces
//! claim.
//!
//! The definitions stand in `specs/`: how the operators of a namespace act (`Acts`), which modes a
//! CSV supports (`Modes`), and what comes of a claim (`Claiming`). `acts_of`, `supports` and `claim`
//! answer by them. The functions of `laws` have empty bodies: their contracts are laws of these
//! definitions.
#![tactic(auto)]

mod claiming;
mod groups;
mod laws;
mod modes;

pub use claiming::{Claimed, claim};
pub use groups::{Acts, acts_of};
pub use laws::{claims_stay_disjoint, made_claims_are_held};
pub use modes::supports;
