//! What a cluster's history shows of a namespace, and what is decided there: one snapshot of a store, and nothing
//! written. The definitions stand in `specs/Asked.antt`.
//!
//! `show_in` and `decide_in` do it over any store. Each looks and then works on what was seen, and both halves are
//! public too: a caller that can say more of its own store looks itself.
#![tactic(auto)]

mod deciding;
mod looking;
mod showing;

pub use deciding::{decide_in, decide_seen};
pub use looking::{AskFault, look_in, name_of};
pub use showing::{show_in, show_seen};
