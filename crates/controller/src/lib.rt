//! The controller: what its workers do over a store.
//!
//! A role's first write in a view is `enabled_first`. A worker looks, acts in the view that it took, and may hold a
//! lease of its role, under which alone it acts then; a settle lets the roles of a namespace take turns until none has
//! a write. What the calls return, and which history they leave, is said in `specs/Answers.antt`, with the definitions
//! of `run_rules`. The functions with empty bodies have as their contracts that this is what these rules say of an
//! event.
#![tactic(auto)]

mod acting;
mod answers;
mod choosing;
mod fencing;
mod laws;
mod looking;
mod settling;

pub use acting::{act, act_fenced};
pub use answers::{Acted, Looked, Settled};
pub use choosing::enabled_first;
pub use laws::{
    acts_say_what_they_did, looks_say_what_they_saw, settles_say_what_they_made,
    workers_without_a_lease_have_no_fence,
};
pub use looking::look;
pub use run_rules::Worker;
pub use settling::settle;
