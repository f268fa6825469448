//! More of the law of histories: what stays of a slot, the edges of plans and of their steps, and what the write of
//! a step puts.
//!
//! The definitions stand in `specs/`: what one write may make of a plan (`Edges`), and what a write with a stamp is
//! (`Steps`). The functions here have empty bodies: their contracts are the laws.
#![tactic(auto)]

mod laws;

pub use laws::{
    bases_are_sound, beginnings_nest, causes_stay, ends_stay, phases_go_by_edges, plans_begin_new,
    plans_go_by_edges, slots_stay, steps_go_by_edges, steps_spare_operators,
    steps_write_what_they_say, writes_find_what_was_seen,
};
