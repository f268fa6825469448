//! The law of histories: through any interleaving of writers with views of any age, each step of a plan is written
//! at most once.
//!
//! The definitions stand in `specs/`: what an installer may write in a view (`Installing`), which writes may follow
//! a history (`Lawful`), what a state must be that a history begins with (`Sound`), and how writes are counted
//! (`Counting`). The functions here have empty bodies: their contracts are the law.
#![tactic(auto)]

mod laws;

pub use laws::{
    histories_begin, installer_writes_are_few, neutral_writes_are_allowed, numbers_are_used_once,
    plans_stay, states_are_sound, steps_are_written_once,
};
