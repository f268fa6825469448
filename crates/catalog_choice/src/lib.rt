//! What is chosen from a catalog for one subscription to a channel of it, and what is printed of the choice.
//!
//! The same for whatever a view of a cluster asks: `ask_view` makes its problem, and `decide_text` decides it.
//!
//! `ask` makes the problem, `resolve_text` decides it and tells the decision, and `verify_text` tells what a text shows
//! of it that is to be its certificate. A package or channel that is no name is one that no catalog has.
#![tactic(auto)]

mod asking;
mod deciding;
mod laws;
mod picks;

pub use asking::{Question, ask, ask_nothing, ask_view};
pub use deciding::{Answer, Decided, decide_nothing, decide_text, resolve_text, verify_text};
pub use laws::{
    answers_are_accepted, picks_are_printed, picks_of_views_are_printed, there_is_one_question,
    views_ask_once,
};
pub use picks::picks_of;
