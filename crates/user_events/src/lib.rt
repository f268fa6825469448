//! What the events of a user write: each asks for one write, or is refused.
//!
//! What becomes of an object stands in `specs/Wishes.antt`, the words of refusals in `specs/Reasons.antt`, what each
//! event asks for after a history in `specs/Asked.antt`, and what comes of it in `specs/Answers.antt`.
#![tactic(auto)]

mod answers;
mod applying;
mod carrying;
mod events;
mod kept;
mod objects;
mod refusals;
mod releasing;
mod reviving;
mod wishes;

pub use answers::UserAnswer;
pub use events::{apply, approve, delete, ready, release, retry, write_catalog};
pub use refusals::{Refusal, because};
