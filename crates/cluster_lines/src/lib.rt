//! What is printed of a cluster: a line for each object of a namespace, with its version and a word of how it stands.
//! The lines stand in `specs/Lines.antt`, the words in `specs/Words.antt`.
#![tactic(auto)]

mod showing;
mod words;

pub use showing::show_lines;
pub use words::status_word;
