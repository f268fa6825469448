//! What `clap` says of the words of the command line: the program's help, and the fault of words that are of no form.
//!
//! The forms here are as close to the program's own ones as `clap` allows, and `clap` takes some words that the
//! program refuses. What the program takes is decided in `olm_cli` alone, and never by these texts. No contract says
//! what a text is: tests show them.
#![tactic(auto)]

mod forms;
mod texts;

pub use texts::{fault_text, help_text};
