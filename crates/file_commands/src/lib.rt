//! The three commands over a cluster's file: a run of events, what is shown of a namespace, and what is decided there.
//! Each opens the store in the file of a borrowed disk, does its work and closes the store again. The file is opened
//! before anything else is done.
//!
//! What is found in a file stands in `specs/Opens.antt`, what an answer is in `specs/Answers.antt`, and what a run is in
//! `specs/FileRuns.antt`.
#![tactic(auto)]

mod asking;
mod faults;
mod looking;
mod running;

pub use asking::{decide_file, show_file};
pub use faults::{FileFault, RunFault};
pub use running::run_file;
