//! What lies outside the program: sources of bytes and sinks for them, in memory and over std.
//!
//! Each trait has a count of faults that never falls, and a call answers `Failed` only where it
//! rose. What a source has left and what a sink holds is told in memory, and over a reader or a
//! writer of which it is known.
#![tactic(auto)]

mod memory;
mod reading;
mod std_adapter;
mod sure;
#[cfg(test)]
mod tests;
mod traits;

pub use memory::{MemSink, MemSource};
pub use reading::read_all;
pub use std_adapter::{StdSink, StdSource};
pub use sure::{SureSink, SureSource};
pub use traits::{Failed, FolderFault, Outage, Sink, Source};
