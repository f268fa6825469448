//! The edges that the CSVs of a view take, and the writes that they make.
//!
//! The table of edges is said in `csv_phases`, in `specs/Edges.antt`, and the writes in `specs/Phases.antt`.
#![tactic(auto)]

mod forms;
mod table;
mod writes;

pub use forms::{puts, removes, with_status};
pub use table::{applies, chosen};
pub use writes::{edge_write, first_edge, first_removal};
