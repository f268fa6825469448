//! What is printed of a catalog: the counts of a valid one, the rules that another breaks, and the upgrades in a
//! channel. What each line holds stands in `specs/Lines.antt`.
#![tactic(auto)]

mod counts;
mod faults;
mod graph;
mod nodes;
mod sources;

pub use counts::counts_line;
pub use faults::{fault_lines, put_rule};
pub use graph::graph_lines;
