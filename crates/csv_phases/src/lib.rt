//! The phases of CSVs: what the role phases may write in a view.
//!
//! The definitions stand in `specs/`: the CSVs of a namespace (`Csvs`), what may hold of one of them (`Conditions`),
//! the table of edges (`Edges`), the states of subscriptions (`States`), and the list of writes (`Phases`). The
//! functions here have empty bodies: their contracts are laws of these definitions.
#![tactic(auto)]

mod edges;
mod laws;

pub use edges::Edge;
pub use laws::{
    chosen_edges_apply, conditions_exclude, edges_are_one_each, edges_change_phases,
    writes_are_aside, writes_take_edges, written_claims_are_disjoint,
};
