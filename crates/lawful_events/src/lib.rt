//! What stays lawful under the events of a user: whatever they write is by the rules, and a lawful history stays so.
//!
//! The definitions stand in `specs/`: which writes are a user's (`Asks`), the rules that
//! such a write keeps (`Rules`), what it leaves of plans, resolutions and catalogs (`Keeps`), and what a run of
//! events leaves (`Runs`). The functions here have empty bodies: their contracts are the laws.
#![tactic(auto)]

mod laws;

pub use laws::{
    applied_objects_are_neutral, catalogs_stay, histories_stay_lawful, phases_stay,
    plans_are_only_approved, resolutions_stay, runs_stay_lawful, users_writes_are_allowed,
    users_writes_keep_the_rules,
};
