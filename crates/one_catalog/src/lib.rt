//! One catalog: what a view reads of a body, what a user's event takes and what the law of histories asks for are
//! the same.
//!
//! The test stands in `specs/Catalogs.antt`. The functions here have empty bodies: their contracts are the laws.
#![tactic(auto)]

mod laws;

pub use laws::{lawful_catalogs_are_seen, tests_are_one, users_catalogs_pass};
