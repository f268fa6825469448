//! Which rules a catalog breaks.
//!
//! The rules stand in `fbc_types/specs/Rules.antt`, and docs/catalog-rules.md has them in words. [`check`] lists the
//! broken ones, or keeps the catalog as one that breaks none.
#![tactic(auto)]

mod bundles;
mod chains;
mod channels;
mod checking;
mod entries;
mod links;
mod notes;
mod packages;
mod tables;
mod texts;

pub use checking::{CheckRefusal, check};
