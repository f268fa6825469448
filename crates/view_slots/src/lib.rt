//! What a view shows at a key, and the keys of objects by their names.
//!
//! The keys are those of `cluster_objects`' `specs/Places.antt`.
#![tactic(auto)]

mod places;
mod shown;

pub use places::{claims_key, crd_key, csv_key, deployment_key, resolution_key};
pub use shown::{object_at, version_at};
