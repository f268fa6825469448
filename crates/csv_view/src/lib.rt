//! The CSVs of a view's namespace, and what may hold of one of them.
//!
//! What a CSV is in a view is said in `csv_phases`, in `specs/Csvs.antt`, and the conditions in `specs/Conditions.antt`.
#![tactic(auto)]

mod above;
mod claims;
mod conditions;
mod csvs;
mod deployments;

pub use above::is_succeeded_above;
pub use claims::{claims_are_held, claims_of_view, first_unheld, group_fits};
pub use conditions::{crds_are_there, is_ready};
pub use csvs::{Csv, csv_named, csvs_of, is_current, is_gone, is_in};
pub use deployments::{
    deployment_in, deployment_is_lost, deployments_are_ready, deployments_are_there, is_missing,
    owner_of, owns_failed,
};
