//! The objects that a cluster keeps, their keys, and the writes that change them.
//!
//! Contracts see each struct and enum as itself, with a text as its bytes and a list as a list. What an object
//! counts as is said in `specs/Kinds.antt`, where an object stands by its name in `specs/Places.antt`, the order of
//! keys in `specs/Keys.antt`, and how stamps are counted in `specs/Stamps.antt`.
#![tactic(auto)]

mod groups;
mod keys;
mod kinds;
mod objects;
mod plans;
mod resolutions;
mod statuses;

pub use groups::{Claim, ClaimsStatus, GroupStatus, LeaseStatus, StrategyStatus};
pub use keys::{Key, Stamp, compare_keys, print_key};
pub use kinds::{
    has_kind, is_catalog_key, is_claims_key, is_crd_key, is_csv_key, is_deployment_key,
    is_group_key, is_lease_key, is_plan_key, is_resolution_key, is_strategy_key,
    is_subscription_key, status_of,
};
pub use objects::{Object, Status, Write, Writer};
pub use plans::{PlanFault, PlanPhase, PlanStatus, Step, StepState};
pub use resolutions::{Basis, Outcome, ResolutionStatus, Seen, Taken, Tip};
pub use statuses::{
    CatalogStatus, Crd, CsvPhase, CsvStatus, Made, Readiness, SubSpec, SubState, SubscriptionStatus,
};
