//! The plan of a resolution: which objects an installer is to write, and in which order.
//!
//! The manifests of what is taken are said in `specs/Manifests.antt`, the steps that they make in `specs/Steps.antt`,
//! the subscriptions that a plan adds in `specs/Subscribing.antt`, and the whole plan in `specs/Plans.antt`.
#![tactic(auto)]

mod keeping;
mod laws;
mod manifests;
mod plans;
mod refusal;
mod steps;
mod subscribing;
mod turns;

pub use laws::{names_are_short, plans_are_new};
pub use plans::{plan_of, taken_by};
pub use refusal::PlanRefusal;
pub use subscribing::is_manual;
