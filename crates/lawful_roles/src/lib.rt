//! What follows of each history in which users write by events and grants, and each role what it may.
//!
//! Such a history is defined in `specs/Roles.antt`, over the roles' writes of `controller_rules`. The functions with an
//! empty body have its theorems as their contracts: any number of workers of each role, views of any age, and plans
//! that are removed while they are under way.
#![tactic(auto)]

mod laws;

pub use laws::{each_step_is_written_once, roles_are_lawful};
