//! The rules of the controller: what each role may write in a view.
//!
//! The definitions stand in `specs/`: what a resolution comes to (`Deciding`), what the resolver writes (`Resolving`),
//! what is enabled for each role (`Enabled`), the edges of plans (`PlanEdges`), and which histories are lawful by roles
//! (`Lawful`). The function with an empty body has a law of them as its contract.
#![tactic(auto)]

mod laws;
mod roles;

pub use laws::resting_resolvers_write_nothing;
pub use roles::Role;
