//! Laws of all histories that are kept: in which users write by events and grants, and each role what it had in some
//! view, any number of workers of each, with views of any age.
//!
//! The statements stand in `specs/Laws.antt`, over what one write makes of an object (`Csvs`, `Subscriptions`, `Plans`),
//! of a resolution (`Resolutions`) and of claims (`Claims`). The functions have no code: their contracts are the laws.
#![tactic(auto)]

mod laws;

pub use laws::{
    beginnings_stay_lawful, claims_stay_disjoint, csvs_go_by_edges, grants_go_in_order,
    installed_csvs_hold_claims, plans_go_by_edges, resolvers_decide, subscriptions_go_by_edges,
    views_are_in_order,
};
