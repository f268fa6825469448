//! Leases: one of several workers of a role gets the newest term.
//!
//! The definitions are in `specs/`: the lease after a history (`Leases`), what is granted and which write is made for it
//! (`Grants`), what the calls return (`Answers`), and how one lease follows another (`Order`).
#![tactic(auto)]

mod calls;
mod cases;
mod laws;
mod looking;
mod places;
mod terms;
mod writing;

pub use calls::{grant, term_of};
pub use laws::{
    grants_are_in_order, grants_are_users_writes, grants_write_leases, holders_are_left_alone,
    terms_never_fall,
};
pub use terms::{Granted, Term};

#[cfg(test)]
mod tests;
