//! A search for a set that meets a problem, which learns a lemma from each conflict.
//!
//! A trail begins with what is assumed. Each turn adds what the clauses force; where none is false it decides a variable, out first, and
//! where one is, it learns a lemma from the conflict and goes back, or the conflict refutes what is assumed. Each lemma goes to the sink
//! with the hints by which it follows, and costs one of the budget.
#![tactic(auto)]

mod lemmas;
mod propagation;
mod searching;
mod solving;

pub use lemmas::Lemmas;
pub use propagation::{propagate, scan};
pub use searching::{Answer, Budget, search};
pub use solving::Solver;
