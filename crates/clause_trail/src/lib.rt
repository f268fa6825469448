//! Trails, and what the clauses of a problem say over them.
//!
//! A trail holds literals in the order in which they became true, each with its cause: it was assumed, or decided, or a clause forced it. A
//! scan reads every clause that the problem gives and answers one that is false over the trail, or one that forces a literal more; if there
//! is none, each clause is settled. The definitions of a false clause and of a forced literal are those by which a clause follows.
#![tactic(auto)]

mod given;
mod members;
mod rows;
mod trail;

use derivations::Hint;
pub use given::scan_given;
use olm_base::Many;
use op_constraints::Lit;
pub use rows::scan_lemma;
pub use trail::Trail;

/// A clause, and the hint that names it.
#[derive(Debug, Drop)]
pub struct Reason {
    pub hint: Hint,
    pub lits: Many<Lit>,
}

/// Why a literal is on a trail.
#[derive(Debug, Drop)]
pub enum Cause {
    Assumed,
    Decided,
    /// The clause left nothing else.
    Forced(Reason),
}

/// A literal of a trail.
#[derive(Debug, Drop)]
pub struct Entry {
    pub lit: Lit,
    pub cause: Cause,
}

/// What clauses say over a trail.
#[derive(Debug, Drop)]
pub enum Scan {
    /// None is false, and none forces a literal.
    Settled,
    /// The clause forces the literal.
    Unit(Lit, Reason),
    /// The clause is false.
    Conflict(Reason),
}
