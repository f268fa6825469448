//! The search for the best walk, with a certificate of what it finds.
#![tactic(auto)]

mod decisions;
mod denials;
mod learnt;
mod lists;
mod naming;
mod search;
mod sets;

pub use decisions::{decide, decide_plain};
use derivations::Certificate;
use olm_base::Many;
use op_constraints::VarSet;

/// What a search decides of a problem.
#[derive(Debug, Drop)]
pub enum Decision {
    /// The best walk, everything that it chose, and the certificate.
    Chosen {
        walk: Many<u32>,
        set: VarSet,
        certificate: Certificate,
    },
    /// No set meets the problem.
    Refused {
        certificate: Certificate,
    },
    /// The budget was spent before it was known.
    Undecided {
        certificate: Certificate,
    },
}
