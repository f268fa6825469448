//! Checks logs and certificates.
//!
//! The checker shares no code with any search, and takes all its memory when it is made. It reads a certificate in
//! time linear in its literals, its hints and the clauses that they name, beside walks over the problem.
#![tactic(auto)]

mod checker;
mod denials;
mod hints;
mod laws;
mod marks;
mod members;
mod met;
mod pairs;
mod scan;
mod steps;
mod walking;

pub use checker::Checker;
pub use derivations::{LogCause, LogFault};
pub use laws::no_fault_is_accepted;
use thiserror::Error;

/// The first fault of a certificate. The variants are tested in this order; `Denies` and `Step` name the first
/// refutation of which they hold.
#[derive(Clone, Copy, Debug, PartialEq, Eq, Error)]
pub enum CertFault {
    /// The certificate's number of variables, found, isn't the problem's, expected.
    #[error("{found} variables where the problem has {expected}")]
    WrongSize {
        found: u32,
        expected: u32,
    },
    /// A lemma doesn't follow.
    #[error("{0}")]
    Lemma(LogFault),
    /// The first position at which a number is out of its list, or no list waits; where a list waits at the end, the
    /// walk's length.
    #[error("the walk fails at position {position}")]
    Walk {
        position: u32,
    },
    /// The first constraint that isn't true of all that the walk chose.
    #[error("constraint {constraint} of variable {var} is not met")]
    NotMet {
        var: u32,
        constraint: u32,
    },
    /// The first number below the one taken at a choice whose refutation isn't next in the list.
    #[error("no refutation of candidate {candidate} of choice {choice}")]
    Missing {
        choice: u32,
        candidate: u32,
    },
    /// A refutation is left over, at this position of the list.
    #[error("refutation {position} is left over")]
    Extra {
        position: u32,
    },
    /// A literal is no denial of the candidate or of something chosen before its choice.
    #[error("the refutation of candidate {candidate} of choice {choice} denies something else")]
    Denies {
        choice: u32,
        candidate: u32,
    },
    /// The refutation doesn't follow.
    #[error("the refutation of candidate {candidate} of choice {choice} fails: {cause}")]
    Step {
        choice: u32,
        candidate: u32,
        cause: LogCause,
    },
    /// A literal of a refusal's refutation is no denial of a mandatory variable.
    #[error("the refutation of the whole denies something else")]
    WholeDenies,
    /// A refusal's refutation doesn't follow.
    #[error("the refutation of the whole fails: {cause}")]
    WholeStep {
        cause: LogCause,
    },
}

/// What an accepted certificate shows.
#[derive(Clone, Copy, Debug, PartialEq, Eq)]
pub enum Verdict {
    /// Its walk, of this length, is best.
    Chosen { length: u32 },
    /// No set meets the problem.
    Refused,
    /// Its log has this many lemmas, and shows no more.
    Undecided { lemmas: u32 },
}
