//! Clauses, logs of clauses that follow from a problem, and certificates.
//!
//! A log holds lemmas. Each of them is a clause with hints, by which one can see that it follows from the problem's
//! own clauses and the earlier lemmas: with the clause denied, each hint but the last forces one literal more, and
//! the last one is false. A certificate has a log and a finding, which refers to it. Nothing here says how a search
//! found any of it. The definitions stand in `specs/`: `Clauses`, `Follows` and `Accepted`; what they promise
//! together stands in `specs/Laws.antt`, and the functions of `laws` prove it.
#![tactic(auto)]

mod laws;
mod reading;
mod sink;
mod text;

pub use laws::{
    accepted_is_right, clauses_are_the_problem, following_holds, given_clauses_hold, log_holds,
    longer_logs_keep, read_is_bounded, read_is_written, written_is_read,
};
use olm_base::Many;
use op_constraints::{Lit, VarId};
pub use reading::{CertText, read_certificate};
pub use sink::ProofSink;
pub use text::write_certificate;
use thiserror::Error;

/// Names a clause that is there already.
#[derive(Debug, Drop)]
pub enum Hint {
    /// The lemma with this number.
    Lemma(u32),
    /// A clause of the constraint with this number among those of the variable. Members are named for an `AtMost`
    /// alone: one more than it allows.
    Given {
        var: VarId,
        constraint: u32,
        members: Many<VarId>,
    },
}

/// A clause, and the hints by which it follows.
#[derive(Debug, Drop)]
pub struct Lemma {
    pub lits: Many<Lit>,
    pub hints: Many<Hint>,
}

/// A clause that no log keeps, and the hints by which it follows.
#[derive(Debug, Drop)]
pub struct Refutation {
    pub lits: Many<Lit>,
    pub hints: Many<Hint>,
}

/// Lemmas, numbered from 0, each of which may use the earlier ones.
#[derive(Debug, Drop)]
pub struct Log {
    pub lemmas: Many<Lemma>,
}

/// Why a clause doesn't follow by its hints. `BadClause` comes first; then the hints are taken in order.
#[derive(Clone, Copy, Debug, PartialEq, Eq, Error)]
pub enum LogCause {
    /// A variable of the clause is repeated or unknown.
    #[error("a variable of the clause is repeated or unknown")]
    BadClause,
    /// The hint names a lemma that isn't earlier.
    #[error("a hint names a lemma that is not earlier")]
    NoSuchHint,
    /// There is no such constraint; or the members of an `AtMost` are repeated, not in its list, or not one more than
    /// it allows; or members are given for another kind.
    #[error("a hint names no clause of the problem")]
    BadGiven,
    /// A hint before the last doesn't force one literal.
    #[error("a hint before the last forces no literal")]
    HintNotUnit,
    /// The last hint isn't false, or there is no hint.
    #[error("the last hint is not false")]
    NoConflict,
}

/// The first lemma of a log that doesn't follow, by its number from 0.
#[derive(Clone, Copy, Debug, PartialEq, Eq, Error)]
#[error("lemma {number}: {cause}")]
pub struct LogFault {
    pub number: u32,
    pub cause: LogCause,
}

/// What a certificate shows of its problem.
#[derive(Debug, Drop)]
pub enum Finding {
    /// The walk is best. There is a refutation for every choice and every number below the one taken, in order: the
    /// choice, the number, and a clause that denies the candidate beside things chosen before.
    Chosen {
        walk: Many<u32>,
        refutations: Many<(u32, u32, Refutation)>,
    },
    /// No set meets the problem: the clause denies mandatory variables alone.
    Refused {
        refutation: Refutation,
    },
    /// The search ended before it knew.
    Undecided,
}

/// A finding about a problem, with the log that it stands on.
#[derive(Debug, Drop)]
pub struct Certificate {
    /// The number of variables of the problem.
    pub vars: u32,
    pub log: Log,
    pub finding: Finding,
}
