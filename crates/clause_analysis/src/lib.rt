//! What is learnt from a conflict.
//!
//! Over a trail a clause is false. What is needed for that are the denials of its literals. Going down the trail from the newest entry, an
//! entry that is needed and that a clause forced is replaced by what that clause needed. Each time the clause of all denials of what is
//! needed follows, by the clauses so far, the last one first. The walk ends where the newest needed entry was assumed, which refutes the
//! assumptions, or where it is the only one that is needed of its level, which gives a lemma.
#![tactic(auto)]

ghost use Rattle.std.specs.Prelude.{◌≡◌, ℕ, ◌+◌, ◌<◌, ◌≤◌, true, List, IfOk, length, map, drop, reverse};
ghost use Rattle.op_constraints.specs.declared.Lit.{Lit};
ghost use Rattle.op_constraints.specs.declared.Constraint.{Constraint};
ghost use Rattle.derivations.specs.Clauses.{denial};
ghost use Rattle.clause_trail.specs.declared.Scan.TheVariants as scans;
ghost use Rattle.clause_trail.specs.Trails.{literals};
ghost use Rattle.clause_trail.specs.Scans.{Scans};
ghost use Rattle.clause_analysis.specs.Caused.{IsCaused};
ghost use Rattle.clause_analysis.specs.Needs.{needed_of, IsDecision, IsBack};
ghost use Rattle.clause_analysis.specs.Analysed.{IsAnalysed};

mod needs;

use clause_trail::{Cause, Reason, Trail};
use derivations::{Lemma as LogLemma, Refutation};
use needs::{Needs, Rest, back_of, denials, deny, rest_of_level};
use olm_base::{Many, Memory};
use op_constraints::Lit;
use std::alloc::Global;

/// A lemma that was learnt from a conflict.
#[derive(Debug, Drop)]
pub struct Learnt {
    pub lemma: LogLemma,
    /// How many of the newest entries are to be taken back.
    pub back: usize,
    /// What the lemma then forces.
    pub forced: Lit,
}

/// What is learnt from a conflict.
#[derive(Debug, Drop)]
pub enum Analysis {
    Lemma(Learnt),
    /// The conflict comes from what is assumed alone.
    Refuted(Refutation),
}

/// The refutation of what is needed from this depth on.
fn refute(alloc: Global, trail: &Trail, needs: Needs, depth: usize) -> Result<Refutation, Memory>
    requires { depth ≤ length trail.now.entries }
    ensures lits { IfOk result (λ r. r.lits ≡ map (λ e. denial e.lit) (needed_of needs.needed.items (drop depth trail.now.entries))) }
    ensures hints { IfOk result (λ r. r.hints ≡ reverse needs.hints.items) }
{
    let lits = denials(alloc, trail, &needs, depth)?;
    Ok(Refutation {
        lits: Many::from_vec(lits),
        hints: needs.into_hints(),
    })
}

/// The lemma of what is needed from this depth on, of which the first is the only one of its level.
fn learn(
    alloc: Global,
    trail: &Trail,
    needs: Needs,
    lit: &Lit,
    depth: usize,
    start: usize,
) -> Result<Learnt, Memory>
    requires depth { depth < length trail.now.entries }
    requires start { start < length trail.now.entries }
    requires decision { IsDecision trail.now.entries start }
    ensures lits { IfOk result (λ l. l.lemma.lits ≡ map (λ e. denial e.lit) (needed_of needs.needed.items (drop depth trail.now.entries))) }
    ensures hints { IfOk result (λ l. l.lemma.hints ≡ reverse needs.hints.items) }
    ensures back { IfOk result (λ l. IsBack needs.needed.items trail.now.entries (start + 1) l.back) }
    ensures forced { IfOk result (λ l. l.forced ≡ denial lit.now) }
{
    let forced = deny(lit);
    let back = back_of(trail, &needs, start);
    let lits = denials(alloc, trail, &needs, depth)?;
    let lemma = LogLemma {
        lits: Many::from_vec(lits),
        hints: needs.into_hints(),
    };
    Ok(Learnt {
        lemma,
        back,
        forced,
    })
}

/// What is learnt from a clause that is false over the trail.
pub fn analyze(alloc: Global, trail: &Trail, conflict: &Reason) -> Result<Analysis, Memory>
    ensures { IfOk result (λ analysis. (problem : List (List Constraint)) (earlier : List (List Lit))
        → IsCaused problem earlier trail.now
        → Scans problem earlier (literals trail.now.entries) (scans.Conflict conflict.now)
        → IsAnalysed problem earlier trail.now.entries analysis) }
{
    let mut needs = Needs::new(alloc, trail.size())?;
    needs.add(alloc, conflict)?;
    let mut other = 0;
    for depth in 0..trail.len() {
        let entry = trail.entry(depth);
        if !needs.has(entry.lit.var) {
            continue;
        }
        match &entry.cause {
            Cause::Assumed => {
                return Ok(Analysis::Refuted(refute(alloc, trail, needs, depth)?));
            }
            Cause::Decided => {
                return Ok(Analysis::Lemma(learn(alloc, trail, needs, &entry.lit, depth, depth)?));
            }
            Cause::Forced(reason) => match rest_of_level(trail, &needs, depth, other) {
                Rest::Alone(start) => {
                    return Ok(Analysis::Lemma(learn(
                        alloc, trail, needs, &entry.lit, depth, start,
                    )?));
                }
                Rest::Needed(next) => {
                    needs.add(alloc, reason)?;
                    other = next;
                }
            },
        }
    }
    let end = trail.len();
    Ok(Analysis::Refuted(refute(alloc, trail, needs, end)?))
}
