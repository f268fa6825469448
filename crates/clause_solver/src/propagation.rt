//! What the clauses of a problem and the lemmas say over a trail, and what they force.

ghost use Rattle.std.specs.Prelude.{◌≡◌, ℕ, ◌<◌, ◌≤◌, ◌^◌, List, length, ◌∷◌, IfOk, OnOk, IfNone, IfSome};
ghost use Rattle.op_constraints.specs.declared.Constraint.{Constraint};
ghost use Rattle.op_constraints.specs.Meets.{IsClosed};
ghost use Rattle.clause_trail.specs.declared.Scan.TheVariants as scans;
ghost use Rattle.clause_trail.specs.Trails.{literals, IsUnknown};
ghost use Rattle.clause_trail.specs.Scans.{Scans, AllSettled};
ghost use Rattle.clause_analysis.specs.Caused.{assumed, IsCaused};
ghost use Rattle.clause_solver.specs.Held.{AreClauses};
ghost use Rattle.clause_solver.specs.Scans.{ScansLemmas};

use crate::Lemmas;
use clause_trail::{Cause, Entry, Reason, Scan, Trail, scan_given, scan_lemma};
use olm_base::Memory;
use op_constraints::Problem;
use std::alloc::Global;

/// What the lemmas say over the trail.
fn scan_lemmas(alloc: Global, trail: &Trail, lemmas: &Lemmas) -> Result<Scan, Memory>
    requires { length lemmas.now < 2 ^ 32 }
    ensures { IfOk result (λ scan. (problem : List (List Constraint)) → ScansLemmas problem lemmas.now (literals trail.now.entries) scan) }
{
    for number in 0..lemmas.len() {
        match scan_lemma(alloc, trail, number as u32, lemmas.lits(number))? {
            Scan::Settled => {}
            found => return Ok(found),
        }
    }
    Ok(Scan::Settled)
}

/// What the clauses of the problem and the lemmas say over the trail.
pub fn scan(
    alloc: Global,
    trail: &Trail,
    problem: &Problem,
    lemmas: &Lemmas,
) -> Result<Scan, Memory>
    requires { length lemmas.now < 2 ^ 32 }
    ensures { IfOk result (λ scan. Scans problem.now lemmas.now (literals trail.now.entries) scan) }
{
    match scan_given(alloc, trail, problem)? {
        Scan::Settled => scan_lemmas(alloc, trail, lemmas),
        found => Ok(found),
    }
}

/// Adds a literal of a variable of which nothing is known. There is room, since each entry is of a variable of its own.
pub(crate) fn put(trail: &mut Trail, entry: Entry) -> Result<(), Memory>
    requires var { entry.lit.var < trail.old.size }
    requires unknown { IsUnknown (literals trail.old.entries) entry.lit }
    ensures size { trail.new.size ≡ trail.old.size }
    ensures room { length trail.old.entries < trail.old.size }
    ensures pushed { OnOk result (trail.new.entries ≡ entry ∷ trail.old.entries) }
{
    let count = trail.len();
    prove!(count < trail.size());
    trail.push(entry)
}

/// Adds what the clauses force, until each of them is settled, or one is false.
pub fn propagate(
    alloc: Global,
    trail: &mut Trail,
    problem: &Problem,
    lemmas: &Lemmas,
) -> Result<Option<Reason>, Memory>
    requires closed { IsClosed problem.now }
    requires few { length lemmas.now < 2 ^ 32 }
    requires clauses { AreClauses problem.now lemmas.now }
    requires caused { IsCaused problem.now lemmas.now trail.old }
    ensures caused { IfOk result (λ _. IsCaused problem.now lemmas.now trail.new) }
    ensures assumed { IfOk result (λ _. assumed trail.new.entries ≡ assumed trail.old.entries) }
    ensures more { IfOk result (λ _. length trail.old.entries ≤ length trail.new.entries) }
    ensures settled { IfOk result (λ found. IfNone found (AllSettled problem.now lemmas.now (literals trail.new.entries))) }
    ensures conflict { IfOk result (λ found. IfSome found (λ reason.
        Scans problem.now lemmas.now (literals trail.new.entries) (scans.Conflict reason))) }
{
    loop {
        match scan(alloc, trail, problem, lemmas)? {
            Scan::Settled => return Ok(None),
            Scan::Conflict(reason) => return Ok(Some(reason)),
            Scan::Unit(lit, reason) => {
                let cause = Cause::Forced(reason);
                put(trail, Entry { lit, cause })?;
            }
        }
    }
}
