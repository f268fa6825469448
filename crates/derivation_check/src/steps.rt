// Whether refutations follow from a log.
ghost use Rattle.std.specs.Prelude.{◌≡◌, length, IsTrue};
ghost use Rattle.std.specs.List.{AllByRecursion};
ghost use Rattle.op_constraints.specs.Meets.{IsClosed};
ghost use Rattle.derivations.specs.Follows.{is_clause, clauses, fault_of};
ghost use Rattle.derivation_check.specs.Faults.{steps_fault};

use crate::CertFault;
use crate::hints::fault;
use crate::marks::Marks;
use derivations::{Lemma, LogCause, Refutation};
use op_constraints::Problem;

/// Why the refutation doesn't follow from the whole log.
pub(crate) fn refutation_fault(
    problem: &Problem,
    lemmas: &[Lemma],
    listed: &mut Marks,
    marks: &mut Marks,
    refutation: &Refutation,
) -> Option<LogCause>
    requires size { length marks.old ≡ length problem.now }
    requires listed { length listed.old ≡ length problem.now }
    requires closed { IsClosed problem.now }
    requires within { AllByRecursion (λ lemma. IsTrue (is_clause problem.now lemma.lits)) lemmas.now }
    ensures fault { result ≡ fault_of problem.now (clauses lemmas.now) refutation.now.lits refutation.now.hints }
    ensures listed { length listed.new ≡ length listed.old }
    ensures same { length marks.new ≡ length marks.old }
{
    fault(
        problem,
        lemmas,
        lemmas.len(),
        listed,
        marks,
        refutation.lits.as_slice(),
        refutation.hints.as_slice(),
    )
}

/// The first refutation that doesn't follow.
pub(crate) fn unshown(
    problem: &Problem,
    lemmas: &[Lemma],
    listed: &mut Marks,
    marks: &mut Marks,
    steps: &[(u32, u32, Refutation)],
) -> Option<CertFault>
    requires size { length marks.old ≡ length problem.now }
    requires listed { length listed.old ≡ length problem.now }
    requires closed { IsClosed problem.now }
    requires within { AllByRecursion (λ lemma. IsTrue (is_clause problem.now lemma.lits)) lemmas.now }
    ensures fault { result ≡ steps_fault problem.now lemmas.now steps.now }
    ensures listed { length listed.new ≡ length listed.old }
    ensures same { length marks.new ≡ length marks.old }
{
    for step in steps {
        match refutation_fault(problem, lemmas, listed, marks, &step.2) {
            None => {}
            Some(cause) => {
                return Some(CertFault::Step {
                    choice: step.0,
                    candidate: step.1,
                    cause,
                });
            }
        }
    }
    None
}
