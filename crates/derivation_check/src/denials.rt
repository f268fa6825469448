// What a refutation denies.
ghost use Rattle.std.specs.Prelude.{◌≡◌, ℕ, ◌<◌, ◌^◌, ◌==◌, ◌&&◌, ◌||◌, List, Some, length, map, slice_get};
ghost use Rattle.std.specs.List.{list_all};
ghost use Rattle.op_constraints.specs.Meets.{at};
ghost use Rattle.op_constraints.specs.Walks.{is_among, choice, mandatory, walk_from};
ghost use Rattle.derivations.specs.Accepted.{pairs_from};
ghost use Rattle.derivation_check.specs.Faults.{pair_of, denies_fault};
ghost use Rattle.derivation_check.specs.Denials.{denies_in, denies_with, denied_by, denied_at};

use crate::CertFault;
use derivations::Refutation;
use op_constraints::{Lit, VarId, VarSet, Walk};

/// Whether the variable is there, and in the set.
fn is_in(set: &VarSet, count: usize, var: VarId) -> bool
    requires { count ≡ length set.now }
    ensures { result ≡ at set.now var }
{
    (var.0 as usize) < count && set.has(var)
}

/// Whether each literal is a denial of something of the set.
pub(crate) fn deny_set(set: &VarSet, count: usize, lits: &[Lit]) -> bool
    requires { count ≡ length set.now }
    ensures { result ≡ list_all (λ l. denies_in (at set.now) l) lits.now }
{
    for lit in lits {
        if lit.positive || !is_in(set, count, lit.var) {
            return false;
        }
    }
    true
}

/// Whether each literal is a denial of the candidate or of something of the set.
fn deny_candidate(set: &VarSet, count: usize, candidate: VarId, lits: &[Lit]) -> bool
    requires { count ≡ length set.now }
    ensures { result ≡ list_all (λ l. denies_with candidate (at set.now) l) lits.now }
{
    for lit in lits {
        if lit.positive || !(candidate == lit.var || is_in(set, count, lit.var)) {
            return false;
        }
    }
    true
}

/// Whether the step's refutation denies its candidate and things of the set alone.
fn denies_its_own(
    members: &[VarId],
    set: &VarSet,
    count: usize,
    step: &(u32, u32, Refutation),
) -> bool
    requires { count ≡ length set.now }
    ensures { result ≡ denied_by (slice_get members.now step.now.1) (at set.now) step.now.2.lits }
{
    match members.get(step.1 as usize) {
        Some(candidate) => deny_candidate(set, count, *candidate, step.2.lits.as_slice()),
        None => false,
    }
}

/// The first of these steps, all of one choice, whose refutation denies anything else.
fn first_denied(
    members: &[VarId],
    set: &VarSet,
    count: usize,
    steps: &[(u32, u32, Refutation)],
) -> Option<CertFault>
    requires { count ≡ length set.now }
    ensures { result ≡ denied_at members.now (at set.now) steps.now }
{
    for step in steps {
        if !denies_its_own(members, set, count, step) {
            return Some(CertFault::Denies {
                choice: step.0,
                candidate: step.1,
            });
        }
    }
    None
}

/// The same for the choice at which a walk stands.
fn choice_denied(
    path: &mut Walk<'_>,
    count: usize,
    steps: &[(u32, u32, Refutation)],
) -> Option<CertFault>
    requires { count ≡ length path.old.problem }
    ensures same { path.new ≡ path.old }
    ensures fault { result ≡ denied_at (choice path.old.problem path.old.chosen) (is_among path.old.chosen) steps.now }
{
    let members = match path.next_choice() {
        Some(members) => members,
        None => &[],
    };
    first_denied(members, path.set(), count, steps)
}

/// The first refutation that denies more than its candidate and what was chosen before.
pub(crate) fn denied_else(
    path: &mut Walk<'_>,
    count: usize,
    numbers: &[u32],
    steps: &[(u32, u32, Refutation)],
) -> Option<CertFault>
    requires count { count ≡ length path.old.problem }
    requires begun { path.old.chosen ≡ mandatory path.old.problem }
    requires short { length steps.now < 2 ^ 32 }
    requires paired { map pair_of steps.now ≡ pairs_from 0 numbers.now }
    requires walked { (end : List ℕ) × (walk_from path.old.problem (mandatory path.old.problem) numbers.now ≡ Some end) }
    ensures problem { path.new.problem ≡ path.old.problem }
    ensures fault { result ≡ denies_fault path.old.problem numbers.now steps.now }
{
    let mut next = 0;
    for number in numbers {
        let end = next + *number as usize;
        match choice_denied(path, count, &steps[next..end]) {
            None => {}
            Some(fault) => return Some(fault),
        }
        next = end;
        path.take(*number);
    }
    None
}
