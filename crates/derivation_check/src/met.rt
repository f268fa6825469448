// The first constraint that a set breaks.
ghost use Rattle.std.specs.Prelude.{◌≡◌, ◌<◌, ◌^◌, length};
ghost use Rattle.std.specs.List.{AllByRecursion};
ghost use Rattle.op_constraints.specs.Meets.{at, IsWithin, IsClosed};
ghost use Rattle.derivation_check.specs.Faults.{broken_of, met_fault};

use crate::CertFault;
use op_constraints::{Constraint, Problem, VarId, VarSet, is_met};

/// The first of the variable's constraints that isn't true of the set.
fn broken_constraint(set: &VarSet, var: VarId, constraints: &[Constraint]) -> Option<u32>
    requires var { var < length set.now }
    requires within { AllByRecursion (λ c. IsWithin (length set.now) c) constraints.now }
    requires short { length constraints.now < 2 ^ 32 }
    ensures { result ≡ broken_of (at set.now) var 0 constraints.now }
{
    for (place, constraint) in constraints.iter().enumerate() {
        if !is_met(set, var, constraint) {
            return Some(place as u32);
        }
    }
    None
}

/// The first of the problem's constraints that isn't true of the set.
pub(crate) fn not_met(problem: &Problem, set: &VarSet) -> Option<CertFault>
    requires closed { IsClosed problem.now }
    requires size { length set.now ≡ length problem.now }
    ensures { result ≡ met_fault (at set.now) 0 problem.now }
{
    for v in 0..problem.len() {
        let var = VarId(v as u32);
        match broken_constraint(set, var, problem.constraints(var)) {
            None => {}
            Some(constraint) => {
                return Some(CertFault::NotMet {
                    var: v as u32,
                    constraint,
                });
            }
        }
    }
    None
}
