//! What the constraints of a problem say over a trail.

ghost use Rattle.std.specs.Prelude.{◌≡◌, ℕ, ◌<◌, ◌≤◌, List, length, IfOk};
ghost use Rattle.std.specs.List.{AllByRecursion};
ghost use Rattle.op_constraints.specs.declared.Lit.{Lit};
ghost use Rattle.op_constraints.specs.declared.TheConstants.{VAR_LIMIT};
ghost use Rattle.op_constraints.specs.Kept.{HasDistinctMembers};
ghost use Rattle.clause_trail.specs.Trails.{literals};
ghost use Rattle.clause_trail.specs.Scans.{ScansConstraint, ScansVariable, ScansGiven};

use crate::members::scan_at_most;
use crate::rows::scan_row;
use crate::{Scan, Trail};
use olm_base::Memory;
use op_constraints::{Constraint, Problem, VarId};
use std::alloc::Global;

/// What a constraint of the variable says over the trail.
fn scan_constraint(
    alloc: Global,
    trail: &Trail,
    var: VarId,
    place: u32,
    constraint: &Constraint,
) -> Result<Scan, Memory>
    requires { HasDistinctMembers constraint.now }
    ensures { IfOk result (λ scan. ScansConstraint (literals trail.now.entries) var place constraint.now scan) }
{
    match constraint {
        Constraint::Mandatory => scan_row(alloc, trail, var, place, true, &[], true),
        Constraint::Prohibited => scan_row(alloc, trail, var, place, false, &[], true),
        Constraint::Dependency(members) => {
            scan_row(alloc, trail, var, place, false, members.as_slice(), true)
        }
        Constraint::Conflict(other) => {
            scan_row(alloc, trail, var, place, false, &[*other], false)
        }
        Constraint::AtMost { most, members } => {
            scan_at_most(alloc, trail, var, place, *most, members.as_slice())
        }
    }
}

/// What the constraints of the variable say over the trail.
fn scan_variable(
    alloc: Global,
    trail: &Trail,
    var: VarId,
    constraints: &[Constraint],
) -> Result<Scan, Memory>
    requires few { length constraints.now ≤ VAR_LIMIT }
    requires distinct { AllByRecursion HasDistinctMembers constraints.now }
    ensures { IfOk result (λ scan. ScansVariable (literals trail.now.entries) var constraints.now scan) }
{
    for (place, constraint) in constraints.iter().enumerate() {
        match scan_constraint(alloc, trail, var, place as u32, constraint)? {
            Scan::Settled => {}
            found => return Ok(found),
        }
    }
    Ok(Scan::Settled)
}

/// What the clauses of the problem say over the trail.
pub fn scan_given(alloc: Global, trail: &Trail, problem: &Problem) -> Result<Scan, Memory>
    ensures { IfOk result (λ scan. (earlier : List (List Lit)) → ScansGiven problem.now earlier (literals trail.now.entries) scan) }
{
    for index in 0..problem.len() {
        let var = VarId(index as u32);
        match scan_variable(alloc, trail, var, problem.constraints(var))? {
            Scan::Settled => {}
            found => return Ok(found),
        }
    }
    Ok(Scan::Settled)
}
