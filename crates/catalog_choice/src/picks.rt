// What a walk picks.
ghost use Rattle.std.specs.Prelude.{◌≡◌, ◌<◌, ℕ, List, Some, length, slice_index, IfOk};
ghost use Rattle.std.specs.List.{filter_map};
ghost use Rattle.op_constraints.specs.Meets.{IsClosed};
ghost use Rattle.op_constraints.specs.Walks.{choice, picks, taken, walk};
ghost use Rattle.catalog_choice.specs.Picked as spec;

use crate::Question;
use answer_lines::Pick;
use olm_base::{Many, Memory};
use op_constraints::{Problem, VarId, Walk};
use problem_build::VarName;
use std::alloc::Global;

/// Takes the member with this number of the list that is to be chosen from.
fn take_member(path: &mut Walk<'_>, number: u32) -> VarId
    requires { number < length (choice path.old.problem path.old.chosen) }
    ensures member { result ≡ slice_index (choice path.old.problem path.old.chosen) number }
    ensures taken { path.new ≡ taken path.old number }
{
    let members = match path.next_choice() {
        Some(members) => members,
        None => &[],
    };
    let member = members[number as usize];
    path.take(number);
    member
}

/// The variables that the numbers pick, in their order.
fn picked_variables(alloc: Global, problem: &Problem, numbers: &[u32]) -> Result<Vec<VarId>, Memory>
    requires closed { IsClosed problem.now }
    requires walked { (chosen : List ℕ) × (walk problem.now numbers.now ≡ Some chosen) }
    ensures { IfOk result (λ members. members.items ≡ picks problem.now numbers.now) }
{
    let mut path = Walk::new(alloc, problem)?;
    let mut members = Vec::new(alloc);
    for number in numbers {
        members.push(take_member(&mut path, *number))?;
    }
    Ok(members)
}

fn pick_of(name: &VarName) -> Result<Option<Pick>, Memory>
    ensures { IfOk result (λ pick. pick ≡ spec.pick_of name.now) }
{
    match name {
        VarName::Entry { taken } => Ok(Some(Pick::Take(taken.clone()?))),
        VarName::Installed(name) => Ok(Some(Pick::Keep(name.clone()?))),
        VarName::Subscription(_) | VarName::OnePackage(_) | VarName::OneKind(_) => Ok(None),
    }
}

fn pick_at(names: &[VarName], variable: VarId) -> Result<Option<Pick>, Memory>
    ensures { IfOk result (λ pick. pick ≡ spec.pick_at names.now variable) }
{
    match names.get(variable.0 as usize) {
        Some(name) => pick_of(name),
        None => Ok(None),
    }
}

fn picks_among(alloc: Global, names: &[VarName], variables: &[VarId]) -> Result<Many<Pick>, Memory>
    ensures { IfOk result (λ found. found ≡ filter_map (spec.pick_at names.now) variables.now) }
{
    let mut found = Many::new(alloc);
    for variable in variables {
        if let Some(pick) = pick_at(names, *variable)? {
            found.push(pick)?;
        }
    }
    Ok(found)
}

/// What a walk of the question's problem picks, in the walk's order.
pub fn picks_of(alloc: Global, question: &Question, numbers: &[u32]) -> Result<Many<Pick>, Memory>
    requires closed { IsClosed question.now.problem }
    requires walked { (chosen : List ℕ) × (walk question.now.problem numbers.now ≡ Some chosen) }
    ensures { IfOk result (λ found. found ≡ spec.picked question.now.names question.now.problem numbers.now) }
{
    let variables = picked_variables(alloc, &question.problem, numbers)?;
    picks_among(alloc, question.names.as_slice(), variables.as_slice())
}
