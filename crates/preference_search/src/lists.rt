// The list that a search chooses from next.
ghost use Rattle.std.specs.Prelude.{◌≡◌, [], ◌∷◌, ◌<◌, ◌≤◌, suc, drop, length, slice_get, Some, IfNone, IfSome};
ghost use Rattle.std.specs.List.{AllByRecursion, list_any};
ghost use Rattle.op_constraints.specs.declared.TheConstants.{VAR_LIMIT};
ghost use Rattle.op_constraints.specs.Meets.{at};
ghost use Rattle.op_constraints.specs.Walks.{is_among, passed, dependencies, waiting};
ghost use Rattle.preference_search.specs.Lists.{IsNext};

use crate::denials::is_in;
use op_constraints::{Constraint, Problem, VarId};

/// The list of a chosen variable's Dependency that waits first.
#[derive(Drop)]
pub(crate) struct Open<'p> {
    pub(crate) owner: VarId,
    pub(crate) place: u32,
    pub(crate) members: &'p [VarId],
}

/// Whether one of the members is in.
fn has_any(bits: &[bool], members: &[VarId]) -> bool
    ensures { result ≡ list_any (at bits.now) members.now }
{
    for member in members {
        if is_in(bits, *member) {
            return true;
        }
    }
    false
}

/// The first Dependency list that holds nothing of the set, with its constraint's number.
fn first_list<'p>(bits: &[bool], constraints: &'p [Constraint]) -> Option<(usize, &'p [VarId])>
    ensures none { IfNone result (passed (at bits.now) (dependencies constraints.now) ≡ []) }
    ensures some { IfSome result (λ r.
        passed (at bits.now) (dependencies constraints.now)
        ≡ r.1.now ∷ dependencies (drop (suc r.0) constraints.now)) }
    ensures at { IfSome result (λ r. slice_get constraints.now r.0 ≡ Some (Constraint.Dependency r.1.now)) }
    ensures within { IfSome result (λ r. r.0 < length constraints.now) }
{
    for (place, constraint) in constraints.iter().enumerate() {
        if let Constraint::Dependency(members) = constraint {
            if !has_any(bits, members.as_slice()) {
                return Some((place, members.as_slice()));
            }
        }
    }
    None
}

/// The first list that waits. It goes through the lists of all that is chosen.
pub(crate) fn next_open<'p>(
    problem: &'p Problem,
    chosen: &[VarId],
    bits: &[bool],
) -> Option<Open<'p>>
    requires within { AllByRecursion (λ v. v < length problem.now) chosen.now }
    requires same { at bits.now ≡ is_among chosen.now }
    ensures none { IfNone result (waiting problem.now chosen.now ≡ []) }
    ensures some { IfSome result (λ found. IsNext problem.now chosen.now found.owner found.place found.members.now) }
    ensures few { IfSome result (λ found. length found.members.now ≤ VAR_LIMIT) }
{
    let _count = problem.len();
    for owner in chosen {
        if let Some((place, members)) = first_list(bits, problem.constraints(*owner)) {
            return Some(Open {
                owner: *owner,
                place: place as u32,
                members,
            });
        }
    }
    None
}
