// Lists that are looked up by variable, and the constraints that name each variable.
ghost use Rattle.std.specs.Prelude.{◌≡◌, ℕ, [], ◌<◌, ◌≤◌, ◌+◌, true, length, replicate, slice_get, Some, IfOk, OnOk, IfNone, IfSome};
ghost use Rattle.op_constraints.specs.declared.TheConstants.{VAR_LIMIT};
ghost use Rattle.op_constraints.specs.declared.Constraint.{Constraint};
ghost use Rattle.op_constraints.specs.Walks.{is_among};
ghost use Rattle.preference_search.specs.Naming.{may_deny, list_of, IsListed, IsGrown, IsIndexed};

use olm_base::{Many, Memory};
use op_constraints::{Constraint, Problem, VarId};
use std::alloc::Global;
use std::marker::Model;

/// A list for each of the first variables.
#[derive(Drop)]
pub(crate) struct ByVariable<T> {
    lists: Vec<Many<T>>,
}

impl<T> Model for ByVariable<T> {
    ghost use Rattle.std.specs.Prelude.{List};

    ghost Value = { List (List T) };

    ghost view = { λ b. b.lists.items };
}

impl<T: Copy + Drop> ByVariable<T> {
    /// An empty list for each of so many variables.
    pub(crate) fn new(alloc: Global, count: usize) -> Result<ByVariable<T>, Memory>
        ensures { IfOk result (λ lists. lists ≡ replicate count []) }
    {
        let mut lists = Vec::new(alloc);
        for _ in 0..count {
            lists.push(Many::new(alloc))?;
        }
        Ok(ByVariable { lists })
    }

    /// The variable's list, where it has one.
    pub(crate) fn list(&self, var: VarId) -> Option<&[T]>
        ensures some { IfSome result (λ list. list.now ≡ list_of self.now var) }
        ensures within { IfSome result (λ list. var < length self.now) }
        ensures none { IfNone result (length self.now ≤ var) }
    {
        let index = var.0 as usize;
        if index < self.lists.len() {
            Some(self.lists[index].as_slice())
        } else {
            None
        }
    }

    /// Appends the item to the variable's list, where it has one.
    pub(crate) fn add(&mut self, var: VarId, item: T) -> Result<(), Memory>
        ensures listed { OnOk result (IsListed self.new var item) }
        ensures grown { IsGrown self.old self.new }
    {
        let index = var.0 as usize;
        if index < self.lists.len() {
            self.lists[index].push(item)?;
        }
        Ok(())
    }

    /// Appends the item to the list of each of the variables.
    fn add_all(&mut self, vars: &[VarId], item: T) -> Result<(), Memory>
        ensures listed { OnOk result ((w : ℕ) → is_among vars.now w ≡ true → IsListed self.new w item) }
        ensures grown { IsGrown self.old self.new }
    {
        for var in vars {
            self.add(*var, item)?;
        }
        Ok(())
    }
}

/// Where a constraint stands: at which variable, and with which number.
#[derive(Clone, Copy, Debug)]
pub(crate) struct Place {
    pub(crate) owner: u32,
    pub(crate) constraint: u32,
}

/// Lists the constraint at each variable that its denials may name.
fn list_constraint(
    places: &mut ByVariable<Place>,
    owner: VarId,
    number: u32,
    constraint: &Constraint,
) -> Result<(), Memory>
    ensures listed { OnOk result ((w : ℕ) → may_deny owner w constraint.now ≡ true → IsListed places.new w (record { owner = owner; constraint = number })) }
    ensures grown { IsGrown places.old places.new }
{
    let place = Place {
        owner: owner.0,
        constraint: number,
    };
    match constraint {
        Constraint::Mandatory => Ok(()),
        Constraint::Prohibited => places.add(owner, place),
        Constraint::Dependency(members) => {
            if members.as_slice().is_empty() {
                places.add(owner, place)
            } else {
                Ok(())
            }
        }
        Constraint::Conflict(other) => places.add_all(&[owner, *other], place),
        Constraint::AtMost { members, .. } => places.add_all(members.as_slice(), place),
    }
}

/// Lists the constraints of a variable.
fn list_variable(
    places: &mut ByVariable<Place>,
    owner: VarId,
    constraints: &[Constraint],
) -> Result<(), Memory>
    requires few { length constraints.now ≤ VAR_LIMIT }
    ensures listed { OnOk result ((number w : ℕ) (c : Constraint)
        → slice_get constraints.now number ≡ Some c
        → may_deny owner w c ≡ true
        → IsListed places.new w (record { owner = owner; constraint = number })) }
    ensures grown { IsGrown places.old places.new }
{
    for (number, constraint) in constraints.iter().enumerate() {
        list_constraint(places, owner, number as u32, constraint)?;
    }
    Ok(())
}

/// Of each variable, the places of the constraints whose denials may name it. It goes through the whole problem.
pub(crate) fn places_of(alloc: Global, problem: &Problem) -> Result<ByVariable<Place>, Memory>
    ensures { IfOk result (λ places. IsIndexed problem.now places) }
{
    let count = problem.len();
    let mut places = ByVariable::new(alloc, count)?;
    for number in 0..count {
        let var = VarId(number as u32);
        list_variable(&mut places, var, problem.constraints(var))?;
    }
    Ok(places)
}
