//! Walks over a problem.

ghost use Rattle.std.specs.Prelude.{◌≡◌, ℕ, [], ◌∷◌, ◌<◌, ◌≤◌, ◌+◌, suc, IfOk, IfNone, IfSome, Some, None, length, drop, List, true, false, vec_capacity, IsTrue, ◌↔◌};
ghost use Rattle.std.specs.List.{AllByRecursion, list_any};
ghost use Rattle.op_constraints.specs.Meets.{at, IsWithin, IsClosed};
ghost use Rattle.op_constraints.specs.Walks.{is_among, is_mandatory, waiting, choice, walk, passed, dependencies, mandatory, begun, taken, IsFirstWalk};

use crate::sets::has_any;
use crate::{Constraint, Problem, VarId, VarSet};
use olm_base::Memory;
use std::alloc::Global;
use std::marker::Model;

/// The first Dependency list from a place on that holds nothing of the set, and the place after it.
pub(crate) fn next_list<'p>(
    constraints: &'p [Constraint],
    place: usize,
    set: &VarSet,
) -> Option<(usize, &'p [VarId])>
    requires { AllByRecursion (λ c. IsWithin (length set.now) c) constraints.now }
    ensures none { IfNone result (passed (at set.now) (dependencies (drop place constraints.now)) ≡ []) }
    ensures some { IfSome result (λ r.
        passed (at set.now) (dependencies (drop place constraints.now))
        ≡ r.1.now ∷ dependencies (drop (suc r.0) constraints.now)) }
    ensures at { IfSome result (λ r.
        passed (at set.now) (dependencies (drop r.0 constraints.now))
        ≡ r.1.now ∷ dependencies (drop (suc r.0) constraints.now)) }
    ensures open { IfSome result (λ r. list_any (at set.now) r.1.now ≡ false) }
{
    let mut i = place;
    while i < constraints.len() {
        if let Constraint::Dependency(members) = &constraints[i] {
            if !has_any(set, members.as_slice()) {
                return Some((i, members.as_slice()));
            }
        }
        i += 1;
    }
    None
}

fn has_mandatory(constraints: &[Constraint]) -> bool
    ensures { result ≡ list_any is_mandatory constraints.now }
{
    for constraint in constraints {
        if let Constraint::Mandatory = constraint {
            return true;
        }
    }
    false
}

/// The variables with a Mandatory constraint, with room for every variable.
pub fn mandatory_variables(alloc: Global, problem: &Problem) -> Result<Vec<VarId>, Memory>
    ensures variables { IfOk result (λ chosen. chosen.items ≡ mandatory problem.now) }
    ensures room { IfOk result (λ chosen. length problem.now ≤ vec_capacity chosen) }
{
    let count = problem.len();
    let mut chosen = Vec::with_capacity(alloc, count)?;
    for index in 0..count {
        let var = VarId(index as u32);
        if has_mandatory(problem.constraints(var)) {
            chosen.push_reserved(var);
        }
    }
    Ok(chosen)
}

/// The set of these variables.
pub fn set_of(alloc: Global, problem: &Problem, vars: &[VarId]) -> Result<VarSet, Memory>
    requires { AllByRecursion (λ v. v < length problem.now) vars.now }
    ensures size { IfOk result (λ set. length set ≡ length problem.now) }
    ensures same { IfOk result (λ set. at set ≡ is_among vars.now) }
{
    let mut set = VarSet::new(alloc, problem)?;
    for var in vars {
        set.add(*var);
    }
    Ok(set)
}

/// A walk over a problem. It takes memory when it is made, and none after.
///
/// It keeps no agenda. The lists are those of the chosen variables in order, and a list that was passed stays passed, so the place of the
/// next one is enough.
#[derive(Drop)]
pub struct Walk<'p> {
    problem: &'p Problem,
    set: VarSet,
    chosen: Vec<VarId>,
    numbers: Vec<u32>,
    index: usize,
    place: usize,
}

impl<'p> Model for Walk<'p> {
    ghost use Rattle.op_constraints.specs.Walks.{Walked};

    ghost Value = { Walked };

    ghost use Rattle.op_constraints.specs.WalkInvariant.{Stands, Looks, HasRoom};
    ghost use Rattle.std.specs.Prelude.{vec_capacity};

    ghost view = { λ w. record { problem = w.problem.now; numbers = w.numbers.items; chosen = w.chosen.items } };

    ghost invariant = { λ w.
        Stands w.problem.now w.set w.chosen.items w.numbers.items
        × Looks w.problem.now w.chosen.items w.index w.place
        × HasRoom w.problem.now (vec_capacity w.chosen) (vec_capacity w.numbers) };
}

impl<'p> Walk<'p> {
    /// A walk that has taken no number yet.
    pub fn new(alloc: Global, problem: &'p Problem) -> Result<Walk<'p>, Memory>
        requires { IsClosed problem.now }
        ensures { IfOk result (λ walk. walk ≡ begun problem.now) }
    {
        let chosen = mandatory_variables(alloc, problem)?;
        let set = set_of(alloc, problem, chosen.as_slice())?;
        let numbers = Vec::with_capacity(alloc, problem.len())?;
        Ok(Walk {
            problem,
            set,
            chosen,
            numbers,
            index: 0,
            place: 0,
        })
    }

    /// The list that is to be chosen from next; none where no list waits. It lives as long as the problem.
    pub fn next_choice(&mut self) -> Option<&'p [VarId]>
        ensures same { self.new ≡ self.old }
        ensures none { IfNone result (waiting self.old.problem self.old.chosen ≡ []) }
        ensures some { IfSome result (λ members.
            (rest : List (List ℕ))
            × (waiting self.old.problem self.old.chosen ≡ members.now ∷ rest)) }
        ensures list { IfSome result (λ members. members.now ≡ choice self.old.problem self.old.chosen) }
        ensures walked { walk self.new.problem self.new.numbers ≡ Some self.new.chosen }
    {
        while self.index < self.chosen.len() {
            let constraints = self.problem.constraints(self.chosen[self.index]);
            match next_list(constraints, self.place, &self.set) {
                Some((place, members)) => {
                    self.place = place;
                    return Some(members);
                }
                None => {
                    self.index += 1;
                    self.place = 0;
                }
            }
        }
        None
    }

    /// All that is chosen, as a set.
    pub fn set(&self) -> &VarSet
        ensures size { length result.now ≡ length self.now.problem }
        ensures same { at result.now ≡ is_among self.now.chosen }
        ensures walked { walk self.now.problem self.now.numbers ≡ Some self.now.chosen }
    {
        &self.set
    }

    /// The numbers taken so far.
    pub fn numbers(&self) -> &[u32]
        ensures numbers { result.now ≡ self.now.numbers }
        ensures walked { walk self.now.problem self.now.numbers ≡ Some self.now.chosen }
    {
        self.numbers.as_slice()
    }

    /// Picks the member with this number of the list that is to be chosen from.
    pub fn take(&mut self, number: u32)
        requires { number < length (choice self.old.problem self.old.chosen) }
        ensures taken { self.new ≡ taken self.old number }
        ensures few { length self.new.chosen ≤ length self.new.problem }
    {
        if let Some(members) = self.next_choice() {
            let var = members[number as usize];
            self.set.add(var);
            self.chosen.push_reserved(var);
            self.numbers.push_reserved(number);
        }
    }

    /// Takes number 0 at every choice, up to the end or to a list that is empty, and says whether it is the end.
    pub fn follow_first(&mut self) -> bool
        requires { self.old.numbers ≡ [] }
        ensures problem { self.new.problem ≡ self.old.problem }
        ensures first { IsFirstWalk self.new.problem self.new.numbers }
        ensures end { IsTrue result ↔ (waiting self.new.problem self.new.chosen ≡ []) }
    {
        while let Some(members) = self.next_choice() {
            if members.is_empty() {
                return false;
            }
            self.take(0);
        }
        true
    }

    /// Goes back to the walk that has taken no number. It costs what was taken.
    pub fn restart(&mut self)
        ensures { self.new ≡ begun self.old.problem }
    {
        while let Some(_number) = self.numbers.pop() {
            if let Some(var) = self.chosen.pop() {
                self.set.remove(var);
            }
        }
        self.index = 0;
        self.place = 0;
    }
}
