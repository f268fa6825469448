//! The best walk, found by trying the partial walks in their order.

ghost use Rattle.std.specs.Prelude.{◌≡◌, ℕ, [], ◌∷◌, ◌++◌, ◌<◌, ◌≤◌, length, slice_set, true, IfOk, OnOk, IfNone, IfSome, IsTrue, ◌↔◌, List};
ghost use Rattle.op_constraints.specs.declared.TheConstants.{VAR_LIMIT};
ghost use Rattle.op_constraints.specs.Meets.{IsClosed};
ghost use Rattle.op_constraints.specs.Walks.{waiting, member, Succeeds};
ghost use Rattle.op_constraints.specs.WalkInvariant.{Stands};
ghost use Rattle.op_constraints.specs.Tries.{IsTried};
ghost use Rattle.op_constraints.specs.Trails.{At, Trying, GoesOn};

use crate::walks::{mandatory_variables, next_list, set_of};
use crate::{Problem, VarId, VarSet};
use olm_base::{Many, Memory};
use std::alloc::Global;

/// What comes of trying partial walks in their order.
#[derive(Debug, Drop)]
pub enum Tried {
    /// This walk is best.
    Found { walk: Many<u32> },
    /// No walk succeeds.
    Nothing,
    /// There were more partial walks to try than were allowed.
    Spent,
}

/// A walk that can go back.
#[derive(Drop)]
struct Trail<'p> {
    problem: &'p Problem,
    set: VarSet,
    chosen: Vec<VarId>,
    numbers: Vec<u32>,
    /// How many partial walks were tried, this one among them.
    count: u32,
}

impl<'p> Trail<'p> {
    fn new(alloc: Global, problem: &'p Problem) -> Result<Trail<'p>, Memory>
        requires { IsClosed problem.now }
        ensures problem { IfOk result (λ trail. trail.problem.now ≡ problem.now) }
        ensures at { IfOk result (λ trail. (tries : ℕ) → At tries trail) }
    {
        let chosen = mandatory_variables(alloc, problem)?;
        let set = set_of(alloc, problem, chosen.as_slice())?;
        Ok(Trail {
            problem,
            set,
            chosen,
            numbers: Vec::new(alloc),
            count: 0,
        })
    }

    /// The first list that waits.
    fn choice(&self) -> Option<&'p [VarId]>
        requires { Stands self.now.problem.now self.now.set self.now.chosen.items self.now.numbers.items }
        ensures none { IfNone result (waiting self.now.problem.now self.now.chosen.items ≡ []) }
        ensures some { IfSome result (λ members.
            (rest : List (List ℕ))
            × (waiting self.now.problem.now self.now.chosen.items ≡ members.now ∷ rest)) }
        ensures few { IfSome result (λ members. length members.now ≤ VAR_LIMIT) }
    {
        let _count = self.problem.len();
        for var in &self.chosen {
            if let Some((_, members)) = next_list(self.problem.constraints(*var), 0, &self.set) {
                return Some(members);
            }
        }
        None
    }

    /// The member with this number of the first list that waits.
    fn offered(&self, number: usize) -> Option<VarId>
        requires { Stands self.now.problem.now self.now.set self.now.chosen.items self.now.numbers.items }
        ensures member { result ≡ member (waiting self.now.problem.now self.now.chosen.items) number }
        ensures few { IfSome result (λ var. number < VAR_LIMIT) }
    {
        match self.choice() {
            Some(members) => members.get(number).copied(),
            None => None,
        }
    }

    /// Whether no list waits, and all that is chosen meets the problem.
    fn succeeds(&self) -> bool
        requires { Stands self.now.problem.now self.now.set self.now.chosen.items self.now.numbers.items }
        ensures { IsTrue result ↔ Succeeds self.now.problem.now self.now.numbers.items }
    {
        self.choice().is_none() && self.problem.meets(&self.set)
    }

    /// Takes the number, which picks the variable.
    fn take(&mut self, number: u32, var: VarId) -> Result<(), Memory>
        requires { var < length self.old.set }
        ensures numbers { OnOk result (self.new.numbers.items ≡ self.old.numbers.items ++ number ∷ []) }
        ensures chosen { OnOk result (self.new.chosen.items ≡ self.old.chosen.items ++ var ∷ []) }
        ensures set { OnOk result (self.new.set ≡ slice_set self.old.set var true) }
        ensures problem { self.new.problem.now ≡ self.old.problem.now }
        ensures count { self.new.count ≡ self.old.count }
    {
        self.set.add(var);
        self.chosen.push(var)?;
        self.numbers.push(number)?;
        Ok(())
    }

    /// Takes the last number back.
    fn leave(&mut self) -> Option<u32>
        requires { Stands self.old.problem.now self.old.set self.old.chosen.items self.old.numbers.items }
        ensures none { IfNone result (self.old.numbers.items ≡ []) }
        ensures numbers { IfSome result (λ last. self.old.numbers.items ≡ self.new.numbers.items ++ last ∷ []) }
        ensures stands { IfSome result (λ last. Stands self.new.problem.now self.new.set self.new.chosen.items self.new.numbers.items) }
        ensures problem { self.new.problem.now ≡ self.old.problem.now }
        ensures count { self.new.count ≡ self.old.count }
    {
        let last = self.numbers.pop()?;
        if let Some(var) = self.chosen.pop() {
            self.set.remove(var);
        }
        Some(last)
    }

    /// Goes on to this candidate of the choice, unless that is one partial walk too many.
    fn try_one(&mut self, tries: u32, number: u32, var: VarId) -> Result<Option<Tried>, Memory>
        requires trying { Trying tries self.old number }
        requires offered { member (waiting self.old.problem.now self.old.chosen.items) number ≡ Some var }
        ensures problem { self.new.problem.now ≡ self.old.problem.now }
        ensures end { IfOk result (λ end. GoesOn tries self.old.count self.new end) }
    {
        if self.count >= tries {
            return Ok(Some(Tried::Spent));
        }
        self.take(number, var)?;
        self.count += 1;
        Ok(None)
    }

    /// Goes on to the next partial walk, or ends where there is none or there were enough.
    fn go_on(&mut self, tries: u32) -> Result<Option<Tried>, Memory>
        requires { Trying tries self.old 0 }
        ensures problem { self.new.problem.now ≡ self.old.problem.now }
        ensures end { IfOk result (λ end. GoesOn tries self.old.count self.new end) }
    {
        let mut number: usize = 0;
        loop {
            if let Some(var) = self.offered(number) {
                return self.try_one(tries, number as u32, var);
            }
            match self.leave() {
                Some(last) => number = last as usize + 1,
                None => return Ok(Some(Tried::Nothing)),
            }
        }
    }
}

/// Tries the partial walks in their order, and no more of them than are allowed. The walk without a number isn't counted.
///
/// It goes through the lists of all that is chosen for each partial walk, and through the whole problem where no list waits.
pub fn first_walk(alloc: Global, problem: &Problem, tries: u32) -> Result<Tried, Memory>
    requires { IsClosed problem.now }
    ensures { IfOk result (λ tried. IsTried problem.now tries tried) }
{
    let mut trail = Trail::new(alloc, problem)?;
    while !trail.succeeds() {
        if let Some(end) = trail.go_on(tries)? {
            return Ok(end);
        }
    }
    let Trail {
        problem: _,
        set: _,
        chosen: _,
        numbers,
        count: _,
    } = trail;
    Ok(Tried::Found {
        walk: Many::from_vec(numbers),
    })
}
