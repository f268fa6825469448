// The search through the partial walks in their order.
ghost use Rattle.std.specs.Prelude.{◌≡◌, ℕ, List, [], ◌∷◌, ◌++◌, ◌+◌, ◌<◌, ◌≤◌, ◌^◌, suc, true, false, cond, length, map, take, ◌-◌, drop, slice_index, slice_set, IfOk, OnOk, IfNone, IfSome, Some};
ghost use Rattle.std.specs.List.{AllByRecursion};
ghost use Rattle.op_constraints.specs.declared.TheConstants.{VAR_LIMIT};
ghost use Rattle.op_constraints.specs.Meets.{at, IsClosed};
ghost use Rattle.op_constraints.specs.Walks.{is_among, IsBefore};
ghost use Rattle.derivations.specs.declared.Lemma.{Lemma};
ghost use Rattle.derivations.specs.Clauses.{is_in, negative};
ghost use Rattle.derivations.specs.Follows.{Follows, LogFollows};
ghost use Rattle.op_constraints.specs.WalkInvariant.{Stands};
ghost use Rattle.preference_search.specs.Searching.{ArePassedOver, IsUndeniedBefore, IsTrying};
ghost use Rattle.preference_search.specs.Denials.{AllowsSet, IsDenial, NoLemmaDenies, IsUndenied};
ghost use Rattle.preference_search.specs.Lists.{IsNext};
ghost use Rattle.preference_search.specs.Naming.{IsIndexed};
ghost use Rattle.preference_search.specs.State.{At, Trying, Comes, Advanced, PassedOver, IsClosing, IsDeniedAt, IsOffered};

use crate::denials::{by_given, by_number, by_places, denials_of};
use crate::learnt::Learnt;
use crate::lists::{Open, next_open};
use crate::naming::{ByVariable, Place};
use crate::sets::bits_of;
use derivations::{Hint, Refutation};
use olm_base::{Many, Memory};
use op_constraints::{Lit, Problem, VarId, mandatory_variables};
use std::alloc::Global;

/// Where a search stands: at a partial walk, with the candidates that it passed over on the way.
#[derive(Drop)]
pub(crate) struct Search {
    pub(crate) log: Learnt,
    pub(crate) numbers: Vec<u32>,
    pub(crate) chosen: Vec<VarId>,
    pub(crate) bits: Vec<bool>,
    pub(crate) steps: Vec<(u32, u32, Refutation)>,
}

/// What a turn of the search comes to.
#[derive(Drop)]
pub(crate) enum Turn {
    /// It stands at a later partial walk.
    Onward,
    /// It stands at the best walk.
    Found,
    /// No set has all mandatory variables.
    Refused(Refutation),
    /// It wants a lemma more than it may have.
    Spent,
}

/// What comes of a denied walk.
#[derive(Drop)]
pub(crate) enum Pass {
    /// The walk at which the search stands now is denied too.
    Denied(Refutation),
    Turned(Turn),
}

/// Whether the literals deny the variable.
fn names(lits: &[Lit], var: VarId) -> bool
    ensures { result ≡ is_in lits.now (negative var) }
{
    for lit in lits {
        if lit.var.0 == var.0 && !lit.positive {
            return true;
        }
    }
    false
}

/// Whether the variable is one of these.
fn stands_among(vars: &[VarId], var: VarId) -> bool
    ensures { result ≡ is_among vars.now var }
{
    for other in vars {
        if other.0 == var.0 {
            return true;
        }
    }
    false
}

/// Whether the member with this index stands among the later ones again.
fn stands_later(members: &[VarId], index: usize) -> bool
    requires { index < length members.now }
    ensures { result ≡ is_among (drop (suc index) members.now) (slice_index members.now index) }
{
    let member = members[index];
    let later = &members[index + 1..];
    stands_among(later, member)
}

/// Appends the hints.
fn append(hints: &mut Vec<Hint>, more: Many<Hint>) -> Result<(), Memory>
    ensures { OnOk result (hints.new.items ≡ hints.old.items ++ more) }
{
    for hint in more.into_vec() {
        hints.push(hint)?;
    }
    Ok(())
}

/// Appends the hints of a step, unless its member stands among the later ones again.
fn add_step(
    hints: &mut Vec<Hint>,
    members: &[VarId],
    index: usize,
    step: Refutation,
) -> Result<(), Memory>
    requires { index < length members.now }
    ensures { OnOk result (hints.new.items
        ≡ cond (is_among (drop (suc index) members.now) (slice_index members.now index)) hints.old.items (hints.old.items ++ step.hints)) }
{
    if stands_later(members, index) {
        return Ok(());
    }
    append(hints, step.hints)
}

impl Search {
    /// Takes the number, which picks the variable.
    fn take(&mut self, number: u32, var: VarId) -> Result<(), Memory>
        requires { var < length self.old.bits.items }
        ensures numbers { OnOk result (self.new.numbers.items ≡ self.old.numbers.items ++ number ∷ []) }
        ensures chosen { OnOk result (self.new.chosen.items ≡ self.old.chosen.items ++ var ∷ []) }
        ensures bits { OnOk result (self.new.bits.items ≡ slice_set self.old.bits.items var true) }
        ensures log { self.new.log ≡ self.old.log }
        ensures steps { self.new.steps.items ≡ self.old.steps.items }
    {
        self.bits[var.0 as usize] = true;
        self.numbers.push(number)?;
        self.chosen.push(var)?;
        Ok(())
    }

    /// Takes the last number back, and the variable that it picked.
    fn leave(&mut self) -> Option<(u32, VarId)>
        requires some { length self.old.numbers.items ≤ length self.old.chosen.items }
        requires within { AllByRecursion (λ v. v < length self.old.bits.items) self.old.chosen.items }
        ensures none { IfNone result (self.old.numbers.items ≡ []) }
        ensures numbers { IfSome result (λ last. self.old.numbers.items ≡ self.new.numbers.items ++ last.0 ∷ []) }
        ensures chosen { IfSome result (λ last. self.old.chosen.items ≡ self.new.chosen.items ++ last.1 ∷ []) }
        ensures bits { IfSome result (λ last. self.new.bits.items ≡ slice_set self.old.bits.items last.1 false) }
        ensures log { self.new.log ≡ self.old.log }
        ensures steps { self.new.steps.items ≡ self.old.steps.items }
    {
        match self.numbers.pop() {
            None => None,
            Some(number) => match self.chosen.pop() {
                None => unreachable!(),
                Some(var) => {
                    self.bits[var.0 as usize] = false;
                    Some((number, var))
                }
            },
        }
    }

    /// Drops the last steps.
    fn cut(&mut self, count: u32)
        requires { count ≤ length self.old.steps.items }
        ensures steps { self.new.steps.items ≡ take (length self.old.steps.items - count) self.old.steps.items }
        ensures log { self.new.log ≡ self.old.log }
        ensures numbers { self.new.numbers.items ≡ self.old.numbers.items }
        ensures chosen { self.new.chosen.items ≡ self.old.chosen.items }
        ensures bits { self.new.bits.items ≡ self.old.bits.items }
    {
        let kept = self.steps.len() - count as usize;
        self.steps.truncate(kept);
    }

    /// The hints by which the walk is denied once each candidate of its choice is, whose steps it takes back.
    fn conclude(
        &mut self,
        alloc: Global,
        problem: &Problem,
        owner: VarId,
        place: u32,
        members: &[VarId],
    ) -> Result<Vec<Hint>, Memory>
        requires next { IsNext problem.now self.old.chosen.items owner place members.now }
        requires stands { Stands problem.now self.old.bits.items self.old.chosen.items self.old.numbers.items }
        requires passed { ArePassedOver problem.now self.old.log.lemmas (self.old.numbers.items ++ length members.now ∷ []) self.old.steps.items }
        ensures follows { IfOk result (λ hints. Follows problem.now self.old.log.lemmas (map negative self.old.chosen.items) hints.items) }
        ensures passed { OnOk result (ArePassedOver problem.now self.old.log.lemmas self.old.numbers.items self.new.steps.items) }
        ensures log { self.new.log ≡ self.old.log }
        ensures numbers { self.new.numbers.items ≡ self.old.numbers.items }
        ensures chosen { self.new.chosen.items ≡ self.old.chosen.items }
        ensures bits { self.new.bits.items ≡ self.old.bits.items }
    {
        let mut hints = Vec::new(alloc);
        let mut left = members.len();
        while left > 0 {
            left -= 1;
            match self.steps.pop() {
                None => unreachable!(),
                Some((_, _, step)) => add_step(&mut hints, members, left, step)?,
            }
        }
        hints.push(Hint::Given {
            var: owner,
            constraint: place,
            members: Many::new(alloc),
        })?;
        Ok(hints)
    }

    /// The walk is denied by a clause that follows, as a lemma more, unless it has no number.
    fn close(
        &mut self,
        alloc: Global,
        budget: u32,
        problem: &Problem,
        refutation: Refutation,
    ) -> Result<Pass, Memory>
        requires { IsClosing problem.now budget self.old refutation }
        ensures { IfOk result (λ pass. (number : ℕ) → Advanced problem.now budget self.old.numbers.items number self.new pass) }
    {
        if self.numbers.is_empty() {
            return Ok(Pass::Turned(Turn::Refused(refutation)));
        }
        self.learn(alloc, budget, problem, refutation)
    }

    /// The walk is denied by this clause, as a lemma more where the budget allows one.
    fn learn(
        &mut self,
        alloc: Global,
        budget: u32,
        problem: &Problem,
        refutation: Refutation,
    ) -> Result<Pass, Memory>
        requires closing { IsClosing problem.now budget self.old refutation }
        requires some { 0 < length self.old.numbers.items }
        ensures { IfOk result (λ pass. (number : ℕ) → Advanced problem.now budget self.old.numbers.items number self.new pass) }
    {
        if self.log.len() >= budget as usize {
            return Ok(Pass::Turned(Turn::Spent));
        }
        let lits = refutation.lits.as_slice();
        let number = self.log.push(alloc, lits, refutation.hints.as_slice())?;
        Ok(Pass::Denied(by_number(alloc, number, lits)?))
    }

    /// Takes the next candidate of the choice, or denies the walk where none is left.
    fn advance(
        &mut self,
        alloc: Global,
        budget: u32,
        problem: &Problem,
        tried: u32,
        next: Open<'_>,
    ) -> Result<Pass, Memory>
        requires trying { Trying problem.now budget self.old tried }
        requires next { IsNext problem.now self.old.chosen.items next.owner next.place next.members.now }
        requires few { length next.members.now ≤ VAR_LIMIT }
        requires within { tried ≤ length next.members.now }
        ensures { IfOk result (λ pass. Advanced problem.now budget self.old.numbers.items tried self.new pass) }
    {
        let members = next.members;
        if (tried as usize) < members.len() {
            let member = members[tried as usize];
            self.take(tried, member)?;
            return Ok(Pass::Turned(Turn::Onward));
        }
        let hints = self.conclude(alloc, problem, next.owner, next.place, members)?;
        let refutation = Refutation {
            lits: denials_of(alloc, self.chosen.as_slice())?,
            hints: Many::from_vec(hints),
        };
        self.close(alloc, budget, problem, refutation)
    }

    /// Passes over the walk, which is denied.
    fn pass_over(
        &mut self,
        alloc: Global,
        budget: u32,
        problem: &Problem,
        denial: Refutation,
    ) -> Result<Pass, Memory>
        requires { IsDeniedAt problem.now budget self.old denial }
        ensures { IfOk result (λ pass. PassedOver problem.now budget self.old.numbers.items self.new pass) }
    {
        let _count = problem.len();
        match self.leave() {
            None => Ok(Pass::Turned(Turn::Refused(denial))),
            Some(last) => {
                if names(denial.lits.as_slice(), last.1) {
                    self.try_next(alloc, budget, problem, last.0, denial)
                } else {
                    self.cut(last.0);
                    Ok(Pass::Denied(denial))
                }
            }
        }
    }

    /// Goes on to the candidate after the one that was denied.
    fn try_next(
        &mut self,
        alloc: Global,
        budget: u32,
        problem: &Problem,
        number: u32,
        denial: Refutation,
    ) -> Result<Pass, Memory>
        requires trying { IsTrying problem.now budget self.old.log.lemmas self.old.numbers.items self.old.chosen.items self.old.bits.items
            (self.old.steps.items ++ (length self.old.numbers.items, number, denial) ∷ []) (number + 1) }
        requires low { number < VAR_LIMIT }
        requires walked { IsOffered problem.now self.old.numbers.items self.old.chosen.items number }
        ensures { IfOk result (λ pass. Advanced problem.now budget self.old.numbers.items (number + 1) self.new pass) }
    {
        let _count = problem.len();
        let choice = self.numbers.len() as u32;
        self.steps.push((choice, number, denial))?;
        match next_open(problem, self.chosen.as_slice(), self.bits.as_slice()) {
            Some(next) => self.advance(alloc, budget, problem, number + 1, next),
            None => unreachable!(),
        }
    }

    /// Goes back past the walk, which is denied, and on to the next one.
    fn deny(
        &mut self,
        alloc: Global,
        budget: u32,
        problem: &Problem,
        denial: Refutation,
    ) -> Result<Turn, Memory>
        requires { IsDeniedAt problem.now budget self.old denial }
        ensures { IfOk result (λ turn. Comes problem.now budget (λ later. IsBefore self.old.numbers.items later) self.new turn) }
    {
        let mut denial = denial;
        loop {
            match self.pass_over(alloc, budget, problem, denial)? {
                Pass::Denied(next) => denial = next,
                Pass::Turned(turn) => return Ok(turn),
            }
        }
    }

    /// A denial of the walk by a given clause, where there is one. Once a number is taken, only the constraints that name the last
    /// variable are looked at.
    fn given_denial(
        &self,
        alloc: Global,
        problem: &Problem,
        places: &ByVariable<Place>,
    ) -> Result<Option<Refutation>, Memory>
        requires indexed { IsIndexed problem.now places.now }
        requires stands { Stands problem.now self.now.bits.items self.now.chosen.items self.now.numbers.items }
        requires before { IsUndeniedBefore problem.now self.now.log.lemmas self.now.chosen.items self.now.numbers.items }
        ensures none { IfOk result (λ found. IfNone found (AllowsSet problem.now (is_among self.now.chosen.items))) }
        ensures some { IfOk result (λ found. IfSome found (λ d. (log : List Lemma) → IsDenial problem.now log (at self.now.bits.items) d)) }
    {
        let bits = self.bits.as_slice();
        if self.numbers.is_empty() {
            return by_given(alloc, problem, bits);
        }
        match self.chosen.last() {
            Some(var) => match places.list(*var) {
                Some(list) => by_places(alloc, problem, bits, list),
                None => by_given(alloc, problem, bits),
            },
            None => by_given(alloc, problem, bits),
        }
    }

    /// A denial of the walk by a lemma, where there is one. Once a number is taken, only the lemmas that name the last variable are
    /// looked at.
    fn lemma_denial(&self, alloc: Global, problem: &Problem) -> Result<Option<Refutation>, Memory>
        requires stands { Stands problem.now self.now.bits.items self.now.chosen.items self.now.numbers.items }
        requires before { IsUndeniedBefore problem.now self.now.log.lemmas self.now.chosen.items self.now.numbers.items }
        requires few { length self.now.log.lemmas < 2 ^ 32 }
        requires follows { LogFollows problem.now self.now.log.lemmas }
        ensures none { IfOk result (λ found. IfNone found (NoLemmaDenies self.now.log.lemmas (is_among self.now.chosen.items))) }
        ensures some { IfOk result (λ found. IfSome found (λ d. IsDenial problem.now self.now.log.lemmas (at self.now.bits.items) d)) }
    {
        let bits = self.bits.as_slice();
        if self.numbers.is_empty() {
            return self.log.denial(alloc, bits);
        }
        match self.chosen.last() {
            Some(var) => self.log.denial_naming(alloc, bits, *var),
            None => self.log.denial(alloc, bits),
        }
    }

    /// A denial of the walk by a given clause or by a lemma, where there is one.
    fn denial(
        &self,
        alloc: Global,
        problem: &Problem,
        places: &ByVariable<Place>,
    ) -> Result<Option<Refutation>, Memory>
        requires indexed { IsIndexed problem.now places.now }
        requires stands { Stands problem.now self.now.bits.items self.now.chosen.items self.now.numbers.items }
        requires before { IsUndeniedBefore problem.now self.now.log.lemmas self.now.chosen.items self.now.numbers.items }
        requires few { length self.now.log.lemmas < 2 ^ 32 }
        requires follows { LogFollows problem.now self.now.log.lemmas }
        ensures none { IfOk result (λ found. IfNone found (IsUndenied problem.now self.now.log.lemmas (is_among self.now.chosen.items))) }
        ensures some { IfOk result (λ found. IfSome found (λ d. IsDenial problem.now self.now.log.lemmas (at self.now.bits.items) d)) }
    {
        match self.given_denial(alloc, problem, places)? {
            Some(found) => Ok(Some(found)),
            None => self.lemma_denial(alloc, problem),
        }
    }

    /// Goes on from the walk, which no given clause and no lemma denies.
    fn descend(&mut self, alloc: Global, budget: u32, problem: &Problem) -> Result<Turn, Memory>
        requires here { At problem.now budget self.old }
        requires undenied { IsUndenied problem.now self.old.log.lemmas (is_among self.old.chosen.items) }
        ensures { IfOk result (λ turn. Comes problem.now budget (λ later. IsBefore self.old.numbers.items later) self.new turn) }
    {
        match next_open(problem, self.chosen.as_slice(), self.bits.as_slice()) {
            None => Ok(Turn::Found),
            Some(next) => match self.advance(alloc, budget, problem, 0, next)? {
                Pass::Turned(turn) => Ok(turn),
                Pass::Denied(denial) => self.deny(alloc, budget, problem, denial),
            },
        }
    }

    /// Goes on to the next partial walk that isn't passed over, or ends.
    pub(crate) fn turn(
        &mut self,
        alloc: Global,
        budget: u32,
        problem: &Problem,
        places: &ByVariable<Place>,
    ) -> Result<Turn, Memory>
        requires here { At problem.now budget self.old }
        requires indexed { IsIndexed problem.now places.now }
        ensures { IfOk result (λ turn. Comes problem.now budget (λ later. IsBefore self.old.numbers.items later) self.new turn) }
    {
        match self.denial(alloc, problem, places)? {
            Some(denial) => self.deny(alloc, budget, problem, denial),
            None => self.descend(alloc, budget, problem),
        }
    }

    /// A search that stands at the walk without a number.
    pub(crate) fn new(alloc: Global, problem: &Problem) -> Result<Search, Memory>
        requires { IsClosed problem.now }
        ensures { IfOk result (λ search. (budget : ℕ) → At problem.now budget search) }
    {
        let chosen = mandatory_variables(alloc, problem)?;
        let bits = bits_of(alloc, problem, chosen.as_slice())?;
        let log = Learnt::new(alloc, problem.len())?;
        Ok(Search {
            log,
            numbers: Vec::new(alloc),
            chosen,
            bits,
            steps: Vec::new(alloc),
        })
    }
}
