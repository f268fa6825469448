//! The solver.

ghost use Rattle.std.specs.Prelude.{◌≡◌, ℕ, ◌+◌, ◌<◌, ◌≤◌, ◌^◌, true, List, [], length, IfOk, OnOk};
ghost use Rattle.std.specs.List.{list_all, AllByRecursion};
ghost use Rattle.op_constraints.specs.Meets.{IsClosed};
ghost use Rattle.op_constraints.specs.declared.TheConstants.{VAR_LIMIT};
ghost use Rattle.clause_solver.specs.Held.{IsHeld, IsPaid};
ghost use Rattle.clause_solver.specs.Solving.{with_assumed, with_all, Solves};

use crate::propagation::put;
use crate::searching::search;
use crate::{Answer, Budget, Lemmas};
use clause_trail::{Cause, Entry, Trail};
use derivations::ProofSink;
use olm_base::Memory;
use op_constraints::{Lit, Problem, VarId};
use std::alloc::Global;
use std::marker::Model;

/// Assumes that the variable is in, on a trail of assumptions.
fn assume_one(trail: &mut Trail, var: VarId) -> Result<(), Memory>
    requires var { var < trail.old.size }
    requires positive { list_all (λ e. e.lit.positive) trail.old.entries ≡ true }
    ensures size { trail.new.size ≡ trail.old.size }
    ensures entries { OnOk result (trail.new.entries ≡ with_assumed trail.old.entries var) }
    ensures positive { OnOk result (list_all (λ e. e.lit.positive) trail.new.entries ≡ true) }
{
    let lit = Lit {
        var,
        positive: true,
    };
    if trail.is_true(&lit) {
        return Ok(());
    }
    let cause = Cause::Assumed;
    put(trail, Entry { lit, cause })
}

/// The trail that a search begins with.
fn assume(alloc: Global, count: usize, vars: &[VarId]) -> Result<Trail, Memory>
    requires count { count ≤ VAR_LIMIT }
    requires vars { AllByRecursion (λ v. v < count) vars.now }
    ensures size { IfOk result (λ trail. trail.size ≡ count) }
    ensures entries { IfOk result (λ trail. trail.entries ≡ with_all [] vars.now) }
{
    let mut trail = Trail::new(alloc, count)?;
    for var in vars {
        assume_one(&mut trail, *var)?;
    }
    Ok(trail)
}

/// Searches for a set that meets the problem and has all these variables.
fn solve_with<S: ProofSink>(
    alloc: Global,
    problem: &Problem,
    lemmas: &mut Lemmas,
    vars: &[VarId],
    sink: &mut S,
    budget: &mut Budget,
) -> Result<Answer, Memory>
    requires closed { IsClosed problem.now }
    requires vars { AllByRecursion (λ v. v < length problem.now) vars.now }
    requires room { length (S.lemmas sink.old) + budget.old.left < 2 ^ 32 }
    requires held { IsHeld problem.now lemmas.old (S.lemmas sink.old) }
    ensures held { IsHeld problem.now lemmas.new (S.lemmas sink.new) }
    ensures paid { IsPaid (S.lemmas sink.old) (S.lemmas sink.new) budget.old.left budget.new.left }
    ensures answer { IfOk result (λ answer. Solves problem.now vars.now (S.lemmas sink.new) budget.new.left answer) }
{
    let count = problem.len();
    let mut trail = assume(alloc, count, vars)?;
    search(alloc, problem, &mut trail, lemmas, sink, budget)
}

/// A problem, and the lemmas that were learnt from it.
#[derive(Debug, Drop)]
pub struct Solver<'p> {
    problem: &'p Problem,
    lemmas: Lemmas,
}

impl<'p> Model for Solver<'p> {
    ghost use Rattle.clause_solver.specs.Solving.{Holding};

    ghost Value = { Holding };

    ghost view = { λ s. record { problem = s.problem.now; lemmas = s.lemmas } };
}

impl<'p> Solver<'p> {
    /// A solver without a lemma.
    pub fn new(alloc: Global, problem: &'p Problem) -> Solver<'p>
        ensures problem { result.problem ≡ problem.now }
        ensures lemmas { result.lemmas ≡ [] }
    {
        Solver {
            problem,
            lemmas: Lemmas::new(alloc),
        }
    }

    /// Searches for a set that meets the problem and has all these variables. The sink is the one that has this solver's lemmas, and it gets
    /// each new one. After want of memory it still has exactly those that the solver holds.
    pub fn solve<S: ProofSink>(
        &mut self,
        alloc: Global,
        vars: &[VarId],
        sink: &mut S,
        budget: &mut Budget,
    ) -> Result<Answer, Memory>
        requires closed { IsClosed self.old.problem }
        requires vars { AllByRecursion (λ v. v < length self.old.problem) vars.now }
        requires room { length (S.lemmas sink.old) + budget.old.left < 2 ^ 32 }
        requires held { IsHeld self.old.problem self.old.lemmas (S.lemmas sink.old) }
        ensures problem { self.new.problem ≡ self.old.problem }
        ensures held { IsHeld self.new.problem self.new.lemmas (S.lemmas sink.new) }
        ensures paid { IsPaid (S.lemmas sink.old) (S.lemmas sink.new) budget.old.left budget.new.left }
        ensures answer { IfOk result (λ answer. Solves self.new.problem vars.now (S.lemmas sink.new) budget.new.left answer) }
    {
        solve_with(alloc, self.problem, &mut self.lemmas, vars, sink, budget)
    }
}
