//! The search.

ghost use Rattle.std.specs.Prelude.{◌≡◌, ℕ, ◌+◌, ◌<◌, ◌≤◌, ◌^◌, List, [], ◌∷◌, ◌++◌, None, length, map, drop, IfOk, OnOk, OnErr};
ghost use Rattle.std.specs.List.{filter};
ghost use Rattle.op_constraints.specs.declared.Lit.{Lit};
ghost use Rattle.op_constraints.specs.declared.Constraint.{Constraint};
ghost use Rattle.op_constraints.specs.Meets.{IsClosed};
ghost use Rattle.derivations.specs.Follows.{fault_of};
ghost use Rattle.derivations.specs.Accepted.{IsIrredundant};
ghost use Rattle.derivations.specs.declared.Hint.TheVariants as hints;
ghost use Rattle.clause_trail.specs.declared.Cause.TheVariants as causes;
ghost use Rattle.clause_trail.specs.Trails.{literals, IsUnknown, IsKnown, IsOrdered};
ghost use Rattle.clause_trail.specs.Scans.{AllSettled};
ghost use Rattle.clause_analysis.specs.Caused.{assumed, IsCaused};
ghost use Rattle.clause_solver.specs.Held.{IsHeld, IsPaid};
ghost use Rattle.clause_solver.specs.Searching.{IsModel, IsAnswer, Comes, Decides};

use crate::Lemmas;
use crate::propagation::{propagate, put};
use clause_analysis::{Analysis, Learnt, analyze};
use clause_trail::{Cause, Entry, Reason, Trail};
use derivations::{Hint, Lemma, ProofSink, Refutation};
use olm_base::Memory;
use op_constraints::{Lit, Problem, VAR_LIMIT, VarId, VarSet, set_of};
use std::alloc::Global;

/// How many lemmas may still be learnt.
#[derive(Debug, Drop)]
pub struct Budget {
    left: u32,
}

impl Budget {
    pub fn new(lemmas: u32) -> Budget
        ensures { result.left ≡ lemmas }
    {
        Budget { left: lemmas }
    }

    pub fn left(&self) -> u32
        ensures { result ≡ self.now.left }
    {
        self.left
    }
}

/// What a search answers.
#[derive(Debug, Drop)]
pub enum Answer {
    /// The set meets the problem, and has all that is assumed.
    Model(VarSet),
    /// No set that meets the problem has all that is assumed.
    Refuted(Refutation),
    /// The budget is spent.
    Spent,
}

/// What a turn comes to.
#[derive(Debug, Drop)]
pub(crate) enum Turn {
    Onward,
    Answered(Answer),
}

/// Takes so many of the newest entries back.
fn cut(trail: &mut Trail, count: usize)
    ensures size { trail.new.size ≡ trail.old.size }
    ensures entries { trail.new.entries ≡ drop count trail.old.entries }
{
    for _ in 0..count {
        trail.pop();
    }
}

/// The variables that are known to be in.
fn vars_in(alloc: Global, trail: &Trail) -> Result<Vec<VarId>, Memory>
    ensures ordered { IsOrdered trail.now.size trail.now.entries }
    ensures vars { IfOk result (λ vars. vars.items ≡ map (λ e. e.lit.var) (filter (λ e. e.lit.positive) trail.now.entries)) }
{
    let mut vars = Vec::new(alloc);
    for depth in 0..trail.len() {
        let lit = trail.entry(depth).lit;
        if lit.positive {
            vars.push(lit.var)?;
        }
    }
    Ok(vars)
}

/// The set of those that are in, over a trail that says something of each variable.
fn model(alloc: Global, problem: &Problem, trail: &Trail) -> Result<VarSet, Memory>
    requires closed { IsClosed problem.now }
    requires size { trail.now.size ≡ length problem.now }
    requires known { (v : ℕ) → v < trail.now.size → IsKnown (literals trail.now.entries) v }
    ensures { IfOk result (λ set. (lemmas : List (List Lit))
        → AllSettled problem.now lemmas (literals trail.now.entries)
        → IsModel problem.now (literals trail.now.entries) set) }
{
    let count = problem.len();
    prove!(count <= VAR_LIMIT);
    let vars = vars_in(alloc, trail)?;
    set_of(alloc, problem, vars.as_slice())
}

/// Decides the first variable of which nothing is known; where there is none, the set of those that are in is the answer.
fn decide(alloc: Global, problem: &Problem, trail: &mut Trail) -> Result<Turn, Memory>
    requires closed { IsClosed problem.now }
    requires size { trail.old.size ≡ length problem.now }
    ensures { IfOk result (λ turn. (lemmas : List (List Lit))
        → IsCaused problem.now lemmas trail.old
        → AllSettled problem.now lemmas (literals trail.old.entries)
        → Decides problem.now lemmas trail.old trail.new turn) }
{
    match trail.first_unknown() {
        Some(var) => {
            let lit = Lit {
                var,
                positive: false,
            };
            let cause = Cause::Decided;
            put(trail, Entry { lit, cause })?;
            Ok(Turn::Onward)
        }
        None => Ok(Turn::Answered(Answer::Model(model(alloc, problem, trail)?))),
    }
}

/// Adds a lemma to those that are held and to the sink, or after want of memory to neither.
fn add<S: ProofSink>(
    alloc: Global,
    lemmas: &mut Lemmas,
    lemma: &Lemma,
    sink: &mut S,
    budget: &mut Budget,
) -> Result<u32, Memory>
    requires some { 0 < budget.old.left }
    requires room { length (S.lemmas sink.old) + budget.old.left < 2 ^ 32 }
    ensures number { IfOk result (λ number. number ≡ length (S.lemmas sink.old)) }
    ensures pushed { OnOk result (S.lemmas sink.new ≡ S.lemmas sink.old ++ lemma.now ∷ []) }
    ensures held { OnOk result (lemmas.new ≡ lemmas.old ++ lemma.now.lits ∷ []) }
    ensures left { OnOk result (budget.new.left + 1 ≡ budget.old.left) }
    ensures sink_kept { OnErr result (S.lemmas sink.new ≡ S.lemmas sink.old) }
    ensures held_kept { OnErr result (lemmas.new ≡ lemmas.old) }
    ensures left_kept { OnErr result (budget.new.left ≡ budget.old.left) }
{
    lemmas.push(lemma.lits.as_slice())?;
    match sink.push(alloc, lemma.lits.as_slice(), lemma.hints.as_slice()) {
        Ok(number) => {
            budget.left -= 1;
            Ok(number)
        }
        Err(memory) => {
            lemmas.pop();
            Err(memory)
        }
    }
}

/// Adds a lemma, and goes back to where it forces its literal.
fn learn<S: ProofSink>(
    alloc: Global,
    trail: &mut Trail,
    lemmas: &mut Lemmas,
    learnt: Learnt,
    sink: &mut S,
    budget: &mut Budget,
) -> Result<(), Memory>
    requires some { 0 < budget.old.left }
    requires room { length (S.lemmas sink.old) + budget.old.left < 2 ^ 32 }
    requires var { learnt.forced.var < trail.old.size }
    requires unknown { IsUnknown (literals (drop learnt.back trail.old.entries)) learnt.forced }
    ensures size { trail.new.size ≡ trail.old.size }
    ensures trail { OnOk result (trail.new.entries
        ≡ record { lit = learnt.forced; cause = causes.Forced record { hint = hints.Lemma (length (S.lemmas sink.old)); lits = learnt.lemma.lits } }
        ∷ drop learnt.back trail.old.entries) }
    ensures held_more { OnOk result (lemmas.new ≡ lemmas.old ++ learnt.lemma.lits ∷ []) }
    ensures left { OnOk result (budget.new.left + 1 ≡ budget.old.left) }
    ensures held { (problem : List (List Constraint))
        → IsHeld problem lemmas.old (S.lemmas sink.old)
        → fault_of problem lemmas.old learnt.lemma.lits learnt.lemma.hints ≡ None
        → IsIrredundant problem lemmas.old (learnt.lemma.lits ∷ [])
        → IsHeld problem lemmas.new (S.lemmas sink.new) }
    ensures paid { IsPaid (S.lemmas sink.old) (S.lemmas sink.new) budget.old.left budget.new.left }
{
    let Learnt {
        lemma,
        back,
        forced,
    } = learnt;
    let number = add(alloc, lemmas, &lemma, sink, budget)?;
    cut(trail, back);
    let Lemma { lits, hints: _ } = lemma;
    let hint = Hint::Lemma(number);
    let cause = Cause::Forced(Reason { hint, lits });
    let lit = forced;
    put(trail, Entry { lit, cause })
}

/// Adds what the clauses force, and then decides, learns or answers.
fn take_turn<S: ProofSink>(
    alloc: Global,
    problem: &Problem,
    trail: &mut Trail,
    lemmas: &mut Lemmas,
    sink: &mut S,
    budget: &mut Budget,
) -> Result<Turn, Memory>
    requires closed { IsClosed problem.now }
    requires room { length (S.lemmas sink.old) + budget.old.left < 2 ^ 32 }
    requires held { IsHeld problem.now lemmas.old (S.lemmas sink.old) }
    requires caused { IsCaused problem.now lemmas.old trail.old }
    ensures held { IsHeld problem.now lemmas.new (S.lemmas sink.new) }
    ensures paid { IsPaid (S.lemmas sink.old) (S.lemmas sink.new) budget.old.left budget.new.left }
    ensures turn { IfOk result (λ turn.
        Comes problem.now lemmas.new (S.lemmas sink.new) budget.old.left budget.new.left trail.old trail.new turn) }
{
    match propagate(alloc, trail, problem, lemmas)? {
        None => decide(alloc, problem, trail),
        Some(conflict) => match analyze(alloc, trail, &conflict)? {
            Analysis::Refuted(refutation) => Ok(Turn::Answered(Answer::Refuted(refutation))),
            Analysis::Lemma(learnt) => {
                if budget.left == 0 {
                    return Ok(Turn::Answered(Answer::Spent));
                }
                learn(alloc, trail, lemmas, learnt, sink, budget)?;
                Ok(Turn::Onward)
            }
        },
    }
}

/// Searches from a trail for a set that meets the problem and of which each assumed literal is true.
pub fn search<S: ProofSink>(
    alloc: Global,
    problem: &Problem,
    trail: &mut Trail,
    lemmas: &mut Lemmas,
    sink: &mut S,
    budget: &mut Budget,
) -> Result<Answer, Memory>
    requires closed { IsClosed problem.now }
    requires room { length (S.lemmas sink.old) + budget.old.left < 2 ^ 32 }
    requires held { IsHeld problem.now lemmas.old (S.lemmas sink.old) }
    requires caused { IsCaused problem.now lemmas.old trail.old }
    ensures held { IsHeld problem.now lemmas.new (S.lemmas sink.new) }
    ensures paid { IsPaid (S.lemmas sink.old) (S.lemmas sink.new) budget.old.left budget.new.left }
    ensures answer { IfOk result (λ answer.
        IsAnswer problem.now (assumed trail.old.entries) (S.lemmas sink.new) budget.new.left answer) }
{
    loop {
        match take_turn(alloc, problem, trail, lemmas, sink, budget)? {
            Turn::Onward => {}
            Turn::Answered(answer) => return Ok(answer),
        }
    }
}
