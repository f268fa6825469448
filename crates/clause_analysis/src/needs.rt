//! What of a trail is needed, and where a level begins.

ghost use Rattle.std.specs.Prelude.{◌≡◌, ◌+◌, ◌<◌, ◌≤◌, false, true, [], ◌∷◌, ◌++◌, IfOk, OnOk, length, map, drop, reverse, replicate, slice_set};
ghost use Rattle.op_constraints.specs.Meets.{at};
ghost use Rattle.derivations.specs.Clauses.{denial};
ghost use Rattle.clause_analysis.specs.Needs.{with_marked, needed_of, IsDecision, IsRest, IsBack};

use clause_trail::{Cause, Reason, Trail};
use derivations::Hint;
use olm_base::{Many, Memory};
use op_constraints::{Lit, VarId};
use std::alloc::Global;

/// The variables that are needed, and the hints by which that is so, the last one first.
#[derive(Debug, Drop)]
pub(crate) struct Needs {
    needed: Vec<bool>,
    hints: Vec<Hint>,
}

/// What else is needed of a level.
#[derive(Clone, Copy, Debug, PartialEq, Eq)]
pub(crate) enum Rest {
    /// Something else may be, up to this depth.
    Needed(usize),
    /// Nothing is, up to the decision at this depth.
    Alone(usize),
}

/// The literal that says the opposite.
pub(crate) fn deny(lit: &Lit) -> Lit
    ensures { result ≡ denial lit.now }
{
    Lit {
        var: lit.var,
        positive: !lit.positive,
    }
}

fn copy_vars(alloc: Global, vars: &[VarId]) -> Result<Many<VarId>, Memory>
    ensures { IfOk result (λ copy. copy ≡ vars.now) }
{
    let mut copy = Vec::new(alloc);
    copy.extend_from_slice(vars)?;
    Ok(Many::from_vec(copy))
}

fn copy_hint(alloc: Global, hint: &Hint) -> Result<Hint, Memory>
    ensures { IfOk result (λ copy. copy ≡ hint.now) }
{
    match hint {
        Hint::Lemma(number) => Ok(Hint::Lemma(*number)),
        Hint::Given {
            var,
            constraint,
            members,
        } => Ok(Hint::Given {
            var: *var,
            constraint: *constraint,
            members: copy_vars(alloc, members.as_slice())?,
        }),
    }
}

impl Needs {
    /// Nothing is needed of so many variables.
    pub(crate) fn new(alloc: Global, count: usize) -> Result<Needs, Memory>
        ensures needed { IfOk result (λ needs. needs.needed.items ≡ replicate count false) }
        ensures hints { IfOk result (λ needs. needs.hints.items ≡ []) }
    {
        Ok(Needs {
            needed: vec![in alloc; false; count]?,
            hints: Vec::new(alloc),
        })
    }

    pub(crate) fn has(&self, var: VarId) -> bool
        ensures { result ≡ at self.now.needed.items var }
    {
        match self.needed.get(var.0 as usize) {
            Some(needed) => *needed,
            None => false,
        }
    }

    fn mark(&mut self, lits: &[Lit])
        ensures needed { self.new.needed.items ≡ with_marked self.old.needed.items lits.now }
        ensures hints { self.new.hints.items ≡ self.old.hints.items }
    {
        for lit in lits {
            set(&mut self.needed, lit.var);
        }
    }

    /// What the clause is of is needed, and the clause comes before the others.
    pub(crate) fn add(&mut self, alloc: Global, reason: &Reason) -> Result<(), Memory>
        ensures needed { OnOk result (self.new.needed.items ≡ with_marked self.old.needed.items reason.now.lits) }
        ensures hints { OnOk result (self.new.hints.items ≡ self.old.hints.items ++ reason.now.hint ∷ []) }
    {
        self.mark(reason.lits.as_slice());
        self.hints.push(copy_hint(alloc, &reason.hint)?)?;
        Ok(())
    }

    /// The hints in the order in which they are taken.
    pub(crate) fn into_hints(self) -> Many<Hint>
        ensures { result ≡ reverse self.hints.items }
    {
        let Needs {
            needed: _,
            mut hints,
        } = self;
        hints.reverse();
        Many::from_vec(hints)
    }
}

fn set(needed: &mut Vec<bool>, var: VarId)
    ensures { needed.new.items ≡ slice_set needed.old.items var true }
{
    let at = var.0 as usize;
    if at < needed.len() {
        needed[at] = true;
    }
}

/// What else is needed of the level of the entry at this depth; `other` is a depth down to which that is known.
pub(crate) fn rest_of_level(trail: &Trail, needs: &Needs, depth: usize, other: usize) -> Rest
    requires { depth < length trail.now.entries }
    ensures { IsRest needs.now.needed.items trail.now.entries (depth + 1) result }
{
    if depth < other {
        return Rest::Needed(other);
    }
    let end = trail.len();
    for older in depth + 1..end {
        let entry = trail.entry(older);
        if needs.has(entry.lit.var) {
            return Rest::Needed(older);
        }
        if let Cause::Decided = entry.cause {
            return Rest::Alone(older);
        }
    }
    Rest::Needed(end)
}

/// How many entries are newer than the level of the newest needed one of those older than this decision.
pub(crate) fn back_of(trail: &Trail, needs: &Needs, start: usize) -> usize
    requires within { start < length trail.now.entries }
    requires decision { IsDecision trail.now.entries start }
    ensures { IsBack needs.now.needed.items trail.now.entries (start + 1) result }
{
    let end = trail.len();
    let mut back = start + 1;
    for depth in start + 1..end {
        let entry = trail.entry(depth);
        if needs.has(entry.lit.var) {
            return back;
        }
        if let Cause::Decided = entry.cause {
            back = depth + 1;
        }
    }
    back
}

/// The denials of what is needed from this depth on.
pub(crate) fn denials(
    alloc: Global,
    trail: &Trail,
    needs: &Needs,
    from: usize,
) -> Result<Vec<Lit>, Memory>
    requires { from ≤ length trail.now.entries }
    ensures { IfOk result (λ lits. lits.items ≡ map (λ e. denial e.lit) (needed_of needs.now.needed.items (drop from trail.now.entries))) }
{
    let mut lits = Vec::new(alloc);
    for depth in from..trail.len() {
        let entry = trail.entry(depth);
        if needs.has(entry.lit.var) {
            lits.push(deny(&entry.lit))?;
        }
    }
    Ok(lits)
}
