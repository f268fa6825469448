// The lemmas that a search learnt, looked up by the variables that they deny.
ghost use Rattle.std.specs.Prelude.{◌≡◌, ℕ, [], ◌∷◌, ◌++◌, ◌+◌, ◌<◌, ◌^◌, List, true, false, length, slice_get, Some, IfOk, OnOk, IfNone, IfSome};
ghost use Rattle.op_constraints.specs.declared.Lit.{Lit};
ghost use Rattle.op_constraints.specs.declared.Constraint.{Constraint};
ghost use Rattle.op_constraints.specs.Meets.{at};
ghost use Rattle.derivations.specs.Clauses.{negative, is_in};
ghost use Rattle.derivations.specs.Follows.{clauses, LogFollows};
ghost use Rattle.preference_search.specs.Denials.{is_denied, IsDenial, NoLemmaDenies};
ghost use Rattle.preference_search.specs.Naming.{IsListed, IsGrown};

use crate::denials::{by_lemma, by_lemmas};
use crate::naming::ByVariable;
use derivations::{Hint, Log, ProofSink, Refutation};
use olm_base::{Many, Memory};
use op_constraints::{Lit, VarId};
use std::alloc::Global;
use std::marker::Model;

/// A log, and of each variable the numbers of the lemmas that deny it.
#[derive(Drop)]
pub(crate) struct Learnt {
    log: Log,
    naming: ByVariable<u32>,
}

impl Model for Learnt {
    ghost use Rattle.derivations.specs.declared.Log.{Log};
    ghost use Rattle.preference_search.specs.Naming.{AreNamed};

    ghost Value = { Log };

    ghost view = { λ l. l.log };

    ghost invariant = { λ l. AreNamed l.log.lemmas l.naming };
}

/// Lists the number at each variable that the clause denies.
fn list_lemma(naming: &mut ByVariable<u32>, lits: &[Lit], number: u32) -> Result<(), Memory>
    ensures listed { OnOk result ((w : ℕ) → is_in lits.now (negative w) ≡ true → IsListed naming.new w number) }
    ensures grown { IsGrown naming.old naming.new }
{
    for lit in lits {
        naming.add(lit.var, number)?;
    }
    Ok(())
}

impl Learnt {
    /// No lemma, of so many variables.
    pub(crate) fn new(alloc: Global, count: usize) -> Result<Learnt, Memory>
        ensures { IfOk result (λ learnt. learnt.lemmas ≡ []) }
    {
        Ok(Learnt {
            log: Log {
                lemmas: Many::new(alloc),
            },
            naming: ByVariable::new(alloc, count)?,
        })
    }

    pub(crate) fn len(&self) -> usize
        ensures { result ≡ length self.now.lemmas }
    {
        self.log.lemmas.as_slice().len()
    }

    pub(crate) fn into_log(self) -> Log
        ensures { result ≡ self }
    {
        let Learnt { log, naming: _ } = self;
        log
    }

    /// Adds a lemma, and answers its number.
    pub(crate) fn push(
        &mut self,
        alloc: Global,
        lits: &[Lit],
        hints: &[Hint],
    ) -> Result<u32, Memory>
        requires { length self.old.lemmas + 1 < 2 ^ 32 }
        ensures number { IfOk result (λ number. number ≡ length self.old.lemmas) }
        ensures added { OnOk result (self.new.lemmas ≡ self.old.lemmas ++ record { lits = lits.now; hints = hints.now } ∷ []) }
    {
        let number = self.log.lemmas.as_slice().len() as u32;
        list_lemma(&mut self.naming, lits, number)?;
        self.log.push(alloc, lits, hints)
    }

    /// A denial of the set by a lemma, where there is one. It goes through the whole log.
    pub(crate) fn denial(&self, alloc: Global, bits: &[bool]) -> Result<Option<Refutation>, Memory>
        requires { length self.now.lemmas < 2 ^ 32 }
        ensures none { IfOk result (λ found. IfNone found (NoLemmaDenies self.now.lemmas (at bits.now))) }
        ensures some { IfOk result (λ found. IfSome found (λ d.
            (problem : List (List Constraint)) → LogFollows problem self.now.lemmas → IsDenial problem self.now.lemmas (at bits.now) d)) }
    {
        by_lemma(alloc, &self.log, bits)
    }

    /// A denial of the set by a lemma that names the variable, where there is one.
    pub(crate) fn denial_naming(
        &self,
        alloc: Global,
        bits: &[bool],
        var: VarId,
    ) -> Result<Option<Refutation>, Memory>
        requires { length self.now.lemmas < 2 ^ 32 }
        ensures none { IfOk result (λ found. IfNone found ((number : ℕ) (clause : List Lit)
            → slice_get (clauses self.now.lemmas) number ≡ Some clause
            → is_in clause (negative var) ≡ true
            → is_denied (at bits.now) clause ≡ false)) }
        ensures some { IfOk result (λ found. IfSome found (λ d.
            (problem : List (List Constraint)) → LogFollows problem self.now.lemmas → IsDenial problem self.now.lemmas (at bits.now) d)) }
    {
        match self.naming.list(var) {
            Some(numbers) => by_lemmas(alloc, &self.log, bits, numbers),
            None => by_lemma(alloc, &self.log, bits),
        }
    }
}
