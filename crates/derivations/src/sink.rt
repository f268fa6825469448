// What takes a search's lemmas, one by one.
ghost use Rattle.std.specs.Prelude.{◌≡◌, [], ◌∷◌, ◌++◌, ◌+◌, ◌<◌, ◌^◌, List, length, IfOk, OnOk, OnErr};
ghost use Rattle.derivations.specs.declared.Lemma.{Lemma};

use crate::{Hint, Lemma, Log};
use olm_base::{Many, Memory};
use op_constraints::{Lit, VarId};
use std::alloc::Global;

/// Takes lemmas in the order in which they were found.
pub trait ProofSink {
    // the lemmas that it holds
    ghost lemmas: { Self → List Lemma };

    /// Adds a lemma with exactly these literals and hints, and answers its number, from 0. Without memory nothing is
    /// added. It takes at most 2^32 - 1 lemmas.
    fn push(&mut self, alloc: Global, lits: &[Lit], hints: &[Hint]) -> Result<u32, Memory>
        requires { length (lemmas self.old) + 1 < 2 ^ 32 }
        ensures number { IfOk result (λ number. number ≡ length (lemmas self.old)) }
        ensures added { OnOk result (lemmas self.new ≡ lemmas self.old ++ record { lits = lits.now; hints = hints.now } ∷ []) }
        ensures kept { OnErr result (lemmas self.new ≡ lemmas self.old) };
}

impl ProofSink for Log {
    ghost lemmas = { λ log. log.lemmas };

    fn push(&mut self, alloc: Global, lits: &[Lit], hints: &[Hint]) -> Result<u32, Memory> {
        let number = self.lemmas.as_slice().len() as u32;
        let lemma = Lemma {
            lits: copy_lits(alloc, lits)?,
            hints: copy_hints(alloc, hints)?,
        };
        self.lemmas.push(lemma)?;
        Ok(number)
    }
}

fn copy_lits(alloc: Global, lits: &[Lit]) -> Result<Many<Lit>, Memory>
    ensures { IfOk result (λ copy. copy ≡ lits.now) }
{
    let mut copy = Vec::new(alloc);
    for lit in lits {
        copy.push(*lit)?;
    }
    Ok(Many::from_vec(copy))
}

fn copy_vars(alloc: Global, vars: &[VarId]) -> Result<Many<VarId>, Memory>
    ensures { IfOk result (λ copy. copy ≡ vars.now) }
{
    let mut copy = Vec::new(alloc);
    for var in vars {
        copy.push(*var)?;
    }
    Ok(Many::from_vec(copy))
}

fn copy_hint(alloc: Global, hint: &Hint) -> Result<Hint, Memory>
    ensures { IfOk result (λ copy. copy ≡ hint.now) }
{
    match hint {
        Hint::Lemma(number) => Ok(Hint::Lemma(*number)),
        Hint::Given {
            var,
            constraint,
            members,
        } => Ok(Hint::Given {
            var: *var,
            constraint: *constraint,
            members: copy_vars(alloc, members.as_slice())?,
        }),
    }
}

fn copy_hints(alloc: Global, hints: &[Hint]) -> Result<Many<Hint>, Memory>
    ensures { IfOk result (λ copy. copy ≡ hints.now) }
{
    let mut copy = Vec::new(alloc);
    for hint in hints {
        copy.push(copy_hint(alloc, hint)?)?;
    }
    Ok(Many::from_vec(copy))
}
