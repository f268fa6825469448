//! The lemmas that a solver holds.

ghost use Rattle.std.specs.Prelude.{◌≡◌, ◌<◌, [], ◌∷◌, ◌++◌, List, Some, OnOk, OnErr, length, slice_get};
ghost use Rattle.op_constraints.specs.declared.Lit.{Lit};

use clause_arena::{Arena, ClauseRef};
use olm_base::Memory;
use op_constraints::Lit;
use std::alloc::Global;
use std::marker::Model;

/// Lemmas, by their numbers from 0. Their literals lie in one buffer.
#[derive(Debug, Drop)]
pub struct Lemmas {
    arena: Arena,
    places: Vec<ClauseRef>,
}

impl Model for Lemmas {
    ghost use Rattle.std.specs.Prelude.{List};
    ghost use Rattle.op_constraints.specs.declared.Lit.{Lit};
    ghost use Rattle.clause_solver.specs.Held.{clauses_at, AreWithin};

    ghost Value = { List (List Lit) };

    ghost view = { λ l. clauses_at l.arena.lits.items l.places.items };

    ghost invariant = { λ l. AreWithin l.arena.lits.items l.places.items };
}

impl Lemmas {
    /// No lemma.
    pub fn new(alloc: Global) -> Lemmas
        ensures { result ≡ [] }
    {
        Lemmas {
            arena: Arena::new(alloc),
            places: Vec::new(alloc),
        }
    }

    pub fn len(&self) -> usize
        ensures { result ≡ length self.now }
    {
        self.places.len()
    }

    /// The literals of the lemma.
    pub fn lits(&self, number: usize) -> &[Lit]
        requires { number < length self.now }
        ensures { slice_get self.now number ≡ Some result.now }
    {
        self.arena.lits(self.places[number])
    }

    /// Adds a lemma.
    pub fn push(&mut self, lits: &[Lit]) -> Result<(), Memory>
        ensures added { OnOk result (self.new ≡ self.old ++ lits.now ∷ []) }
        ensures memory { OnErr result (self.new ≡ self.old) }
    {
        let place = self.arena.push(lits)?;
        self.places.push(place)?;
        Ok(())
    }

    /// Takes the last lemma back.
    pub fn pop(&mut self)
        ensures { (rest : List (List Lit)) (last : List Lit) → self.old ≡ rest ++ last ∷ [] → self.new ≡ rest }
    {
        self.places.pop();
    }
}
