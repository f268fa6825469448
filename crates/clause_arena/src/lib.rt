//! Clauses in one buffer.
//!
//! An arena takes lists of literals and answers a reference for each, which is the place of the clause in the buffer. A clause is the list
//! that was pushed, as it was changed through `lits_mut`; a push changes no clause that is there.
#![tactic(auto)]

ghost use Rattle.std.specs.Prelude.{◌≡◌, [], ◌++◌, ◌≤◌, IfOk, OnOk, OnErr, length, vec_len};
ghost use Rattle.std.specs.Borrow.{sem};
ghost use Rattle.op_constraints.specs.declared.Lit.{Lit};
ghost use Rattle.clause_arena.specs.Pieces.{clause_at, IsWithin, ChangesAlone};

use olm_base::Memory;
use op_constraints::Lit;
use std::alloc::Global;

/// A clause of an arena, by its place.
#[derive(Clone, Copy, Debug, PartialEq, Eq)]
pub struct ClauseRef {
    start: usize,
    end: usize,
}

/// Clauses in one buffer.
#[derive(Debug, Drop)]
pub struct Arena {
    lits: Vec<Lit>,
}

impl Arena {
    ghost use Rattle.clause_arena.specs.declared.ClauseRef.{ClauseRef};
    ghost use Rattle.clause_arena.specs.Lending.{LendsClause};

    /// An arena without a clause.
    pub fn new(alloc: Global) -> Arena
        ensures { result.lits.items ≡ [] }
    {
        Arena {
            lits: Vec::new(alloc),
        }
    }

    /// Takes a clause. The clauses that are there stay; without memory nothing is added.
    pub fn push(&mut self, lits: &[Lit]) -> Result<ClauseRef, Memory>
        ensures pushed { IfOk result (λ c. clause_at self.new.lits.items c ≡ lits.now) }
        ensures within { IfOk result (λ c. IsWithin (length self.new.lits.items) c) }
        ensures new { IfOk result (λ c. c.start ≡ length self.old.lits.items) }
        ensures others { (c : ClauseRef) → IsWithin (length self.old.lits.items) c → clause_at self.new.lits.items c ≡ clause_at self.old.lits.items c }
        ensures size { OnOk result (self.new.lits.items ≡ self.old.lits.items ++ lits.now) }
        ensures memory { OnErr result (self.new.lits.items ≡ self.old.lits.items) }
    {
        let start = self.lits.len();
        self.lits.extend_from_slice(lits)?;
        let end = self.lits.len();
        Ok(ClauseRef { start, end })
    }

    /// The literals of the clause.
    pub fn lits(&self, clause: ClauseRef) -> &[Lit]
        requires { IsWithin (vec_len self.now.lits) clause }
        ensures { result.now ≡ clause_at self.now.lits.items clause }
    {
        &self.lits[clause.start..clause.end]
    }

    /// The literals of the clause, to be changed.
    pub fn lits_mut(&mut self, clause: ClauseRef) -> &mut [Lit]
        requires { IsWithin (vec_len self.old.lits) clause }
        ensures* lends { sem 𝓛 (LendsClause self.entry clause result) }
        ensures value { result.now ≡ clause_at self.old.lits.items clause }
    {
        self.lits.slice_mut(clause.start..clause.end)
    }
}

/// A clause that is changed is as it was written, and the others stay.
pub fn clauses_change_alone()
    ensures { ChangesAlone }
{}
