//! Trails.

ghost use Rattle.std.specs.Prelude.{◌≡◌, ℕ, ◌<◌, ◌≤◌, Bool, Option, List, [], ◌∷◌, None, length, reverse, slice_index_or, IfOk, OnOk, OnErr, IfNone, IfSome};
ghost use Rattle.op_constraints.specs.declared.TheConstants.{VAR_LIMIT};
ghost use Rattle.derivations.specs.Clauses.{negative, is_in};
ghost use Rattle.clause_trail.specs.Trails.{literals, IsUnknown, IsKnown, IsOrdered};
ghost use Rattle.clause_trail.specs.Kept.{is_said};

use crate::Entry;
use olm_base::Memory;
use op_constraints::{Lit, VarId};
use std::alloc::Global;
use std::marker::Model;

/// Literals in the order in which they became true, each of a variable of its own.
#[derive(Debug, Drop)]
pub struct Trail {
    values: Vec<Option<bool>>,
    entries: Vec<Entry>,
}

impl Model for Trail {
    ghost use Rattle.std.specs.Prelude.{length, reverse};
    ghost use Rattle.clause_trail.specs.Trails.{Seen};
    ghost use Rattle.clause_trail.specs.Kept.{IsKept};

    ghost Value = { Seen };

    ghost view = { λ t. record { size = length t.values.items; entries = reverse t.entries.items } };

    ghost invariant = { λ t. IsKept t.values.items (reverse t.entries.items) };
}

/// What is known of the variable.
fn value(values: &[Option<bool>], var: VarId) -> Option<bool>
    ensures { result ≡ slice_index_or values.now var None }
{
    match values.get(var.0 as usize) {
        Some(value) => *value,
        None => None,
    }
}

fn says(values: &[Option<bool>], lit: &Lit) -> bool
    ensures { result ≡ is_said values.now lit.now }
{
    value(values, lit.var) == Some(lit.positive)
}

impl Trail {
    /// An empty trail of so many variables.
    pub fn new(alloc: Global, count: usize) -> Result<Trail, Memory>
        requires { count ≤ VAR_LIMIT }
        ensures size { IfOk result (λ trail. trail.size ≡ count) }
        ensures empty { IfOk result (λ trail. trail.entries ≡ []) }
    {
        Ok(Trail {
            values: vec![in alloc; None; count]?,
            entries: Vec::new(alloc),
        })
    }

    pub fn len(&self) -> usize
        ensures count { result ≡ length self.now.entries }
        ensures ordered { IsOrdered self.now.size self.now.entries }
    {
        self.entries.len()
    }

    /// How many variables the trail is of.
    pub fn size(&self) -> usize
        ensures { result ≡ self.now.size }
    {
        self.values.len()
    }

    /// Whether the literal is true.
    pub fn is_true(&self, lit: &Lit) -> bool
        ensures { result ≡ is_in (literals self.now.entries) lit.now }
    {
        says(self.values.as_slice(), lit)
    }

    /// The entry with this number, from the newest one on.
    pub fn entry(&self, depth: usize) -> &Entry
        requires { depth < length self.now.entries }
        ensures { result.now ≡ slice_index_or self.now.entries depth result.now }
    {
        let index = self.entries.len() - 1 - depth;
        &self.entries[index]
    }

    /// Adds a literal of a variable of which nothing is known.
    pub fn push(&mut self, entry: Entry) -> Result<(), Memory>
        requires var { entry.lit.var < self.old.size }
        requires unknown { IsUnknown (literals self.old.entries) entry.lit }
        ensures size { self.new.size ≡ self.old.size }
        ensures pushed { OnOk result (self.new.entries ≡ entry ∷ self.old.entries) }
        ensures memory { OnErr result (self.new.entries ≡ self.old.entries) }
    {
        let at = entry.lit.var.0 as usize;
        let positive = entry.lit.positive;
        self.entries.push(entry)?;
        self.values[at] = Some(positive);
        Ok(())
    }

    /// Takes the newest literal back.
    pub fn pop(&mut self) -> Option<Entry>
        ensures size { self.new.size ≡ self.old.size }
        ensures none { IfNone result (self.old.entries ≡ []) }
        ensures empty { IfNone result (self.new.entries ≡ []) }
        ensures popped { IfSome result (λ entry. self.old.entries ≡ entry ∷ self.new.entries) }
    {
        match self.entries.pop() {
            Some(entry) => {
                self.values[entry.lit.var.0 as usize] = None;
                Some(entry)
            }
            None => None,
        }
    }

    /// The first variable of which nothing is known.
    pub fn first_unknown(&self) -> Option<VarId>
        ensures none { IfNone result ((v : ℕ) → v < self.now.size → IsKnown (literals self.now.entries) v) }
        ensures some { IfSome result (λ v. (v < self.now.size) × IsUnknown (literals self.now.entries) (negative v)) }
    {
        for (index, value) in self.values.iter().enumerate() {
            if value.is_none() {
                return Some(VarId(index as u32));
            }
        }
        None
    }
}
