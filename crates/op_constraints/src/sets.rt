//! Sets of variables, and what is true of them.

ghost use Rattle.std.specs.Prelude.{◌≡◌, ◌<◌, false, true, length, replicate, slice_set, IfOk};
ghost use Rattle.std.specs.List.{list_any, count_by, AllByRecursion};
ghost use Rattle.op_constraints.specs.Meets.{at, is_true_of, IsWithin};

use crate::{Constraint, Problem, VarId};
use olm_base::Memory;
use std::alloc::Global;
use std::marker::Model;

/// A set of a problem's variables.
#[derive(Debug, Drop)]
pub struct VarSet {
    bits: Vec<bool>,
}

impl Model for VarSet {
    ghost use Rattle.std.specs.Prelude.{List, Bool};

    ghost Value = { List Bool };

    ghost view = { λ s. s.bits.items };
}

impl VarSet {
    /// The empty set.
    pub fn new(alloc: Global, problem: &Problem) -> Result<VarSet, Memory>
        ensures { IfOk result (λ set. set ≡ replicate (length problem.now) false) }
    {
        Ok(VarSet {
            bits: vec![in alloc; false; problem.len()]?,
        })
    }

    pub fn add(&mut self, var: VarId)
        requires { var < length self.old }
        ensures { self.new ≡ slice_set self.old var true }
    {
        self.bits[var.0 as usize] = true;
    }

    pub fn has(&self, var: VarId) -> bool
        requires { var < length self.now }
        ensures { result ≡ at self.now var }
    {
        self.bits[var.0 as usize]
    }

    pub(crate) fn remove(&mut self, var: VarId)
        requires { var < length self.old }
        ensures { self.new ≡ slice_set self.old var false }
    {
        self.bits[var.0 as usize] = false;
    }
}

/// Whether one of the members is in.
pub(crate) fn has_any(set: &VarSet, members: &[VarId]) -> bool
    requires { AllByRecursion (λ m. m < length set.now) members.now }
    ensures { result ≡ list_any (at set.now) members.now }
{
    for member in members {
        if set.has(*member) {
            return true;
        }
    }
    false
}

/// How many of the members are in.
fn count(set: &VarSet, members: &[VarId]) -> usize
    requires { AllByRecursion (λ m. m < length set.now) members.now }
    ensures { result ≡ count_by (at set.now) members.now }
{
    let mut count = 0;
    for member in members {
        if set.has(*member) {
            count += 1;
        }
    }
    count
}

/// Whether the variable's constraint is true of the set. Members of AtMost are counted as often as they stand; a problem keeps each once.
pub fn is_met(set: &VarSet, var: VarId, constraint: &Constraint) -> bool
    requires var { var < length set.now }
    requires within { IsWithin (length set.now) constraint.now }
    ensures { result ≡ is_true_of (at set.now) var constraint.now }
{
    match constraint {
        Constraint::Mandatory => set.has(var),
        Constraint::Prohibited => !set.has(var),
        Constraint::Dependency(members) => !set.has(var) || has_any(set, members.as_slice()),
        Constraint::Conflict(other) => !set.has(var) || !set.has(*other),
        Constraint::AtMost { most, members } => count(set, members.as_slice()) <= *most as usize,
    }
}
