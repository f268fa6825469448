//! What an AtMost says over a trail.

ghost use Rattle.std.specs.Prelude.{◌≡◌, ℕ, ◌<◌, ◌≤◌, ◌++◌, true, List, map, length, IfOk, IfNone, IfSome};
ghost use Rattle.std.specs.List.{count_by, filter, AllByRecursion};
ghost use Rattle.op_constraints.specs.Walks.{is_among};
ghost use Rattle.op_constraints.specs.Kept.{is_distinct};
ghost use Rattle.op_constraints.specs.declared.Constraint.TheVariants as constraints;
ghost use Rattle.derivations.specs.Clauses.{positive, negative, is_in};
ghost use Rattle.derivations.specs.declared.Hint.TheVariants as hints;
ghost use Rattle.clause_trail.specs.Trails.{literals, IsUnknown, IsKnown};
ghost use Rattle.clause_trail.specs.Scans.{ScansConstraint};

use crate::{Reason, Scan, Trail};
use derivations::Hint;
use olm_base::{Many, Memory};
use op_constraints::{Lit, VarId};
use std::alloc::Global;

/// Whether the variable is known to be in.
fn is_known_in(trail: &Trail, var: VarId) -> bool
    ensures { result ≡ is_in (literals trail.now.entries) (positive var) }
{
    trail.is_true(&Lit {
        var,
        positive: true,
    })
}

fn is_known_out(trail: &Trail, var: VarId) -> bool
    ensures { result ≡ is_in (literals trail.now.entries) (negative var) }
{
    trail.is_true(&Lit {
        var,
        positive: false,
    })
}

/// How many of the members are known to be in.
fn count_in(trail: &Trail, members: &[VarId]) -> usize
    ensures { result ≡ count_by (λ v. is_in (literals trail.now.entries) (positive v)) members.now }
{
    let mut count = 0;
    for member in members {
        if is_known_in(trail, *member) {
            count += 1;
        }
    }
    count
}

/// A member of which nothing is known.
fn find_unknown(trail: &Trail, members: &[VarId]) -> Option<VarId>
    ensures none { IfNone result (AllByRecursion (λ v. IsKnown (literals trail.now.entries) v) members.now) }
    ensures some { IfSome result (λ v. IsUnknown (literals trail.now.entries) (negative v)) }
    ensures member { IfSome result (λ v. is_among members.now v ≡ true) }
{
    for member in members {
        if !is_known_in(trail, *member) && !is_known_out(trail, *member) {
            return Some(*member);
        }
    }
    None
}

/// The first ones, and then the members that are known to be in.
fn with_known(trail: &Trail, first: Vec<VarId>, members: &[VarId]) -> Result<Vec<VarId>, Memory>
    ensures { IfOk result (λ named. named.items ≡ first.items ++ filter (λ v. is_in (literals trail.now.entries) (positive v)) members.now) }
{
    let mut named = first;
    for member in members {
        if is_known_in(trail, *member) {
            named.push(*member)?;
        }
    }
    Ok(named)
}

/// The clause that says that one of these is out, by the constraint that gives it.
fn not_all(alloc: Global, var: VarId, place: u32, named: Vec<VarId>) -> Result<Reason, Memory>
    ensures hint { IfOk result (λ reason. reason.hint ≡ hints.Given var place named.items) }
    ensures lits { IfOk result (λ reason. reason.lits ≡ map negative named.items) }
{
    let mut lits = Vec::new(alloc);
    for member in &named {
        lits.push(Lit {
            var: *member,
            positive: false,
        })?;
    }
    let hint = Hint::Given {
        var,
        constraint: place,
        members: Many::from_vec(named),
    };
    Ok(Reason {
        hint,
        lits: Many::from_vec(lits),
    })
}

/// What it says where more members are known to be in than may be.
fn too_many(
    alloc: Global,
    trail: &Trail,
    var: VarId,
    place: u32,
    most: u32,
    members: &[VarId],
) -> Result<Scan, Memory>
    requires distinct { is_distinct members.now ≡ true }
    requires many { most < count_by (λ v. is_in (literals trail.now.entries) (positive v)) members.now }
    ensures { IfOk result (λ scan. ScansConstraint (literals trail.now.entries) var place (constraints.AtMost most members.now) scan) }
{
    let mut named = with_known(trail, Vec::new(alloc), members)?;
    named.truncate(most as usize + 1);
    Ok(Scan::Conflict(not_all(alloc, var, place, named)?))
}

/// What it says where as many members are known to be in as may be, and nothing is known of this one.
fn full(
    alloc: Global,
    trail: &Trail,
    var: VarId,
    place: u32,
    most: u32,
    members: &[VarId],
    unknown: VarId,
) -> Result<Scan, Memory>
    requires distinct { is_distinct members.now ≡ true }
    requires many { count_by (λ v. is_in (literals trail.now.entries) (positive v)) members.now ≡ most }
    requires unknown { IsUnknown (literals trail.now.entries) (negative unknown) }
    requires member { is_among members.now unknown ≡ true }
    ensures { IfOk result (λ scan. ScansConstraint (literals trail.now.entries) var place (constraints.AtMost most members.now) scan) }
{
    let first = vec![in alloc; unknown]?;
    let named = with_known(trail, first, members)?;
    let lit = Lit {
        var: unknown,
        positive: false,
    };
    Ok(Scan::Unit(lit, not_all(alloc, var, place, named)?))
}

/// What an AtMost says over the trail.
pub(crate) fn scan_at_most(
    alloc: Global,
    trail: &Trail,
    var: VarId,
    place: u32,
    most: u32,
    members: &[VarId],
) -> Result<Scan, Memory>
    requires { is_distinct members.now ≡ true }
    ensures { IfOk result (λ scan. ScansConstraint (literals trail.now.entries) var place (constraints.AtMost most members.now) scan) }
{
    let count = count_in(trail, members);
    if count > most as usize {
        return too_many(alloc, trail, var, place, most, members);
    }
    if count < most as usize {
        return Ok(Scan::Settled);
    }
    match find_unknown(trail, members) {
        Some(unknown) => full(alloc, trail, var, place, most, members, unknown),
        None => Ok(Scan::Settled),
    }
}
