// What denies the set of things that were chosen: a clause of the problem, or a lemma.
ghost use Rattle.std.specs.Prelude.{◌≡◌, ℕ, [], ◌∷◌, ◌<◌, ◌≤◌, ◌^◌, List, true, false, ◌&&◌, length, map, slice_get, Some, IfOk, IfNone, IfSome};
ghost use Rattle.std.specs.List.{AllByRecursion, list_all, count_by};
ghost use Rattle.std.specs.Option.{option_copied};
ghost use Rattle.op_constraints.specs.declared.TheConstants.{VAR_LIMIT};
ghost use Rattle.op_constraints.specs.Meets.{constraint_at, at, IsWithin, IsClosed};
ghost use Rattle.op_constraints.specs.Kept.{is_distinct, HasDistinctMembers};
ghost use Rattle.op_constraints.specs.declared.Constraint.{Constraint};
ghost use Rattle.op_constraints.specs.declared.Lit.{Lit};
ghost use Rattle.derivations.specs.declared.Lemma.{Lemma};
ghost use Rattle.derivations.specs.Clauses.{negative, is_too_many};
ghost use Rattle.derivations.specs.Follows.{clauses, LogFollows};
ghost use Rattle.preference_search.specs.Denials.{is_denied, IsAllowed, AllowsSet, IsDenial, IsGivenDenial, IsDeniedByOne, NoLemmaDenies};
ghost use Rattle.preference_search.specs.declared.naming.Place.{Place};
ghost use Rattle.preference_search.specs.Pairs.{both_once};

use crate::naming::Place;
use derivations::{Hint, Lemma, Log, Refutation};
use olm_base::{Many, Memory};
use op_constraints::{Constraint, Lit, Problem, VarId};
use std::alloc::Global;

/// The clause that not all of these are in.
pub(crate) fn denials_of(alloc: Global, vars: &[VarId]) -> Result<Many<Lit>, Memory>
    ensures { IfOk result (λ lits. lits ≡ map negative vars.now) }
{
    let mut lits = Vec::new(alloc);
    for var in vars {
        lits.push(Lit {
            var: *var,
            positive: false,
        })?;
    }
    Ok(Many::from_vec(lits))
}

/// Says by one hint that not all of these are in.
fn denial(alloc: Global, vars: &[VarId], hint: Hint) -> Result<Refutation, Memory>
    ensures lits { IfOk result (λ denial. denial.lits ≡ map negative vars.now) }
    ensures hints { IfOk result (λ denial. denial.hints ≡ hint ∷ []) }
{
    let lits = denials_of(alloc, vars)?;
    let hints = Many::from_vec(vec![in alloc; hint]?);
    Ok(Refutation { lits, hints })
}

/// Where the variable is in, its constraint with this number says that it is out.
fn alone(
    alloc: Global,
    bits: &[bool],
    var: VarId,
    constraint: u32,
) -> Result<Option<Refutation>, Memory>
    requires { var < length bits.now }
    ensures none { IfOk result (λ found. IfNone found (at bits.now var ≡ false)) }
    ensures lits { IfOk result (λ found. IfSome found (λ d. d.lits ≡ map negative (var ∷ []))) }
    ensures hints { IfOk result (λ found. IfSome found (λ d. d.hints ≡ Hint.Given var constraint [] ∷ [])) }
    ensures some { IfOk result (λ found. IfSome found (λ d. at bits.now var ≡ true)) }
{
    if !bits[var.0 as usize] {
        return Ok(None);
    }
    let hint = Hint::Given {
        var,
        constraint,
        members: Many::new(alloc),
    };
    Ok(Some(denial(alloc, &[var], hint)?))
}

/// Where both are in, the first one's constraint with this number says that they can't be.
fn apart(
    alloc: Global,
    bits: &[bool],
    var: VarId,
    other: VarId,
    constraint: u32,
) -> Result<Option<Refutation>, Memory>
    requires var { var < length bits.now }
    requires other { other < length bits.now }
    ensures none { IfOk result (λ found. IfNone found ((at bits.now var && at bits.now other) ≡ false)) }
    ensures lits { IfOk result (λ found. IfSome found (λ d. d.lits ≡ map negative (both_once var other))) }
    ensures hints { IfOk result (λ found. IfSome found (λ d. d.hints ≡ Hint.Given var constraint [] ∷ [])) }
    ensures some { IfOk result (λ found. IfSome found (λ d. (at bits.now var && at bits.now other) ≡ true)) }
{
    if !bits[var.0 as usize] || !bits[other.0 as usize] {
        return Ok(None);
    }
    let hint = Hint::Given {
        var,
        constraint,
        members: Many::new(alloc),
    };
    if var.0 == other.0 {
        Ok(Some(denial(alloc, &[var], hint)?))
    } else {
        Ok(Some(denial(alloc, &[var, other], hint)?))
    }
}

/// The first of the members that are in, one more than `most`, where there are so many.
fn too_many(
    alloc: Global,
    bits: &[bool],
    most: u32,
    members: &[VarId],
) -> Result<Option<Many<VarId>>, Memory>
    requires within { AllByRecursion (λ m. m < length bits.now) members.now }
    requires distinct { is_distinct members.now ≡ true }
    ensures none { IfOk result (λ found. IfNone found (count_by (at bits.now) members.now ≤ most)) }
    ensures many { IfOk result (λ found. IfSome found (λ named. is_too_many most members.now named ≡ true)) }
    ensures inside { IfOk result (λ found. IfSome found (λ named. list_all (at bits.now) named ≡ true)) }
{
    let mut named = Vec::new(alloc);
    for member in members {
        if bits[member.0 as usize] {
            named.push(*member)?;
            if named.len() > most as usize {
                return Ok(Some(Many::from_vec(named)));
            }
        }
    }
    Ok(None)
}

/// Where more than `most` of the members are in, the variable's constraint with this number says that they can't be.
fn above(
    alloc: Global,
    bits: &[bool],
    var: VarId,
    constraint: u32,
    most: u32,
    members: &[VarId],
) -> Result<Option<Refutation>, Memory>
    requires within { AllByRecursion (λ m. m < length bits.now) members.now }
    requires distinct { is_distinct members.now ≡ true }
    ensures none { IfOk result (λ found. IfNone found (count_by (at bits.now) members.now ≤ most)) }
    ensures some { IfOk result (λ found. IfSome found (λ d. IsGivenDenial (at bits.now) var constraint (Constraint.AtMost most members.now) d)) }
{
    match too_many(alloc, bits, most, members)? {
        Some(named) => {
            let lits = denials_of(alloc, named.as_slice())?;
            let hint = Hint::Given {
                var,
                constraint,
                members: named,
            };
            let hints = Many::from_vec(vec![in alloc; hint]?);
            Ok(Some(Refutation { lits, hints }))
        }
        None => Ok(None),
    }
}

/// A denial of the set by a clause of the variable's constraint with this number, where there is one.
fn by_constraint(
    alloc: Global,
    bits: &[bool],
    var: VarId,
    number: u32,
    constraint: &Constraint,
) -> Result<Option<Refutation>, Memory>
    requires var { var < length bits.now }
    requires within { IsWithin (length bits.now) constraint.now }
    requires distinct { HasDistinctMembers constraint.now }
    ensures none { IfOk result (λ found. IfNone found (IsAllowed (at bits.now) var constraint.now)) }
    ensures some { IfOk result (λ found. IfSome found (λ d. IsGivenDenial (at bits.now) var number constraint.now d)) }
{
    match constraint {
        Constraint::Mandatory => Ok(None),
        Constraint::Prohibited => alone(alloc, bits, var, number),
        Constraint::Dependency(members) => {
            if members.as_slice().is_empty() {
                alone(alloc, bits, var, number)
            } else {
                Ok(None)
            }
        }
        Constraint::Conflict(other) => apart(alloc, bits, var, *other, number),
        Constraint::AtMost { most, members } => {
            above(alloc, bits, var, number, *most, members.as_slice())
        }
    }
}

/// A denial of the set by a clause of one of the variable's constraints, where there is one.
fn by_any(
    alloc: Global,
    bits: &[bool],
    var: VarId,
    constraints: &[Constraint],
) -> Result<Option<Refutation>, Memory>
    requires var { var < length bits.now }
    requires few { length constraints.now ≤ VAR_LIMIT }
    requires within { AllByRecursion (λ c. IsWithin (length bits.now) c) constraints.now }
    requires distinct { AllByRecursion HasDistinctMembers constraints.now }
    ensures none { IfOk result (λ found. IfNone found ((place : ℕ) (c : Constraint) → slice_get constraints.now place ≡ Some c → IsAllowed (at bits.now) var c)) }
    ensures some { IfOk result (λ found. IfSome found (λ d. IsDeniedByOne (at bits.now) var constraints.now d)) }
{
    for (number, constraint) in constraints.iter().enumerate() {
        if let Some(found) = by_constraint(alloc, bits, var, number as u32, constraint)? {
            return Ok(Some(found));
        }
    }
    Ok(None)
}

/// A denial of the set by a clause that the problem gives, where there is one. It goes through the whole problem.
pub(crate) fn by_given(
    alloc: Global,
    problem: &Problem,
    bits: &[bool],
) -> Result<Option<Refutation>, Memory>
    requires closed { IsClosed problem.now }
    requires bits { length bits.now ≡ length problem.now }
    ensures none { IfOk result (λ found. IfNone found (AllowsSet problem.now (at bits.now))) }
    ensures some { IfOk result (λ found. IfSome found (λ d. (log : List Lemma) → IsDenial problem.now log (at bits.now) d)) }
{
    let count = problem.len();
    for index in 0..count {
        let var = VarId(index as u32);
        if let Some(found) = by_any(alloc, bits, var, problem.constraints(var))? {
            return Ok(Some(found));
        }
    }
    Ok(None)
}

/// A denial of the set by a clause of the owner's constraint with this number, where there is one.
fn by_place(
    alloc: Global,
    problem: &Problem,
    bits: &[bool],
    owner: VarId,
    number: u32,
) -> Result<Option<Refutation>, Memory>
    requires closed { IsClosed problem.now }
    requires bits { length bits.now ≡ length problem.now }
    ensures none { IfOk result (λ found. IfNone found ((c : Constraint) → constraint_at problem.now owner number ≡ Some c → IsAllowed (at bits.now) owner c)) }
    ensures some { IfOk result (λ found. IfSome found (λ d. (log : List Lemma) → IsDenial problem.now log (at bits.now) d)) }
{
    let _count = problem.len();
    match problem.find(owner, number) {
        Some(constraint) => by_constraint(alloc, bits, owner, number, constraint),
        None => Ok(None),
    }
}

/// A denial of the set by a clause of one of the constraints that stand there, where there is one.
pub(crate) fn by_places(
    alloc: Global,
    problem: &Problem,
    bits: &[bool],
    places: &[Place],
) -> Result<Option<Refutation>, Memory>
    requires closed { IsClosed problem.now }
    requires bits { length bits.now ≡ length problem.now }
    ensures none { IfOk result (λ found. IfNone found ((i : ℕ) (place : Place) (c : Constraint)
        → slice_get places.now i ≡ Some place
        → constraint_at problem.now place.owner place.constraint ≡ Some c
        → IsAllowed (at bits.now) place.owner c)) }
    ensures some { IfOk result (λ found. IfSome found (λ d. (log : List Lemma) → IsDenial problem.now log (at bits.now) d)) }
{
    for place in places {
        let owner = VarId(place.owner);
        if let Some(found) = by_place(alloc, problem, bits, owner, place.constraint)? {
            return Ok(Some(found));
        }
    }
    Ok(None)
}

/// Whether each literal of the clause says that one of the set is out.
fn are_denied(bits: &[bool], lits: &[Lit]) -> bool
    ensures { result ≡ is_denied (at bits.now) lits.now }
{
    for lit in lits {
        if lit.positive || !is_in(bits, lit.var) {
            return false;
        }
    }
    true
}

/// Whether the variable is one of the set.
pub(crate) fn is_in(bits: &[bool], var: VarId) -> bool
    ensures { result ≡ at bits.now var }
{
    match bits.get(var.0 as usize) {
        Some(bit) => *bit,
        None => false,
    }
}

/// A denial of the set by a lemma of the log, where there is one. It goes through the whole log.
pub(crate) fn by_lemma(
    alloc: Global,
    log: &Log,
    bits: &[bool],
) -> Result<Option<Refutation>, Memory>
    requires { length log.now.lemmas < 2 ^ 32 }
    ensures none { IfOk result (λ found. IfNone found (NoLemmaDenies log.now.lemmas (at bits.now))) }
    ensures some { IfOk result (λ found. IfSome found (λ d.
        (problem : List (List Constraint)) → LogFollows problem log.now.lemmas → IsDenial problem log.now.lemmas (at bits.now) d)) }
{
    for (number, lemma) in log.lemmas.as_slice().iter().enumerate() {
        if are_denied(bits, lemma.lits.as_slice()) {
            return Ok(Some(by_number(alloc, number as u32, lemma.lits.as_slice())?));
        }
    }
    Ok(None)
}

/// The lemma with this number.
fn numbered(log: &Log, number: u32) -> Option<&Lemma>
    ensures { option_copied result ≡ slice_get log.now.lemmas number }
{
    log.lemmas.as_slice().get(number as usize)
}

/// A denial of the set by the lemma with this number, where it is one.
fn by_numbered(
    alloc: Global,
    log: &Log,
    bits: &[bool],
    number: u32,
) -> Result<Option<Refutation>, Memory>
    ensures none { IfOk result (λ found. IfNone found ((clause : List Lit)
        → slice_get (clauses log.now.lemmas) number ≡ Some clause
        → is_denied (at bits.now) clause ≡ false)) }
    ensures some { IfOk result (λ found. IfSome found (λ d.
        (problem : List (List Constraint)) → LogFollows problem log.now.lemmas → IsDenial problem log.now.lemmas (at bits.now) d)) }
{
    match numbered(log, number) {
        Some(lemma) => {
            if are_denied(bits, lemma.lits.as_slice()) {
                Ok(Some(by_number(alloc, number, lemma.lits.as_slice())?))
            } else {
                Ok(None)
            }
        }
        None => Ok(None),
    }
}

/// A denial of the set by one of the lemmas with these numbers, where there is one.
pub(crate) fn by_lemmas(
    alloc: Global,
    log: &Log,
    bits: &[bool],
    numbers: &[u32],
) -> Result<Option<Refutation>, Memory>
    ensures none { IfOk result (λ found. IfNone found ((i number : ℕ) (clause : List Lit)
        → slice_get numbers.now i ≡ Some number
        → slice_get (clauses log.now.lemmas) number ≡ Some clause
        → is_denied (at bits.now) clause ≡ false)) }
    ensures some { IfOk result (λ found. IfSome found (λ d.
        (problem : List (List Constraint)) → LogFollows problem log.now.lemmas → IsDenial problem log.now.lemmas (at bits.now) d)) }
{
    for number in numbers {
        if let Some(found) = by_numbered(alloc, log, bits, *number)? {
            return Ok(Some(found));
        }
    }
    Ok(None)
}

/// These literals, by the lemma with this number.
pub(crate) fn by_number(alloc: Global, number: u32, lits: &[Lit]) -> Result<Refutation, Memory>
    ensures lits { IfOk result (λ denial. denial.lits ≡ lits.now) }
    ensures hints { IfOk result (λ denial. denial.hints ≡ Hint.Lemma number ∷ []) }
{
    let mut copy = Vec::new(alloc);
    for lit in lits {
        copy.push(*lit)?;
    }
    Ok(Refutation {
        lits: Many::from_vec(copy),
        hints: Many::from_vec(vec![in alloc; Hint::Lemma(number)]?),
    })
}
