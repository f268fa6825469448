// The lists of variables that constraints name.
ghost use Rattle.std.specs.Prelude.{◌≡◌, ◌<◌, ◌++◌, IfOk, IfSome, OnOk, length, map};
ghost use Rattle.std.specs.List.{flat_map};
ghost use Rattle.std.specs.Option.{option_to_list};
ghost use Rattle.op_properties.specs.Passing as passing;
ghost use Rattle.problem_build.specs.Asking as asking;
ghost use Rattle.problem_build.specs.Shown.{shown_choices, shown_entry};
ghost use Rattle.problem_build.specs.Variables as spec;

use crate::asking::{Asked, is_candidate, is_upgrade};
use crate::choices::Pool;
use crate::entries::Listed;
use olm_base::{Many, Memory};
use op_constraints::{Constraint, VarId};
use op_properties::{Requirement, passes};
use std::alloc::Global;

fn first_tip(pool: &Pool) -> usize
    requires { spec.Fits (shown_choices pool.now) }
    ensures { result ≡ spec.first_tip (shown_choices pool.now) }
{
    pool.asks.len() + pool.entries.len()
}

fn add_candidates(pool: &Pool, asked: &Asked, found: &mut Vec<VarId>) -> Result<(), Memory>
    requires { spec.Fits (shown_choices pool.now) }
    ensures { OnOk result (found.new.items ≡ found.old.items ++ spec.entries_where (shown_choices pool.now) (asking.is_candidate asked.now)) }
{
    let first = pool.asks.len();
    for (i, entry) in pool.entries.iter().enumerate() {
        if is_candidate(asked, entry) {
            found.push(VarId((first + i) as u32))?;
        }
    }
    Ok(())
}

/// The number of the subscription's installed one, if it has one.
fn installed_one(pool: &Pool, asked: &Asked) -> Option<VarId>
    requires fits { spec.Fits (shown_choices pool.now) }
    requires among { IfSome asked.now.installed (λ place. place < length pool.now.tips.now) }
    ensures { option_to_list result ≡ spec.installed_one (shown_choices pool.now) asked.now }
{
    match asked.installed {
        Some(place) => Some(VarId((first_tip(pool) + place) as u32)),
        None => None,
    }
}

/// The candidates of a subscription.
pub(crate) fn candidates(alloc: Global, pool: &Pool, asked: &Asked) -> Result<Many<VarId>, Memory>
    requires fits { spec.Fits (shown_choices pool.now) }
    requires among { IfSome asked.now.installed (λ place. place < length pool.now.tips.now) }
    ensures { IfOk result (λ found. found ≡ spec.candidates (shown_choices pool.now) asked.now) }
{
    let mut found = Vec::new(alloc);
    add_candidates(pool, asked, &mut found)?;
    if let Some(var) = installed_one(pool, asked) {
        found.push(var)?;
    }
    Ok(Many::from_vec(found))
}

fn add_tips(pool: &Pool, requirement: &Requirement, found: &mut Vec<VarId>) -> Result<(), Memory>
    requires { spec.Fits (shown_choices pool.now) }
    ensures { OnOk result (found.new.items ≡ found.old.items ++ spec.tips_where (shown_choices pool.now) (passing.passes requirement.now)) }
{
    let first = first_tip(pool);
    for (i, offer) in pool.tips.iter().enumerate() {
        if passes(requirement, offer) {
            found.push(VarId((first + i) as u32))?;
        }
    }
    Ok(())
}

fn is_beside(entry: &Listed, other: &Listed) -> bool
    ensures { result ≡ spec.is_beside (shown_entry entry.now) (shown_entry other.now) }
{
    other.catalog_namespace == entry.catalog_namespace && other.catalog == entry.catalog
}

fn passes_beside(entry: &Listed, requirement: &Requirement, other: &Listed) -> bool
    ensures { result ≡ spec.passes_beside (shown_entry entry.now) requirement.now (shown_entry other.now) }
{
    is_beside(entry, other) && passes(requirement, &other.offer)
}

fn passes_elsewhere(entry: &Listed, requirement: &Requirement, other: &Listed) -> bool
    ensures { result ≡ spec.passes_elsewhere (shown_entry entry.now) requirement.now (shown_entry other.now) }
{
    !is_beside(entry, other) && passes(requirement, &other.offer)
}

/// Adds the entries of the entry's own catalog that pass.
fn add_beside(
    pool: &Pool,
    entry: &Listed,
    requirement: &Requirement,
    found: &mut Vec<VarId>,
) -> Result<(), Memory>
    requires { spec.Fits (shown_choices pool.now) }
    ensures { OnOk result (found.new.items ≡ found.old.items ++ spec.entries_where (shown_choices pool.now) (spec.passes_beside (shown_entry entry.now) requirement.now)) }
{
    let first = pool.asks.len();
    for (i, other) in pool.entries.iter().enumerate() {
        if passes_beside(entry, requirement, other) {
            found.push(VarId((first + i) as u32))?;
        }
    }
    Ok(())
}

/// Adds the entries of other catalogs that pass.
fn add_elsewhere(
    pool: &Pool,
    entry: &Listed,
    requirement: &Requirement,
    found: &mut Vec<VarId>,
) -> Result<(), Memory>
    requires { spec.Fits (shown_choices pool.now) }
    ensures { OnOk result (found.new.items ≡ found.old.items ++ spec.entries_where (shown_choices pool.now) (spec.passes_elsewhere (shown_entry entry.now) requirement.now)) }
{
    let first = pool.asks.len();
    for (i, other) in pool.entries.iter().enumerate() {
        if passes_elsewhere(entry, requirement, other) {
            found.push(VarId((first + i) as u32))?;
        }
    }
    Ok(())
}

/// The list of a requirement of an entry: the tips that pass, then the entries of its own catalog, then the others.
fn passing(
    alloc: Global,
    pool: &Pool,
    entry: &Listed,
    requirement: &Requirement,
) -> Result<Many<VarId>, Memory>
    requires { spec.Fits (shown_choices pool.now) }
    ensures { IfOk result (λ found. found ≡ spec.passing (shown_choices pool.now) (shown_entry entry.now) requirement.now) }
{
    let mut found = Vec::new(alloc);
    add_tips(pool, requirement, &mut found)?;
    add_beside(pool, entry, requirement, &mut found)?;
    add_elsewhere(pool, entry, requirement, &mut found)?;
    Ok(Many::from_vec(found))
}

/// Adds a Dependency for each requirement of the entry.
pub(crate) fn add_needs(
    alloc: Global,
    pool: &Pool,
    entry: &Listed,
    row: &mut Vec<Constraint>,
) -> Result<(), Memory>
    requires { spec.Fits (shown_choices pool.now) }
    ensures { OnOk result (row.new.items ≡ row.old.items ++ map (spec.need (shown_choices pool.now) (shown_entry entry.now)) entry.now.requirements) }
{
    for requirement in entry.requirements.as_slice() {
        row.push(Constraint::Dependency(passing(alloc, pool, entry, requirement)?))?;
    }
    Ok(())
}

fn add_conflict(
    pool: &Pool,
    entry: &Listed,
    asked: &Asked,
    row: &mut Vec<Constraint>,
) -> Result<(), Memory>
    requires fits { spec.Fits (shown_choices pool.now) }
    requires among { IfSome asked.now.installed (λ place. place < length pool.now.tips.now) }
    ensures { OnOk result (row.new.items ≡ row.old.items ++ spec.conflicts_with (shown_choices pool.now) (shown_entry entry.now) asked.now) }
{
    if !is_upgrade(asked, entry) {
        return Ok(());
    }
    match installed_one(pool, asked) {
        Some(var) => {
            row.push(Constraint::Conflict(var))?;
            Ok(())
        }
        None => Ok(()),
    }
}

/// Adds a Conflict for each subscription that has the entry among its upgrades.
pub(crate) fn add_conflicts(
    pool: &Pool,
    entry: &Listed,
    row: &mut Vec<Constraint>,
) -> Result<(), Memory>
    requires { spec.Fits (shown_choices pool.now) }
    ensures { OnOk result (row.new.items ≡ row.old.items ++ flat_map (spec.conflicts_with (shown_choices pool.now) (shown_entry entry.now)) pool.now.asks.now) }
{
    for asked in pool.asks {
        add_conflict(pool, entry, asked, row)?;
    }
    Ok(())
}
