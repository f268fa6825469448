// The variables of a problem, each with its constraints.
ghost use Rattle.std.specs.Prelude.{◌≡◌, ◌++◌, ◌∷◌, [], ◌+◌, ◌≤◌, ◌<◌, nat_eq, false, IfOk, IfSome, OnOk, length, map};
ghost use Rattle.std.specs.List.{range_with_len};
ghost use Rattle.std.specs.Option.{option_map_or};
ghost use Rattle.op_constraints.specs.declared.Constraint.TheVariants.{AtMost};
ghost use Rattle.op_constraints.specs.declared.TheConstants.{VAR_LIMIT};
ghost use Rattle.op_properties.specs.Offers.{shown};
ghost use Rattle.problem_build.specs.Numbers.{numbers_where};
ghost use Rattle.problem_build.specs.Shown.{shown_choices, shown_entry};
ghost use Rattle.problem_build.specs.Variables as spec;

use crate::asking::Asked;
use crate::candidates::{add_conflicts, add_needs, candidates};
use crate::choices::Pool;
use crate::entries::Listed;
use crate::shared::{has_kind, is_of_package};
use olm_base::{Gvk, Many, Memory, Name};
use op_constraints::{Constraint, VarId};
use op_properties::Offer;
use std::alloc::Global;

fn of_subscription(alloc: Global, pool: &Pool, asked: &Asked) -> Result<Many<Constraint>, Memory>
    requires fits { spec.Fits (shown_choices pool.now) }
    requires among { IfSome asked.now.installed (λ place. place < length pool.now.tips.now) }
    ensures { IfOk result (λ row. row ≡ spec.of_subscription (shown_choices pool.now) asked.now) }
{
    let mut row = Many::new(alloc);
    row.push(Constraint::Mandatory)?;
    row.push(Constraint::Dependency(candidates(alloc, pool, asked)?))?;
    Ok(row)
}

fn of_entry(alloc: Global, pool: &Pool, entry: &Listed) -> Result<Many<Constraint>, Memory>
    requires { spec.Fits (shown_choices pool.now) }
    ensures { IfOk result (λ row. row ≡ spec.of_entry (shown_choices pool.now) (shown_entry entry.now)) }
{
    let mut row = Vec::new(alloc);
    add_needs(alloc, pool, entry, &mut row)?;
    add_conflicts(pool, entry, &mut row)?;
    Ok(Many::from_vec(row))
}

fn is_at(asked: &Asked, place: usize) -> bool
    ensures { result ≡ option_map_or (nat_eq place) asked.now.installed false }
{
    match asked.installed {
        Some(other) => place == other,
        None => false,
    }
}

fn is_installed_one(asks: &[Asked], place: usize) -> bool
    ensures { result ≡ spec.is_installed_one asks.now place }
{
    asks.iter().any(|asked| is_at(asked, place))
}

fn of_tip(alloc: Global, asks: &[Asked], place: usize) -> Result<Many<Constraint>, Memory>
    ensures { IfOk result (λ row. row ≡ spec.of_tip asks.now place) }
{
    let mut row = Many::new(alloc);
    if is_installed_one(asks, place) {
        return Ok(row);
    }
    row.push(Constraint::Mandatory)?;
    Ok(row)
}

fn members_of_package(
    alloc: Global,
    first: usize,
    offers: &[&Offer],
    name: &Name,
) -> Result<Many<VarId>, Memory>
    requires { first + length offers.now ≤ VAR_LIMIT }
    ensures { IfOk result (λ found. found ≡ numbers_where first (spec.is_of_package name.now) (map (λ offer. shown offer.now) offers.now)) }
{
    let mut found = Many::new(alloc);
    for (i, offer) in offers.iter().enumerate() {
        if is_of_package(offer, name) {
            found.push(VarId((first + i) as u32))?;
        }
    }
    Ok(found)
}

fn members_of_kind(
    alloc: Global,
    first: usize,
    offers: &[&Offer],
    kind: &Gvk,
) -> Result<Many<VarId>, Memory>
    requires { first + length offers.now ≤ VAR_LIMIT }
    ensures { IfOk result (λ found. found ≡ numbers_where first (spec.has_kind kind.now) (map (λ offer. shown offer.now) offers.now)) }
{
    let mut found = Many::new(alloc);
    for (i, offer) in offers.iter().enumerate() {
        if has_kind(offer, kind) {
            found.push(VarId((first + i) as u32))?;
        }
    }
    Ok(found)
}

fn one_of(alloc: Global, members: Many<VarId>) -> Result<Many<Constraint>, Memory>
    ensures { IfOk result (λ row. row ≡ AtMost 1 members ∷ []) }
{
    let mut row = Many::new(alloc);
    row.push(Constraint::AtMost { most: 1, members })?;
    Ok(row)
}

/// The rows of a problem that are made so far.
pub(crate) type Rows = Vec<Many<Constraint>>;

fn add_subscriptions(alloc: Global, pool: &Pool, rows: &mut Rows) -> Result<(), Memory>
    requires { spec.Fits (shown_choices pool.now) }
    ensures { OnOk result (rows.new.items ≡ rows.old.items ++ map (spec.of_subscription (shown_choices pool.now)) pool.now.asks.now) }
{
    for asked in pool.asks {
        rows.push(of_subscription(alloc, pool, asked)?)?;
    }
    Ok(())
}

fn add_entries(alloc: Global, pool: &Pool, rows: &mut Rows) -> Result<(), Memory>
    requires { spec.Fits (shown_choices pool.now) }
    ensures { OnOk result (rows.new.items ≡ rows.old.items ++ map (spec.of_entry (shown_choices pool.now)) (map (λ entry. shown_entry entry.now) pool.now.entries.now)) }
{
    for entry in pool.entries {
        rows.push(of_entry(alloc, pool, entry)?)?;
    }
    Ok(())
}

fn add_tips(alloc: Global, pool: &Pool, rows: &mut Rows) -> Result<(), Memory>
    ensures { OnOk result (rows.new.items ≡ rows.old.items ++ map (spec.of_tip pool.now.asks.now) (range_with_len 0 (length pool.now.tips.now))) }
{
    for place in 0..pool.tips.len() {
        rows.push(of_tip(alloc, pool.asks, place)?)?;
    }
    Ok(())
}

fn add_packages(
    alloc: Global,
    first: usize,
    offers: &[&Offer],
    packages: &[Name],
    rows: &mut Rows,
) -> Result<(), Memory>
    requires { first + length offers.now ≤ VAR_LIMIT }
    ensures { OnOk result (rows.new.items ≡ rows.old.items ++ map (λ name. AtMost 1 (numbers_where first (spec.is_of_package name) (map (λ offer. shown offer.now) offers.now)) ∷ []) packages.now) }
{
    for name in packages {
        let members = members_of_package(alloc, first, offers, name)?;
        rows.push(one_of(alloc, members)?)?;
    }
    Ok(())
}

fn add_kinds(
    alloc: Global,
    first: usize,
    offers: &[&Offer],
    kinds: &[Gvk],
    rows: &mut Rows,
) -> Result<(), Memory>
    requires { first + length offers.now ≤ VAR_LIMIT }
    ensures { OnOk result (rows.new.items ≡ rows.old.items ++ map (λ kind. AtMost 1 (numbers_where first (spec.has_kind kind) (map (λ offer. shown offer.now) offers.now)) ∷ []) kinds.now) }
{
    for kind in kinds {
        let members = members_of_kind(alloc, first, offers, kind)?;
        rows.push(one_of(alloc, members)?)?;
    }
    Ok(())
}

/// The variables with their constraints.
pub(crate) fn rows(
    alloc: Global,
    pool: &Pool,
    offers: &[&Offer],
    packages: &[Name],
    kinds: &[Gvk],
) -> Result<Rows, Memory>
    requires fits { spec.Fits (shown_choices pool.now) }
    requires offers { map (λ offer. shown offer.now) offers.now ≡ spec.provided (shown_choices pool.now) }
    requires packages { packages.now ≡ spec.packages (spec.provided (shown_choices pool.now)) }
    requires kinds { kinds.now ≡ spec.kinds (spec.provided (shown_choices pool.now)) }
    ensures { IfOk result (λ rows. rows.items ≡ spec.problem (shown_choices pool.now)) }
{
    let first = pool.asks.len();
    let mut rows = Vec::new(alloc);
    add_subscriptions(alloc, pool, &mut rows)?;
    add_entries(alloc, pool, &mut rows)?;
    add_tips(alloc, pool, &mut rows)?;
    add_packages(alloc, first, offers, packages, &mut rows)?;
    add_kinds(alloc, first, offers, kinds, &mut rows)?;
    Ok(rows)
}
