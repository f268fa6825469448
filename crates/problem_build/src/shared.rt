// The packages and the kinds of which there are several.
ghost use Rattle.std.specs.Prelude.{◌≡◌, IfOk, OnOk, map};
ghost use Rattle.std.specs.Cmp.Lexicographic.{slice_cmp};
ghost use Rattle.std.specs.List.{filter_map, flat_map, fold};
ghost use Rattle.std.specs.BTreeSet.{insert_key};
ghost use Rattle.std.specs.Ordering.{nat_cmp};
ghost use Rattle.op_properties.specs.Offers.{shown};
ghost use Rattle.problem_build.specs.Numbers.{once_in_order};
ghost use Rattle.problem_build.specs.Variables as spec;

use olm_base::{Gvk, Memory, Name};
use op_properties::Offer;
use std::alloc::Global;
use std::collections::BTreeSet;

pub(crate) fn is_of_package(offer: &Offer, name: &Name) -> bool
    ensures { result ≡ spec.is_of_package name.now (shown offer.now) }
{
    match &offer.package {
        Some(package) => name == package,
        None => false,
    }
}

pub(crate) fn has_kind(offer: &Offer, kind: &Gvk) -> bool
    ensures { result ≡ spec.has_kind kind.now (shown offer.now) }
{
    offer.kinds.as_slice().iter().any(|other| kind == other)
}

pub(crate) fn copy_kind(kind: &Gvk) -> Result<Gvk, Memory>
    ensures { IfOk result (λ copy. copy ≡ kind.now) }
{
    Ok(kind.clone()?)
}

fn is_shared_package(offers: &[&Offer], name: &Name) -> bool
    ensures { result ≡ spec.is_shared (map (λ offer. shown offer.now) offers.now) (spec.is_of_package name.now) }
{
    let mut count: usize = 0;
    for offer in offers {
        if is_of_package(offer, name) {
            count += 1;
        }
    }
    count >= 2
}

fn is_shared_kind(offers: &[&Offer], kind: &Gvk) -> bool
    ensures { result ≡ spec.is_shared (map (λ offer. shown offer.now) offers.now) (spec.has_kind kind.now) }
{
    let mut count: usize = 0;
    for offer in offers {
        if has_kind(offer, kind) {
            count += 1;
        }
    }
    count >= 2
}

fn all_packages(alloc: Global, offers: &[&Offer]) -> Result<BTreeSet<Name>, Memory>
    ensures { IfOk result (λ set. set.keys ≡ once_in_order (slice_cmp nat_cmp) (filter_map (λ offer. offer.«package») (map (λ offer. shown offer.now) offers.now))) }
{
    let mut set = BTreeSet::new(alloc);
    for offer in offers {
        if let Some(name) = &offer.package {
            set.insert(name.clone()?)?;
        }
    }
    Ok(set)
}

/// The packages of two or more offers, by name.
pub(crate) fn shared_packages(alloc: Global, offers: &[&Offer]) -> Result<Vec<Name>, Memory>
    ensures { IfOk result (λ found. found.items ≡ spec.packages (map (λ offer. shown offer.now) offers.now)) }
{
    let mut found = Vec::new(alloc);
    let all = all_packages(alloc, offers)?;
    for name in all.iter() {
        if is_shared_package(offers, name) {
            found.push(name.clone()?)?;
        }
    }
    Ok(found)
}

fn add_kinds(set: &mut BTreeSet<Gvk>, kinds: &[Gvk]) -> Result<(), Memory>
    ensures { OnOk result (set.new.keys ≡ fold (insert_key spec.kind_cmp) set.old.keys kinds.now) }
{
    for kind in kinds {
        set.insert(copy_kind(kind)?)?;
    }
    Ok(())
}

fn all_kinds(alloc: Global, offers: &[&Offer]) -> Result<BTreeSet<Gvk>, Memory>
    ensures { IfOk result (λ set. set.keys ≡ once_in_order spec.kind_cmp (flat_map (λ offer. offer.kinds) (map (λ offer. shown offer.now) offers.now))) }
{
    let mut set = BTreeSet::new(alloc);
    for offer in offers {
        add_kinds(&mut set, offer.kinds.as_slice())?;
    }
    Ok(set)
}

/// The kinds that two or more offers provide, by group, version and kind.
pub(crate) fn shared_kinds(alloc: Global, offers: &[&Offer]) -> Result<Vec<Gvk>, Memory>
    ensures { IfOk result (λ found. found.items ≡ spec.kinds (map (λ offer. shown offer.now) offers.now)) }
{
    let mut found = Vec::new(alloc);
    let all = all_kinds(alloc, offers)?;
    for kind in all.iter() {
        if is_shared_kind(offers, kind) {
            found.push(copy_kind(kind)?)?;
        }
    }
    Ok(found)
}
