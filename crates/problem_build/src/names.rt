// What the variables of a problem stand for.
ghost use Rattle.std.specs.Prelude.{◌≡◌, ◌++◌, IfOk, OnOk, map};
ghost use Rattle.problem_build.specs.Shown.{shown_entry};
ghost use Rattle.problem_build.specs.Variables as spec;
ghost use Rattle.problem_build.specs.declared.names.VarName.TheVariants as variable;

use crate::asking::installed;
use crate::entries::Listed;
use crate::shared::copy_kind;
use cluster_objects::{Basis, SubSpec, Taken, Tip};
use olm_base::{Gvk, Memory, Name};
use std::alloc::Global;

/// What a variable stands for.
#[derive(Debug, Drop)]
pub enum VarName {
    /// The subscription of this name.
    Subscription(Name),
    /// An entry, with what taking it means.
    Entry { taken: Taken },
    /// The installed version of this name.
    Installed(Name),
    /// Of this package one version at most.
    OnePackage(Name),
    /// Of this kind one provider at most.
    OneKind(Gvk),
}

fn add_subscriptions(
    subscriptions: &[(Name, SubSpec)],
    names: &mut Vec<VarName>,
) -> Result<(), Memory>
    ensures { OnOk result (names.new.items ≡ names.old.items ++ map (λ subscription. variable.Subscription subscription.0) subscriptions.now) }
{
    for subscription in subscriptions {
        names.push(VarName::Subscription(subscription.0.clone()?))?;
    }
    Ok(())
}

/// The name of the first tip of a package.
fn replaced_by(tips: &[Tip], package: &Name) -> Result<Option<Name>, Memory>
    ensures { IfOk result (λ name. name ≡ spec.replaced tips.now «package».now) }
{
    match installed(tips, package) {
        Some(tip) => Ok(Some(tip.name.clone()?)),
        None => Ok(None),
    }
}

fn taken(tips: &[Tip], entry: &Listed) -> Result<Taken, Memory>
    ensures { IfOk result (λ taken. taken ≡ spec.taken tips.now (shown_entry entry.now)) }
{
    Ok(Taken {
        catalog_namespace: entry.catalog_namespace.clone()?,
        catalog: entry.catalog.clone()?,
        package: entry.package.clone()?,
        channel: entry.channel.clone()?,
        name: entry.name.clone()?,
        version: entry.version.clone()?,
        replaces: replaced_by(tips, &entry.package)?,
    })
}

fn add_entries(tips: &[Tip], entries: &[&Listed], names: &mut Vec<VarName>) -> Result<(), Memory>
    ensures { OnOk result (names.new.items ≡ names.old.items ++ map (λ entry. variable.Entry (spec.taken tips.now entry)) (map (λ entry. shown_entry entry.now) entries.now)) }
{
    for entry in entries {
        names.push(VarName::Entry {
            taken: taken(tips, entry)?,
        })?;
    }
    Ok(())
}

fn add_tips(tips: &[Tip], names: &mut Vec<VarName>) -> Result<(), Memory>
    ensures { OnOk result (names.new.items ≡ names.old.items ++ map (λ tip. variable.Installed tip.name) tips.now) }
{
    for tip in tips {
        names.push(VarName::Installed(tip.name.clone()?))?;
    }
    Ok(())
}

fn add_packages(packages: &[Name], names: &mut Vec<VarName>) -> Result<(), Memory>
    ensures { OnOk result (names.new.items ≡ names.old.items ++ map variable.OnePackage packages.now) }
{
    for name in packages {
        names.push(VarName::OnePackage(name.clone()?))?;
    }
    Ok(())
}

fn add_kinds(kinds: &[Gvk], names: &mut Vec<VarName>) -> Result<(), Memory>
    ensures { OnOk result (names.new.items ≡ names.old.items ++ map variable.OneKind kinds.now) }
{
    for kind in kinds {
        names.push(VarName::OneKind(copy_kind(kind)?))?;
    }
    Ok(())
}

/// The names of the variables, in their order.
pub(crate) fn names(
    alloc: Global,
    basis: &Basis,
    entries: &[&Listed],
    packages: &[Name],
    kinds: &[Gvk],
) -> Result<Vec<VarName>, Memory>
    ensures { IfOk result (λ names. names.items ≡ map (λ subscription. variable.Subscription subscription.0) basis.now.subscriptions ++ (map (λ entry. variable.Entry (spec.taken basis.now.tips entry)) (map (λ entry. shown_entry entry.now) entries.now) ++ (map (λ tip. variable.Installed tip.name) basis.now.tips ++ (map variable.OnePackage packages.now ++ map variable.OneKind kinds.now)))) }
{
    let mut names = Vec::new(alloc);
    add_subscriptions(basis.subscriptions.as_slice(), &mut names)?;
    add_entries(basis.tips.as_slice(), entries, &mut names)?;
    add_tips(basis.tips.as_slice(), &mut names)?;
    add_packages(packages, &mut names)?;
    add_kinds(kinds, &mut names)?;
    Ok(names)
}
