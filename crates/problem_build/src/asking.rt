// What the subscriptions of a namespace ask for.
ghost use Rattle.std.specs.Prelude.{◌≡◌, false, true, IfOk};
ghost use Rattle.std.specs.Option.{option_copied, option_map_or};
ghost use Rattle.std.specs.List.{find, position};
ghost use Rattle.fbc_types.specs.Texts.{is_among, same};
ghost use Rattle.view_basis.specs.Tips.{is_tip_of};
ghost use Rattle.problem_build.specs.Asking as asking;
ghost use Rattle.problem_build.specs.Building as building;
ghost use Rattle.problem_build.specs.Shown.{shown_entry};

use crate::entries::Listed;
use cluster_objects::{Basis, SubSpec, Tip};
use fbc_types::{CheckedCatalog, Package};
use olm_base::{Many, Memory, Name};
use std::alloc::Global;
use upgrade_graph::upgrades;
use view_basis::{Visible, tip_version};

/// A subscription as its catalog and the tips make it.
#[derive(Debug, Drop)]
pub(crate) struct Asked {
    pub spec: SubSpec,
    /// The channel that it follows, if it names one or its catalog has the package.
    pub channel: Option<Name>,
    /// The place of the installed one among the tips.
    pub installed: Option<usize>,
    /// Whether that one may be upgraded.
    pub is_upgradable: bool,
    /// The upgrades from the installed one, in channel order.
    pub upgrades: Many<Name>,
}

fn is_source(visible: &Visible, spec: &SubSpec) -> bool
    ensures { result ≡ asking.is_source spec.now visible.now }
{
    visible.seen.namespace == spec.source_namespace && visible.seen.name == spec.source
}

fn source_visible<'a>(catalogs: &'a [Visible], spec: &SubSpec) -> Option<&'a Visible>
    ensures { option_copied result ≡ find (asking.is_source spec.now) catalogs.now }
{
    for visible in catalogs {
        if is_source(visible, spec) {
            return Some(visible);
        }
    }
    None
}

/// The catalog that the subscription names, if it is a valid one.
fn source<'a>(catalogs: &'a [Visible], spec: &SubSpec) -> Option<&'a CheckedCatalog>
    ensures { option_copied result ≡ asking.source catalogs.now spec.now }
{
    match source_visible(catalogs, spec) {
        Some(visible) => match &visible.catalog {
            Some(catalog) => Some(catalog),
            None => None,
        },
        None => None,
    }
}

fn package_named<'a>(packages: &'a [Package], name: &Name) -> Option<&'a Package>
    ensures { option_copied result ≡ find (λ blob. same blob.name name.now) packages.now }
{
    packages.iter().find(|blob| blob.name == *name)
}

fn default_channel<'a>(packages: &'a [Package], name: &Name) -> Option<&'a Name>
    ensures { option_copied result ≡ asking.default_channel packages.now name.now }
{
    match package_named(packages, name) {
        Some(blob) => Some(&blob.default_channel),
        None => None,
    }
}

/// The channel that the subscription names, or else the default channel of its package.
fn channel_of<'a>(catalog: &'a CheckedCatalog, spec: &'a SubSpec) -> Option<&'a Name>
    ensures { option_copied result ≡ asking.channel catalog.now spec.now }
{
    match &spec.channel {
        Some(name) => Some(name),
        None => default_channel(catalog.catalog().packages.as_slice(), &spec.package),
    }
}

/// A copy of the channel that the subscription follows.
fn channel_from(catalogs: &[Visible], spec: &SubSpec) -> Result<Option<Name>, Memory>
    ensures { IfOk result (λ channel. channel ≡ asking.channel_from catalogs.now spec.now) }
{
    match source(catalogs, spec) {
        Some(catalog) => match channel_of(catalog, spec) {
            Some(name) => Ok(Some(name.clone()?)),
            None => Ok(None),
        },
        None => Ok(None),
    }
}

fn is_tip_of(tip: &Tip, package: &Name) -> bool
    ensures { result ≡ is_tip_of «package».now tip.now }
{
    match &tip.package {
        Some(other) => package == other,
        None => false,
    }
}

/// The first tip of a package.
pub fn installed<'a>(tips: &'a [Tip], package: &Name) -> Option<&'a Tip>
    ensures { option_copied result ≡ asking.installed tips.now «package».now }
{
    tips.iter().find(|tip| is_tip_of(tip, package))
}

fn installed_place(tips: &[Tip], package: &Name) -> Option<usize>
    ensures { result ≡ asking.installed_place tips.now «package».now }
{
    tips.iter().position(|tip| is_tip_of(tip, package))
}

fn is_upgradable(tips: &[Tip], package: &Name) -> bool
    ensures { result ≡ asking.is_upgradable tips.now «package».now }
{
    match installed(tips, package) {
        Some(tip) => tip.succeeded,
        None => false,
    }
}

fn upgrades_in(
    alloc: Global,
    catalog: &CheckedCatalog,
    spec: &SubSpec,
    tip: &Tip,
) -> Result<Many<Name>, Memory>
    ensures { IfOk result (λ found. found ≡ asking.upgrades_in catalog.now spec.now tip.now) }
{
    match channel_of(catalog, spec) {
        Some(channel) => {
            let version = tip_version(alloc, tip)?;
            upgrades(alloc, catalog, &spec.package, channel, &tip.name, &version)
        }
        None => Ok(Many::new(alloc)),
    }
}

/// The upgrades from the installed one of the subscription's package, in channel order.
pub fn upgrades_from(
    alloc: Global,
    catalogs: &[Visible],
    tips: &[Tip],
    spec: &SubSpec,
) -> Result<Many<Name>, Memory>
    ensures { IfOk result (λ found. found ≡ asking.upgrades_from catalogs.now tips.now spec.now) }
{
    match installed(tips, &spec.package) {
        Some(tip) => match source(catalogs, spec) {
            Some(catalog) => upgrades_in(alloc, catalog, spec, tip),
            None => Ok(Many::new(alloc)),
        },
        None => Ok(Many::new(alloc)),
    }
}

fn asked_by(
    alloc: Global,
    catalogs: &[Visible],
    tips: &[Tip],
    spec: &SubSpec,
) -> Result<Asked, Memory>
    ensures { IfOk result (λ asked. asked ≡ asking.asked catalogs.now tips.now spec.now) }
{
    Ok(Asked {
        spec: spec.clone()?,
        channel: channel_from(catalogs, spec)?,
        installed: installed_place(tips, &spec.package),
        is_upgradable: is_upgradable(tips, &spec.package),
        upgrades: upgrades_from(alloc, catalogs, tips, spec)?,
    })
}

/// What each subscription asks for, by the subscriptions' names.
pub(crate) fn asks(alloc: Global, basis: &Basis, catalogs: &[Visible]) -> Result<Vec<Asked>, Memory>
    ensures { IfOk result (λ found. found.items ≡ building.asks basis.now catalogs.now) }
{
    let mut found = Vec::new(alloc);
    for subscription in basis.subscriptions.as_slice() {
        found.push(asked_by(alloc, catalogs, basis.tips.as_slice(), &subscription.1)?)?;
    }
    Ok(found)
}

fn is_among(name: &Name, names: &[Name]) -> bool
    ensures { result ≡ is_among name.now names.now }
{
    names.iter().any(|other| other == name)
}

fn is_channel(asked: &Asked, name: &Name) -> bool
    ensures { result ≡ option_map_or (same name.now) asked.now.channel false }
{
    match &asked.channel {
        Some(channel) => name == channel,
        None => false,
    }
}

/// Whether the entry stands in the subscription's channel.
fn is_followed(asked: &Asked, entry: &Listed) -> bool
    ensures { result ≡ asking.is_followed asked.now (shown_entry entry.now) }
{
    entry.catalog_namespace == asked.spec.source_namespace
        && entry.catalog == asked.spec.source
        && entry.package == asked.spec.package
        && is_channel(asked, &entry.channel)
}

fn is_start(asked: &Asked, name: &Name) -> bool
    ensures { result ≡ option_map_or (same name.now) asked.now.spec.starting true }
{
    match &asked.spec.starting {
        Some(starting) => name == starting,
        None => true,
    }
}

fn is_wanted(asked: &Asked, name: &Name) -> bool
    ensures { result ≡ asking.is_wanted asked.now name.now }
{
    match asked.installed {
        None => is_start(asked, name),
        Some(_) => asked.is_upgradable && is_among(name, asked.upgrades.as_slice()),
    }
}

/// Whether the entry is a candidate of the subscription.
pub(crate) fn is_candidate(asked: &Asked, entry: &Listed) -> bool
    ensures { result ≡ asking.is_candidate asked.now (shown_entry entry.now) }
{
    is_followed(asked, entry) && is_wanted(asked, &entry.name)
}

/// Whether the entry is an upgrade from the subscription's installed one.
pub(crate) fn is_upgrade(asked: &Asked, entry: &Listed) -> bool
    ensures { result ≡ asking.is_upgrade asked.now (shown_entry entry.now) }
{
    is_followed(asked, entry) && is_among(&entry.name, asked.upgrades.as_slice())
}
