// The entries of the visible catalogs.
ghost use Rattle.std.specs.Prelude.{◌≡◌, ◌++◌, ◌<◌, length, map, slice_get, IfOk, IfSome, OnOk};
ghost use Rattle.std.specs.List.{filter_map, flat_map};
ghost use Rattle.std.specs.Option.{option_and_then, option_map};
ghost use Rattle.upgrade_graph.specs.Order.{bundle_named};
ghost use Rattle.problem_build.specs.Entries as spec;
ghost use Rattle.problem_build.specs.Shown.{shown_entry};

use crate::channels::channels_in_order;
use cluster_objects::Seen;
use fbc_types::{Bundle, Channel, CheckedCatalog, own_version};
use olm_base::{Many, Memory, Name, Text};
use op_properties::{Offer, Requirement, offer_of, requirements};
use std::alloc::Global;
use upgrade_graph::order;
use view_basis::Visible;

/// An entry of a channel, with the catalog that it stands in, and what its bundle is, asks for and offers.
#[derive(Debug, Drop)]
pub(crate) struct Listed {
    pub catalog_namespace: Name,
    pub catalog: Name,
    pub package: Name,
    pub channel: Name,
    pub name: Name,
    pub version: Text,
    pub requirements: Many<Requirement>,
    pub offer: Offer,
}

/// The place of the first bundle of this package and name.
fn bundle_place(bundles: &[Bundle], owner: &Name, name: &Name) -> Option<usize>
    ensures within { IfSome result (λ place. place < length bundles.now) }
    ensures bundle { option_and_then (slice_get bundles.now) result ≡ bundle_named bundles.now owner.now name.now }
{
    for (place, bundle) in bundles.iter().enumerate() {
        if bundle.package == *owner && bundle.name == *name {
            return Some(place);
        }
    }
    None
}

/// The entry that the bundle at a place of the catalog's list is in a channel.
fn entry_of(
    alloc: Global,
    seen: &Seen,
    catalog: &CheckedCatalog,
    channel: &Channel,
    place: usize,
) -> Result<Option<Listed>, Memory>
    requires { place < length catalog.now.bundles }
    ensures { IfOk result (λ entry. option_map shown_entry entry ≡ option_and_then (spec.entry_of seen.now channel.now) (slice_get catalog.now.bundles place)) }
{
    let bundle = &catalog.catalog().bundles.as_slice()[place];
    match own_version(bundle) {
        Some(version) => Ok(Some(Listed {
            catalog_namespace: seen.namespace.clone()?,
            catalog: seen.name.clone()?,
            package: channel.package.clone()?,
            channel: channel.name.clone()?,
            name: bundle.name.clone()?,
            version: version.clone()?,
            requirements: requirements(alloc, catalog, place)?,
            offer: offer_of(alloc, catalog, place)?,
        })),
        None => Ok(None),
    }
}

fn entry_named(
    alloc: Global,
    seen: &Seen,
    catalog: &CheckedCatalog,
    channel: &Channel,
    name: &Name,
) -> Result<Option<Listed>, Memory>
    ensures { IfOk result (λ entry. option_map shown_entry entry ≡ spec.entry_named seen.now catalog.now channel.now name.now) }
{
    let bundles = catalog.catalog().bundles.as_slice();
    match bundle_place(bundles, &channel.package, name) {
        Some(place) => entry_of(alloc, seen, catalog, channel, place),
        None => Ok(None),
    }
}

/// Appends the entries of a channel that have these names.
fn add_named(
    alloc: Global,
    found: &mut Vec<Listed>,
    seen: &Seen,
    catalog: &CheckedCatalog,
    channel: &Channel,
    names: &[Name],
) -> Result<(), Memory>
    ensures { OnOk result (map shown_entry found.new.items ≡ map shown_entry found.old.items ++ filter_map (spec.entry_named seen.now catalog.now channel.now) names.now) }
{
    for name in names {
        if let Some(entry) = entry_named(alloc, seen, catalog, channel, name)? {
            found.push(entry)?;
        }
    }
    Ok(())
}

fn add_channel(
    alloc: Global,
    found: &mut Vec<Listed>,
    seen: &Seen,
    catalog: &CheckedCatalog,
    channel: &Channel,
) -> Result<(), Memory>
    ensures { OnOk result (map shown_entry found.new.items ≡ map shown_entry found.old.items ++ spec.channel_entries seen.now catalog.now channel.now) }
{
    match order(alloc, catalog, &channel.package, &channel.name)? {
        Some(names) => add_named(alloc, found, seen, catalog, channel, names.as_slice()),
        None => Ok(()),
    }
}

fn add_channels(
    alloc: Global,
    found: &mut Vec<Listed>,
    seen: &Seen,
    catalog: &CheckedCatalog,
    channels: &[&Channel],
) -> Result<(), Memory>
    ensures { OnOk result (map shown_entry found.new.items ≡ map shown_entry found.old.items ++ flat_map (λ channel. spec.channel_entries seen.now catalog.now channel.now) channels.now) }
{
    for channel in channels {
        add_channel(alloc, found, seen, catalog, channel)?;
    }
    Ok(())
}

fn add_catalog(
    alloc: Global,
    found: &mut Vec<Listed>,
    seen: &Seen,
    catalog: &CheckedCatalog,
) -> Result<(), Memory>
    ensures { OnOk result (map shown_entry found.new.items ≡ map shown_entry found.old.items ++ spec.catalog_entries seen.now catalog.now) }
{
    let channels = channels_in_order(alloc, catalog.catalog())?;
    add_channels(alloc, found, seen, catalog, channels.as_slice())
}

fn add_visible(alloc: Global, found: &mut Vec<Listed>, visible: &Visible) -> Result<(), Memory>
    ensures { OnOk result (map shown_entry found.new.items ≡ map shown_entry found.old.items ++ spec.visible_entries visible.now) }
{
    match &visible.catalog {
        Some(catalog) => add_catalog(alloc, found, &visible.seen, catalog),
        None => Ok(()),
    }
}

/// The entries of all visible catalogs, by catalog, package, channel and channel order.
pub(crate) fn entries(alloc: Global, catalogs: &[Visible]) -> Result<Vec<Listed>, Memory>
    ensures { IfOk result (λ found. map shown_entry found.items ≡ spec.entries catalogs.now) }
{
    let mut found = Vec::new(alloc);
    for visible in catalogs {
        add_visible(alloc, &mut found, visible)?;
    }
    Ok(found)
}
