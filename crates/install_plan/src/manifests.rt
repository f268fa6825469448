// The manifests of what a resolution takes.
ghost use Rattle.std.specs.Prelude.{◌≡◌, IfOk, map, option_copied};
ghost use Rattle.std.specs.List.{filter_map, find};
ghost use Rattle.fbc_types.specs.Texts.{same};
ghost use Rattle.install_plan.specs.Manifests as spec;

use cluster_objects::Taken;
use fbc_types::{Bundle, Catalog, Channel, Entry, Manifests, Property};
use olm_base::{Bytes, Memory, Text};
use std::alloc::Global;
use view_basis::Visible;

fn is_from(taken: &Taken, visible: &Visible) -> bool
    ensures { result ≡ spec.is_from taken.now visible.now }
{
    visible.seen.namespace == taken.catalog_namespace && visible.seen.name == taken.catalog
}

fn has_entry(taken: &Taken, entries: &[Entry]) -> bool
    ensures { result ≡ spec.has_entry taken.now entries.now }
{
    entries.iter().any(|entry| entry.name == taken.name)
}

fn lists(taken: &Taken, channel: &Channel) -> bool
    ensures { result ≡ spec.lists taken.now channel.now }
{
    channel.package == taken.package
        && channel.name == taken.channel
        && has_entry(taken, channel.entries.as_slice())
}

fn is_listed(taken: &Taken, channels: &[Channel]) -> bool
    ensures { result ≡ spec.is_listed taken.now channels.now }
{
    channels.iter().any(|channel| lists(taken, channel))
}

fn find_bundle<'a>(taken: &Taken, bundles: &'a [Bundle]) -> Option<&'a Bundle>
    ensures { option_copied result ≡ find (spec.is_taken taken.now) bundles.now }
{
    bundles.iter().find(|bundle| is_taken(taken, bundle))
}

fn is_taken(taken: &Taken, bundle: &Bundle) -> bool
    ensures { result ≡ spec.is_taken taken.now bundle.now }
{
    bundle.package == taken.package && bundle.name == taken.name
}

// The bundle that is taken, where the catalog has it.
fn bundle_in<'a>(taken: &Taken, catalog: &'a Catalog) -> Option<&'a Bundle>
    ensures { option_copied result ≡ spec.bundle_in taken.now catalog.now }
{
    if is_listed(taken, catalog.channels.as_slice()) {
        find_bundle(taken, catalog.bundles.as_slice())
    } else {
        None
    }
}

fn object_of(property: &Property) -> Option<&Bytes>
    ensures { option_copied result ≡ spec.object_of property.now }
{
    match property {
        Property::Manifest { body } => Some(body),
        Property::Package { .. }
        | Property::Kind(_)
        | Property::NeedKind(_)
        | Property::NeedPackage { .. }
        | Property::Constraint(_)
        | Property::Other { .. } => None,
    }
}

// A bundle's own objects.
fn own_objects<'a>(alloc: Global, bundle: &'a Bundle) -> Result<Vec<&'a Bytes>, Memory>
    ensures { IfOk result (λ objects. map (λ object. object.now) objects.items ≡ filter_map spec.object_of bundle.now.properties) }
{
    let mut objects = Vec::new(alloc);
    'properties: for property in bundle.properties.as_slice() {
        if let Some(object) = object_of(property) {
            objects.push(object)?;
        }
    }
    Ok(objects)
}

fn find_blob<'a>(blobs: &'a [Manifests], image: &Text) -> Option<&'a Manifests>
    ensures { option_copied result ≡ find (λ blob. same blob.image image.now) blobs.now }
{
    blobs.iter().find(|blob| blob.image == *image)
}

fn all_of(alloc: Global, bodies: &[Bytes]) -> Result<Vec<&Bytes>, Memory>
    ensures { IfOk result (λ objects. map (λ object. object.now) objects.items ≡ bodies.now) }
{
    let mut objects = Vec::new(alloc);
    for body in bodies {
        objects.push(body)?;
    }
    Ok(objects)
}

// The objects of the first blob of manifests with this image.
fn image_objects<'a>(
    alloc: Global,
    catalog: &'a Catalog,
    image: &Text,
) -> Result<Vec<&'a Bytes>, Memory>
    ensures { IfOk result (λ objects. map (λ object. object.now) objects.items ≡ spec.objects_of_image catalog.now image.now) }
{
    match find_blob(catalog.manifests.as_slice(), image) {
        Some(blob) => all_of(alloc, blob.bodies.as_slice()),
        None => Ok(Vec::new(alloc)),
    }
}

fn objects_in<'a>(
    alloc: Global,
    catalog: &'a Catalog,
    bundle: &'a Bundle,
) -> Result<Vec<&'a Bytes>, Memory>
    ensures { IfOk result (λ objects. map (λ object. object.now) objects.items ≡ spec.objects_in catalog.now bundle.now) }
{
    let own = own_objects(alloc, bundle)?;
    if own.is_empty() {
        image_objects(alloc, catalog, &bundle.image)
    } else {
        Ok(own)
    }
}

fn taken_from<'a>(
    alloc: Global,
    taken: &Taken,
    catalog: &'a Catalog,
) -> Result<Vec<&'a Bytes>, Memory>
    ensures { IfOk result (λ objects. map (λ object. object.now) objects.items ≡ spec.taken_from taken.now catalog.now) }
{
    match bundle_in(taken, catalog) {
        Some(bundle) => objects_in(alloc, catalog, bundle),
        None => Ok(Vec::new(alloc)),
    }
}

fn find_visible<'a>(catalogs: &'a [Visible], taken: &Taken) -> Option<&'a Visible>
    ensures { option_copied result ≡ find (spec.is_from taken.now) catalogs.now }
{
    catalogs.iter().find(|visible| is_from(taken, visible))
}

/// The manifests of what is taken. There are none where no visible catalog has it.
pub(crate) fn manifests<'a>(
    alloc: Global,
    catalogs: &'a [Visible],
    taken: &Taken,
) -> Result<Vec<&'a Bytes>, Memory>
    ensures { IfOk result (λ objects. map (λ object. object.now) objects.items ≡ spec.manifests catalogs.now taken.now) }
{
    match find_visible(catalogs, taken) {
        Some(visible) => match &visible.catalog {
            Some(checked) => taken_from(alloc, taken, checked.catalog()),
            None => Ok(Vec::new(alloc)),
        },
        None => Ok(Vec::new(alloc)),
    }
}
