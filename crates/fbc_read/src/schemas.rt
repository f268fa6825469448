// Blobs, by their schema.
ghost use Rattle.std.specs.Prelude.{◌≡◌, map, Ok, codes};
ghost use Rattle.serde_json.specs.View.{view};
ghost use Rattle.olm_base.specs.Outcome.{Gives};
ghost use Rattle.json_fields.specs.Faults.{is_free, and_then};
ghost use Rattle.json_fields.specs.Values.{each, opt_list_at, lent_text};
ghost use Rattle.fbc_read.specs.Properties.{any_property};
ghost use Rattle.fbc_read.specs.Blobs as spec;

use crate::properties::{Properties, check_properties};
use fbc_types::{Bundle, Channel, Deprecation, Entry, Manifests, Package};
use json_fields::{
    Bodies, Fault, Names, Reader, below_item, below_key, check_fields, lend_fields, lend_list,
    lend_opt_list, lend_text_at, list_at, name_at, opt_list_at, opt_name_at, opt_text_at, text_at,
};
use olm_base::{FieldKind, Many, Name, Text};
use serde_json::Value;
use std::alloc::Global;

/// The schemas of blobs.
#[derive(Clone, Copy, Debug, PartialEq, Eq)]
pub enum Schema {
    Package,
    Channel,
    Bundle,
    Deprecations,
    Manifests,
    Other,
}

pub fn schema_of(text: &[u8]) -> Schema
    ensures { result ≡ spec.schema_of text.now }
{
    if text == b"olm.package".as_slice() {
        Schema::Package
    } else if text == b"olm.channel".as_slice() {
        Schema::Channel
    } else if text == b"olm.bundle".as_slice() {
        Schema::Bundle
    } else if text == b"olm.deprecations".as_slice() {
        Schema::Deprecations
    } else if text == b"local.manifests".as_slice() {
        Schema::Manifests
    } else {
        Schema::Other
    }
}

/// The reader of a channel's entries.
pub struct Entries;

impl Reader for Entries {
    type Out = Entry;

    ghost use Rattle.fbc_read.specs.Blobs.{entry};

    ghost reading = { entry };

    fn read(alloc: Global, value: &Value) -> Result<Entry, Fault> {
        check_fields(alloc, value)?;
        let name = name_at(alloc, value, "name")?;
        let replaces = opt_name_at(alloc, value, "replaces")?;
        let skips = opt_list_at::<Names>(alloc, value, "skips")?;
        let skip_range = opt_text_at(alloc, value, "skipRange")?;
        Ok(Entry {
            name,
            replaces,
            skips,
            skip_range,
        })
    }
}

pub fn package_blob(alloc: Global, blob: &Value) -> Result<Package, Fault>
    ensures { Gives is_free (spec.package_blob (view blob.now)) result }
{
    let name = name_at(alloc, blob, "name")?;
    let default_channel = name_at(alloc, blob, "defaultChannel")?;
    Ok(Package {
        name,
        default_channel,
    })
}

pub fn channel_blob(alloc: Global, blob: &Value) -> Result<Channel, Fault>
    ensures { Gives is_free (spec.channel_blob (view blob.now)) result }
{
    let package = name_at(alloc, blob, "package")?;
    let name = name_at(alloc, blob, "name")?;
    let entries = list_at::<Entries>(alloc, blob, "entries")?;
    Ok(Channel {
        package,
        name,
        entries,
    })
}

/// The text, or the empty one.
fn or_empty(alloc: Global, text: Option<Text>) -> Text
    ensures { result ≡ spec.or_empty text }
{
    match text {
        Some(text) => text,
        None => Text::from_string(String::new(alloc)),
    }
}

pub fn bundle_blob(alloc: Global, blob: &Value) -> Result<Bundle, Fault>
    ensures { Gives is_free (spec.bundle_blob (view blob.now)) result }
{
    let package = name_at(alloc, blob, "package")?;
    let name = name_at(alloc, blob, "name")?;
    let image = opt_text_at(alloc, blob, "image")?;
    let properties = opt_list_at::<Properties>(alloc, blob, "properties")?;
    Ok(Bundle {
        package,
        name,
        image: or_empty(alloc, image),
        properties,
    })
}

pub fn manifests_blob(alloc: Global, blob: &Value) -> Result<Manifests, Fault>
    ensures { Gives is_free (spec.manifests_blob (view blob.now)) result }
{
    let image = text_at(alloc, blob, "image")?;
    let bodies = list_at::<Bodies>(alloc, blob, "data")?;
    Ok(Manifests { image, bodies })
}

/// What an entry of `olm.deprecations` speaks of.
#[derive(Debug, Drop)]
pub struct Reference {
    pub schema: Text,
    pub name: Option<Name>,
}

fn read_reference(alloc: Global, value: &Value) -> Result<Reference, Fault>
    ensures { Gives is_free (spec.reference (view value.now)) result }
{
    let schema = text_at(alloc, value, "schema")?;
    let name = opt_name_at(alloc, value, "name")?;
    Ok(Reference { schema, name })
}

fn reference_at(alloc: Global, value: &Value) -> Result<Reference, Fault>
    ensures { Gives is_free (spec.reference_at (view value.now)) result }
{
    match lend_fields(value, "reference") {
        Ok(inner) => below_key(alloc, read_reference(alloc, inner), "reference"),
        Err(kind) => Err(Fault::here(alloc, kind).below_key(alloc, "reference")),
    }
}

fn copy_name(alloc: Global, name: &Name) -> Result<Name, Fault>
    ensures { Gives is_free (Ok name.now) result }
{
    match name.clone() {
        Ok(copy) => Ok(copy),
        Err(_) => Err(Fault::here(alloc, FieldKind::Memory)),
    }
}

fn deprecation(alloc: Global, owner: &Name, value: &Value) -> Result<Deprecation, Fault>
    ensures { Gives is_free (spec.deprecation owner.now (view value.now)) result }
{
    check_fields(alloc, value)?;
    let reference = reference_at(alloc, value)?;
    let message = text_at(alloc, value, "message")?;
    let package = copy_name(alloc, owner)?;
    Ok(Deprecation {
        package,
        schema: reference.schema,
        name: reference.name,
        message,
    })
}

fn read_deprecations(
    alloc: Global,
    owner: &Name,
    items: &[Value],
) -> Result<Many<Deprecation>, Fault>
    ensures { Gives is_free (each (spec.deprecation owner.now) (map view items.now)) result }
{
    let mut found = Vec::new(alloc);
    for (index, item) in items.iter().enumerate() {
        match below_item(alloc, deprecation(alloc, owner, item), index) {
            Ok(value) => match found.push(value) {
                Ok(()) => {}
                Err(_) => return Err(Fault::here(alloc, FieldKind::Memory)),
            },
            Err(fault) => return Err(fault),
        }
    }
    Ok(Many::from_vec(found))
}

fn deprecations_at(alloc: Global, owner: &Name, blob: &Value) -> Result<Many<Deprecation>, Fault>
    ensures { Gives is_free (spec.deprecations_at owner.now (view blob.now)) result }
{
    match lend_list(blob, "entries") {
        Ok(items) => below_key(alloc, read_deprecations(alloc, owner, items), "entries"),
        Err(kind) => Err(Fault::here(alloc, kind).below_key(alloc, "entries")),
    }
}

pub fn deprecations_blob(alloc: Global, blob: &Value) -> Result<Many<Deprecation>, Fault>
    ensures { Gives is_free (spec.deprecations_blob (view blob.now)) result }
{
    let owner = name_at(alloc, blob, "package")?;
    deprecations_at(alloc, &owner, blob)
}

fn check_types(alloc: Global, blob: &Value) -> Result<(), Fault>
    ensures { Gives is_free (and_then (opt_list_at any_property (codes "properties") (view blob.now)) (λ types. Ok tt)) result }
{
    match lend_opt_list(blob, "properties") {
        Ok(items) => below_key(alloc, check_properties(alloc, items), "properties"),
        Err(kind) => Err(Fault::here(alloc, kind).below_key(alloc, "properties")),
    }
}

/// Passes what every blob must have, and gives its schema.
pub fn check_blob<'b>(alloc: Global, blob: &'b Value) -> Result<&'b str, Fault>
    ensures { Gives is_free (spec.any_blob (view blob.now)) (lent_text result) }
{
    match lend_text_at(alloc, blob, "schema") {
        Ok(schema) => match opt_text_at(alloc, blob, "package") {
            Ok(_) => match check_types(alloc, blob) {
                Ok(()) => Ok(schema),
                Err(fault) => Err(fault),
            },
            Err(fault) => Err(fault),
        },
        Err(fault) => Err(fault),
    }
}
