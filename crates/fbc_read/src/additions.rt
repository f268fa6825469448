// What a blob adds to a catalog.
ghost use Rattle.std.specs.Prelude.{◌≡◌, OnErr};
ghost use Rattle.serde_json.specs.View.{view};
ghost use Rattle.olm_base.specs.Outcome.{Gives};
ghost use Rattle.fbc_read.specs.declared.schemas.Schema.TheVariants as schema;
ghost use Rattle.json_fields.specs.Faults.{is_free};
ghost use Rattle.fbc_read.specs.Blobs.{by_schema, one_blob};
ghost use Rattle.fbc_read.specs.Catalogs.{joined_to, added};

use crate::lengths::append;
use crate::schemas::{
    Schema, bundle_blob, channel_blob, check_blob, deprecations_blob, manifests_blob, package_blob,
    schema_of,
};
use fbc_types::Catalog;
use json_fields::Fault;
use olm_base::{FieldKind, Memory};
use serde_json::Value;
use std::alloc::Global;

#[tactic(auto, using(crate::proofs::Joining::joined_package))]
fn add_package(alloc: Global, blob: &Value, into: &mut Catalog) -> Result<(), Fault>
    ensures answer { Gives is_free (joined_to into.old (by_schema schema.Package (view blob.now))) (added result into.new) }
    ensures err { OnErr result (into.new ≡ into.old) }
{
    let found = package_blob(alloc, blob)?;
    match into.packages.push(found) {
        Ok(()) => Ok(()),
        Err(Memory) => Err(Fault::here(alloc, FieldKind::Memory)),
    }
}

#[tactic(auto, using(crate::proofs::Joining::joined_channel))]
fn add_channel(alloc: Global, blob: &Value, into: &mut Catalog) -> Result<(), Fault>
    ensures answer { Gives is_free (joined_to into.old (by_schema schema.Channel (view blob.now))) (added result into.new) }
    ensures err { OnErr result (into.new ≡ into.old) }
{
    let found = channel_blob(alloc, blob)?;
    match into.channels.push(found) {
        Ok(()) => Ok(()),
        Err(Memory) => Err(Fault::here(alloc, FieldKind::Memory)),
    }
}

#[tactic(auto, using(crate::proofs::Joining::joined_bundle))]
fn add_bundle(alloc: Global, blob: &Value, into: &mut Catalog) -> Result<(), Fault>
    ensures answer { Gives is_free (joined_to into.old (by_schema schema.Bundle (view blob.now))) (added result into.new) }
    ensures err { OnErr result (into.new ≡ into.old) }
{
    let found = bundle_blob(alloc, blob)?;
    match into.bundles.push(found) {
        Ok(()) => Ok(()),
        Err(Memory) => Err(Fault::here(alloc, FieldKind::Memory)),
    }
}

#[tactic(auto, using(crate::proofs::Joining::joined_deprecations))]
fn add_deprecations(alloc: Global, blob: &Value, into: &mut Catalog) -> Result<(), Fault>
    ensures answer { Gives is_free (joined_to into.old (by_schema schema.Deprecations (view blob.now))) (added result into.new) }
    ensures err { OnErr result (into.new ≡ into.old) }
{
    let found = deprecations_blob(alloc, blob)?;
    match append(alloc, &mut into.deprecations, found) {
        Ok(()) => Ok(()),
        Err(Memory) => Err(Fault::here(alloc, FieldKind::Memory)),
    }
}

#[tactic(auto, using(crate::proofs::Joining::joined_manifests))]
fn add_manifests(alloc: Global, blob: &Value, into: &mut Catalog) -> Result<(), Fault>
    ensures answer { Gives is_free (joined_to into.old (by_schema schema.Manifests (view blob.now))) (added result into.new) }
    ensures err { OnErr result (into.new ≡ into.old) }
{
    let found = manifests_blob(alloc, blob)?;
    match into.manifests.push(found) {
        Ok(()) => Ok(()),
        Err(Memory) => Err(Fault::here(alloc, FieldKind::Memory)),
    }
}

#[tactic(auto, using(crate::proofs::Joining::joined_nothing))]
fn add_by_schema(alloc: Global, kind: Schema, blob: &Value, into: &mut Catalog) -> Result<(), Fault>
    ensures answer { Gives is_free (joined_to into.old (by_schema kind (view blob.now))) (added result into.new) }
    ensures err { OnErr result (into.new ≡ into.old) }
{
    match kind {
        Schema::Package => add_package(alloc, blob, into),
        Schema::Channel => add_channel(alloc, blob, into),
        Schema::Bundle => add_bundle(alloc, blob, into),
        Schema::Deprecations => add_deprecations(alloc, blob, into),
        Schema::Manifests => add_manifests(alloc, blob, into),
        Schema::Other => Ok(()),
    }
}

/// Adds what a blob gives, or leaves the catalog as it was.
pub fn add_blob(alloc: Global, blob: &Value, into: &mut Catalog) -> Result<(), Fault>
    ensures answer { Gives is_free (joined_to into.old (one_blob (view blob.now))) (added result into.new) }
    ensures err { OnErr result (into.new ≡ into.old) }
{
    match check_blob(alloc, blob) {
        Ok(text) => {
            let schema = schema_of(text.as_bytes());
            add_by_schema(alloc, schema, blob, into)
        }
        Err(fault) => Err(fault),
    }
}
