// The keys of objects.
ghost use Rattle.std.specs.Prelude.{◌≡◌, IfOk};
ghost use Rattle.serde_json.specs.View.{view};
ghost use Rattle.olm_base.specs.Outcome.{Gives};
ghost use Rattle.json_fields.specs.Faults.{is_free as free_fault};
ghost use Rattle.object_bodies.specs.Faults.{is_free};
ghost use Rattle.object_bodies.specs.Heads as spec;

use crate::faults::{ObjectFault, unless_memory};
use crate::fields::{fields_at, is_word};
use cluster_objects::{
    Key, is_catalog_key, is_claims_key, is_group_key, is_lease_key, is_plan_key, is_resolution_key,
    is_strategy_key,
};
use json_fields::{Fault, Reader, lend_text_at, name_at, opt_name_at};
use olm_base::{FieldKind, Memory, Name, Text, is_group, is_outside_name};
use serde_json::Value;
use std::alloc::Global;

/// The group and the version of an `apiVersion`.
fn parts_of(text: &str) -> (&str, &str)
    ensures group { result.0.now ≡ spec.group_part text.now }
    ensures version { result.1.now ≡ spec.version_part text.now }
{
    match text.split_once('/') {
        Some((group, version)) => (group, version),
        None => ("", text),
    }
}

fn group_of(alloc: Global, text: &str) -> Result<Text, ObjectFault>
    ensures { Gives is_free (spec.group_of text.now) result }
{
    let (group, version) = parts_of(text);
    if !(is_group(group.as_bytes()) && is_outside_name(version.as_bytes())) {
        return Err(ObjectFault::NoKind);
    }
    match Text::from_str(alloc, group) {
        Ok(group) => Ok(group),
        Err(Memory) => Err(ObjectFault::Memory),
    }
}

fn group_at(alloc: Global, value: &Value) -> Result<Text, ObjectFault>
    ensures { Gives is_free (spec.group_at (view value.now)) result }
{
    match lend_text_at(alloc, value, "apiVersion") {
        Ok(text) => group_of(alloc, text),
        Err(fault) => Err(unless_memory(&fault, ObjectFault::NoKind)),
    }
}

fn kind_at(alloc: Global, value: &Value) -> Result<Name, ObjectFault>
    ensures { Gives is_free (spec.kind_at (view value.now)) result }
{
    match name_at(alloc, value, "kind") {
        Ok(kind) => Ok(kind),
        Err(fault) => Err(unless_memory(&fault, ObjectFault::NoKind)),
    }
}

/// The reader of an object's name in its metadata.
struct OwnName;

impl Reader for OwnName {
    type Out = Name;

    ghost use Rattle.object_bodies.specs.Heads.{metadata_name};

    ghost reading = { metadata_name };

    fn read(alloc: Global, value: &Value) -> Result<Name, Fault> {
        name_at(alloc, value, "name")
    }
}

fn own_name(alloc: Global, value: &Value) -> Result<Name, ObjectFault>
    ensures { Gives is_free (spec.own_name (view value.now)) result }
{
    match fields_at::<OwnName>(alloc, value, "metadata") {
        Ok(name) => Ok(name),
        Err(fault) => Err(unless_memory(&fault, ObjectFault::NoName)),
    }
}

fn bare_key(alloc: Global, value: &Value) -> Result<Key, ObjectFault>
    ensures { Gives is_free (spec.bare_key (view value.now)) result }
{
    let kind = kind_at(alloc, value)?;
    let group = group_at(alloc, value)?;
    let name = own_name(alloc, value)?;
    Ok(Key {
        group,
        kind,
        namespace: Text::from_string(String::new(alloc)),
        name,
    })
}

fn is_forbidden(key: &Key) -> bool
    ensures { result ≡ spec.is_forbidden key.now }
{
    is_plan_key(key)
        || is_catalog_key(key)
        || is_resolution_key(key)
        || is_claims_key(key)
        || is_lease_key(key)
}

fn is_setting(key: &Key) -> bool
    ensures { result ≡ spec.is_setting key.now }
{
    is_strategy_key(key) || is_group_key(key)
}

fn is_forbidden_in_plans(key: &Key) -> bool
    ensures { result ≡ spec.is_forbidden_in_plans key.now }
{
    is_forbidden(key) || is_setting(key)
}

fn forbidden(key: Key) -> ObjectFault
    ensures { result ≡ ObjectFault.Forbidden key.kind }
{
    let Key { kind, .. } = key;
    ObjectFault::Forbidden { kind }
}

/// The key that a user's body gives, as yet without a namespace, where an object of its kind is made from one.
pub fn user_key(alloc: Global, value: &Value) -> Result<Key, ObjectFault>
    ensures { Gives is_free (spec.user_key (view value.now)) result }
{
    let key = bare_key(alloc, value)?;
    if is_forbidden(&key) {
        return Err(forbidden(key));
    }
    Ok(key)
}

/// The key that a manifest gives, as yet without a namespace, where a plan may make an object of its kind.
pub fn manifest_key(alloc: Global, value: &Value) -> Result<Key, ObjectFault>
    ensures { Gives is_free (spec.manifest_key (view value.now)) result }
{
    let key = bare_key(alloc, value)?;
    if is_forbidden_in_plans(&key) {
        return Err(forbidden(key));
    }
    Ok(key)
}

fn is_clusterwide(kind: &Name) -> bool
    ensures { result ≡ spec.is_clusterwide kind.now }
{
    let kind = kind.as_bytes();
    is_word(kind, b"CustomResourceDefinition")
        || is_word(kind, b"ClusterRole")
        || is_word(kind, b"ClusterRoleBinding")
        || is_word(kind, b"PriorityClass")
}

fn as_text(name: &Name) -> &str
    ensures { result.now ≡ name.now }
{
    match str::from_utf8(name.as_bytes()) {
        Ok(text) => text,
        Err(_) => unreachable!(),
    }
}

fn or_default(alloc: Global, namespace: Option<Name>) -> Result<Text, Memory>
    ensures { IfOk result (λ text. text ≡ spec.or_default namespace) }
{
    match namespace {
        Some(namespace) => Text::from_str(alloc, as_text(&namespace)),
        None => Text::from_str(alloc, "default"),
    }
}

/// The reader of an object's namespace in its metadata.
struct OwnNamespace;

impl Reader for OwnNamespace {
    type Out = Text;

    ghost use Rattle.object_bodies.specs.Heads.{own_namespace};

    ghost reading = { own_namespace };

    fn read(alloc: Global, value: &Value) -> Result<Text, Fault> {
        let namespace = opt_name_at(alloc, value, "namespace")?;
        match or_default(alloc, namespace) {
            Ok(namespace) => Ok(namespace),
            Err(Memory) => Err(Fault::here(alloc, FieldKind::Memory)),
        }
    }
}

/// The namespace that the body of an object of this kind gives.
pub fn namespace_at(alloc: Global, kind: &Name, value: &Value) -> Result<Text, Fault>
    ensures { Gives free_fault (spec.namespace_at kind.now (view value.now)) result }
{
    if is_clusterwide(kind) {
        return Ok(Text::from_string(String::new(alloc)));
    }
    fields_at::<OwnNamespace>(alloc, value, "metadata")
}

/// The namespace of an object of this kind, where a plan's is this one.
pub fn plan_namespace(alloc: Global, kind: &Name, namespace: &Name) -> Result<Text, Memory>
    ensures { IfOk result (λ text. text ≡ spec.plan_namespace kind.now namespace.now) }
{
    if is_clusterwide(kind) {
        return Ok(Text::from_string(String::new(alloc)));
    }
    Text::from_str(alloc, as_text(namespace))
}

/// The key in a namespace.
pub fn placed(key: Key, namespace: Text) -> Key
    ensures { result ≡ spec.placed key namespace }
{
    let Key {
        group,
        kind,
        name,
        ..
    } = key;
    Key {
        group,
        kind,
        namespace,
        name,
    }
}
