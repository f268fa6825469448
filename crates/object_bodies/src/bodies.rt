// Whole bodies.
ghost use Rattle.std.specs.Prelude.{◌≡◌, IfOk};
ghost use Rattle.std.specs.Option.{option_map};
ghost use Rattle.serde_json.specs.View.{view};
ghost use Rattle.catalog_stream.specs.Stream.{object_of};
ghost use Rattle.olm_base.specs.Outcome.{Gives};
ghost use Rattle.json_fields.specs.Faults.{is_free as free_fault};
ghost use Rattle.object_bodies.specs.Faults.{is_free};
ghost use Rattle.object_bodies.specs.Bodies as spec;

use crate::faults::{ObjectFault, bad_field};
use crate::heads::{manifest_key, namespace_at, placed, plan_namespace, user_key};
use crate::statuses::{made_of, new_status};
use cluster_objects::{Key, Made, Status};
use json_fields::Fault;
use olm_base::{FieldKind, Memory, Name};
use serde_json::Value;
use std::alloc::Global;

/// The most bytes of a body.
pub const BODY_LIMIT: u64 = 4_194_304;

/// The JSON object that these bytes are, if they are one.
#[tactic(auto, using(catalog_stream::proofs::Objects::object_of_read, catalog_stream::proofs::Objects::object_of_none))]
fn read_value(alloc: Global, body: &[u8]) -> Result<Option<Value>, Memory>
    ensures { IfOk result (λ value. option_map view value ≡ object_of body.now) }
{
    match Value::from_slice(alloc, body) {
        Ok(value) => {
            if value.is_object() {
                Ok(Some(value))
            } else {
                Ok(None)
            }
        }
        Err(fault) => {
            if fault.is_memory() {
                Err(Memory)
            } else {
                Ok(None)
            }
        }
    }
}

fn value_of(alloc: Global, body: &[u8]) -> Result<Value, ObjectFault>
    ensures { Gives is_free (spec.value_of body.now) (spec.value_view result) }
{
    let bytes = body.len() as u64;
    if bytes > BODY_LIMIT {
        return Err(ObjectFault::TooLarge { bytes });
    }
    match read_value(alloc, body) {
        Ok(Some(value)) => Ok(value),
        Ok(None) => Err(ObjectFault::NotJson),
        Err(Memory) => Err(ObjectFault::Memory),
    }
}

fn user_parts(alloc: Global, key: Key, value: &Value) -> Result<(Key, Status), Fault>
    ensures { Gives free_fault (spec.user_parts key (view value.now)) result }
{
    let namespace = namespace_at(alloc, &key.kind, value)?;
    let status = new_status(alloc, &key, value)?;
    Ok((placed(key, namespace), status))
}

fn user_value(alloc: Global, value: &Value) -> Result<(Key, Status), ObjectFault>
    ensures { Gives is_free (spec.user_value (view value.now)) result }
{
    let key = user_key(alloc, value)?;
    match user_parts(alloc, key, value) {
        Ok(found) => Ok(found),
        Err(fault) => Err(bad_field(fault)),
    }
}

/// The key and the status of a new object with this body, as a user gives it.
///
/// Kinds that stand in a namespace take that of `metadata.namespace`, and `default` where there is none. The status
/// is that of an object which nobody has looked after yet: a subscription without a state, a CSV without a phase
/// and a package, a deployment that waits. Install plans, resolutions, catalogs, claims and leases are refused: the
/// controller writes them, or an event of their own. The fault is the first one in the order of [`ObjectFault`], and of bad fields the first
/// one in the order of the table in docs/objects.md. Takes memory in the measure of the body.
pub fn read_object(alloc: Global, body: &[u8]) -> Result<(Key, Status), ObjectFault>
    ensures { Gives is_free (spec.user_object body.now) result }
{
    match value_of(alloc, body) {
        Ok(value) => user_value(alloc, &value),
        Err(fault) => Err(fault),
    }
}

fn plan_parts(
    alloc: Global,
    key: Key,
    value: &Value,
    namespace: &Name,
) -> Result<(Key, Made), Fault>
    ensures { Gives free_fault (spec.plan_parts namespace.now key (view value.now)) result }
{
    let made = made_of(alloc, &key, value)?;
    match plan_namespace(alloc, &key.kind, namespace) {
        Ok(namespace) => Ok((placed(key, namespace), made)),
        Err(Memory) => Err(Fault::here(alloc, FieldKind::Memory)),
    }
}

fn plan_value(alloc: Global, value: &Value, namespace: &Name) -> Result<(Key, Made), ObjectFault>
    ensures { Gives is_free (spec.plan_value namespace.now (view value.now)) result }
{
    let key = manifest_key(alloc, value)?;
    match plan_parts(alloc, key, value, namespace) {
        Ok(found) => Ok(found),
        Err(fault) => Err(bad_field(fault)),
    }
}

/// The key and the status of the object that a step of a plan with this body makes.
///
/// It is read as a user's body is, but that kinds which stand in a namespace take that of the plan, and what
/// `metadata.namespace` holds is passed over. What sets something for a whole namespace is refused too: upgrade
/// strategies and operator groups.
pub fn read_manifest(
    alloc: Global,
    body: &[u8],
    namespace: &Name,
) -> Result<(Key, Made), ObjectFault>
    ensures { Gives is_free (spec.plan_object namespace.now body.now) result }
{
    match value_of(alloc, body) {
        Ok(value) => plan_value(alloc, &value, namespace),
        Err(fault) => Err(fault),
    }
}
