// Events, and the blobs that name them.
ghost use Rattle.std.specs.Prelude.{◌≡◌};
ghost use Rattle.serde_json.specs.View.{view};
ghost use Rattle.olm_base.specs.Outcome.{Gives};
ghost use Rattle.olm_base.specs.Fields.{field};
ghost use Rattle.json_fields.specs.Faults.{is_free};
ghost use Rattle.event_script.specs.Events as spec;

use crate::numbers::{count_at, opt_count_at, opt_signed_at, wide_count_at};
use crate::paths::at;
use cluster_objects::{Readiness, Writer};
use json_fields::{Fault, group_at, name_at, text_at};
use olm_base::{Bytes, FieldKind, Name, Text};
use serde_json::Value;
use std::alloc::Global;

/// What a run does next.
#[derive(Debug, Drop, PartialEq)]
pub enum Event {
    /// The user applies the object whose body these bytes are.
    Apply {
        body: Bytes,
    },
    /// The user removes the object at this key. Its group and its namespace may be empty.
    Delete {
        group: Text,
        kind: Name,
        namespace: Text,
        name: Name,
    },
    /// The user approves this install plan.
    Approve {
        namespace: Name,
        name: Name,
    },
    /// The user gives a catalog source the catalog that lies below this path of the folder, with this priority, from
    /// -2^63 to 2^63 - 1.
    Catalog {
        namespace: Name,
        name: Name,
        path: Text,
        priority: Option<i64>,
    },
    /// This deployment is ready, or has failed; never Waiting in an event that was read.
    Ready {
        namespace: Name,
        name: Name,
        state: Readiness,
    },
    /// The user asks for a new resolution of the namespace, with this budget of lemmas, from 1 to 16,777,216 in an
    /// event that was read.
    Retry {
        namespace: Name,
        budget: Option<u32>,
    },
    /// A worker of this role comes to the namespace; its role is never User in an event that was read.
    Worker {
        role: Writer,
        namespace: Name,
    },
    /// The worker of this number takes a new view.
    Look {
        worker: u32,
    },
    /// The worker of this number makes one write of its own.
    Act {
        worker: u32,
    },
    /// The workers of the namespace take turns until none has a write to make, for at most so many turns, from 1 to
    /// 1,000,000 in an event that was read.
    Settle {
        namespace: Name,
        turns: Option<u32>,
    },
    /// The store is opened anew.
    Restart,
    /// The user takes the entries of the namespace out of the claims.
    Release {
        namespace: Name,
    },
    /// The worker of this number asks for the lease of its role at the moment `now`, at most 2^62, for `keep`, from 1
    /// to 86,400, in an event that was read.
    Lease {
        worker: u32,
        now: u64,
        keep: u64,
    },
}

/// The least and the greatest budget of lemmas that an event may give.
const LEAST_BUDGET: u32 = 1;

const GREATEST_BUDGET: u32 = 16_777_216;

/// The least and the greatest number of turns that an event may give.
const LEAST_TURNS: u32 = 1;

const GREATEST_TURNS: u32 = 1_000_000;

/// The greatest number of a worker.
const GREATEST_WORKER: u32 = 4_294_967_295;

/// The greatest moment of an event, 2^62.
const GREATEST_NOW: u64 = 4_611_686_018_427_387_904;

/// The least and the greatest time for which an event may ask for a lease.
const LEAST_KEEP: u64 = 1;

const GREATEST_KEEP: u64 = 86_400;

/// The words that name an event, and any other word.
#[derive(Clone, Copy, Debug, PartialEq, Eq)]
pub enum Word {
    Delete,
    Approve,
    Catalog,
    Ready,
    Retry,
    Worker,
    Look,
    Act,
    Settle,
    Restart,
    Release,
    Lease,
    Other,
}

fn word_of(text: &[u8]) -> Word
    ensures { result ≡ spec.word_of text.now }
{
    if text == b"delete".as_slice() {
        Word::Delete
    } else if text == b"approve".as_slice() {
        Word::Approve
    } else if text == b"catalog".as_slice() {
        Word::Catalog
    } else if text == b"ready".as_slice() {
        Word::Ready
    } else if text == b"retry".as_slice() {
        Word::Retry
    } else if text == b"worker".as_slice() {
        Word::Worker
    } else if text == b"look".as_slice() {
        Word::Look
    } else if text == b"act".as_slice() {
        Word::Act
    } else if text == b"settle".as_slice() {
        Word::Settle
    } else if text == b"restart".as_slice() {
        Word::Restart
    } else if text == b"release".as_slice() {
        Word::Release
    } else if text == b"lease".as_slice() {
        Word::Lease
    } else {
        Word::Other
    }
}

/// The word of a blob's text field `event`, if it has one.
pub fn event_word(blob: &Value) -> Option<Word>
    ensures { result ≡ spec.event_word (view blob.now) }
{
    match blob.get("event") {
        Some(Value::String(text)) => {
            if text.is_empty() {
                None
            } else {
                Some(word_of(text.as_bytes()))
            }
        }
        _ => None,
    }
}

/// Whether a blob has a `kind` that isn't `null`.
pub fn has_kind(blob: &Value) -> bool
    ensures { result ≡ spec.has_kind (view blob.now) }
{
    match blob.get("kind") {
        None | Some(Value::Null) => false,
        Some(_) => true,
    }
}

pub fn delete_event(alloc: Global, blob: &Value) -> Result<Event, Fault>
    ensures { Gives is_free (spec.delete_event (view blob.now)) result }
{
    let group = group_at(alloc, blob, "group")?;
    let kind = name_at(alloc, blob, "kind")?;
    let namespace = group_at(alloc, blob, "namespace")?;
    let name = name_at(alloc, blob, "name")?;
    Ok(Event::Delete {
        group,
        kind,
        namespace,
        name,
    })
}

pub fn approve_event(alloc: Global, blob: &Value) -> Result<Event, Fault>
    ensures { Gives is_free (spec.approve_event (view blob.now)) result }
{
    let namespace = name_at(alloc, blob, "namespace")?;
    let name = name_at(alloc, blob, "name")?;
    Ok(Event::Approve { namespace, name })
}

pub fn catalog_event(alloc: Global, blob: &Value) -> Result<Event, Fault>
    ensures { Gives is_free (spec.catalog_event (view blob.now)) result }
{
    let namespace = name_at(alloc, blob, "namespace")?;
    let name = name_at(alloc, blob, "name")?;
    let path = text_at(alloc, blob, "path")?;
    let priority = opt_signed_at(alloc, blob, "priority")?;
    Ok(Event::Catalog {
        namespace,
        name,
        path,
        priority,
    })
}

fn state_of(text: &[u8]) -> Result<Readiness, FieldKind>
    ensures { result ≡ spec.state_of text.now }
{
    if text == b"ready".as_slice() {
        Ok(Readiness::Ready)
    } else if text == b"failed".as_slice() {
        Ok(Readiness::Failed)
    } else {
        Err(FieldKind::BadName)
    }
}

fn state(value: &Value, key: &str) -> Result<Readiness, FieldKind>
    ensures { result ≡ field spec.as_state (view value.now) key.now }
{
    if !value.is_object() {
        return Err(FieldKind::WrongType);
    }
    match value.get(key) {
        None | Some(Value::Null) => Err(FieldKind::Missing),
        Some(Value::String(text)) => state_of(text.as_bytes()),
        Some(_) => Err(FieldKind::WrongType),
    }
}

fn state_at(alloc: Global, value: &Value, key: &str) -> Result<Readiness, Fault>
    ensures { Gives is_free (spec.state_at key.now (view value.now)) result }
{
    at(alloc, state(value, key), key)
}

pub fn ready_event(alloc: Global, blob: &Value) -> Result<Event, Fault>
    ensures { Gives is_free (spec.ready_event (view blob.now)) result }
{
    let namespace = name_at(alloc, blob, "namespace")?;
    let name = name_at(alloc, blob, "name")?;
    let state = state_at(alloc, blob, "state")?;
    Ok(Event::Ready {
        namespace,
        name,
        state,
    })
}

pub fn retry_event(alloc: Global, blob: &Value) -> Result<Event, Fault>
    ensures { Gives is_free (spec.retry_event (view blob.now)) result }
{
    let namespace = name_at(alloc, blob, "namespace")?;
    let budget = opt_count_at(alloc, blob, "budget", LEAST_BUDGET, GREATEST_BUDGET)?;
    Ok(Event::Retry { namespace, budget })
}

fn role_of(text: &[u8]) -> Result<Writer, FieldKind>
    ensures { result ≡ spec.role_of text.now }
{
    if text == b"resolver".as_slice() {
        Ok(Writer::Resolver)
    } else if text == b"installer".as_slice() {
        Ok(Writer::Installer)
    } else if text == b"phases".as_slice() {
        Ok(Writer::Phases)
    } else {
        Err(FieldKind::BadName)
    }
}

fn role(value: &Value, key: &str) -> Result<Writer, FieldKind>
    ensures { result ≡ field spec.as_role (view value.now) key.now }
{
    if !value.is_object() {
        return Err(FieldKind::WrongType);
    }
    match value.get(key) {
        None | Some(Value::Null) => Err(FieldKind::Missing),
        Some(Value::String(text)) => role_of(text.as_bytes()),
        Some(_) => Err(FieldKind::WrongType),
    }
}

fn role_at(alloc: Global, value: &Value, key: &str) -> Result<Writer, Fault>
    ensures { Gives is_free (spec.role_at key.now (view value.now)) result }
{
    at(alloc, role(value, key), key)
}

pub fn worker_event(alloc: Global, blob: &Value) -> Result<Event, Fault>
    ensures { Gives is_free (spec.worker_event (view blob.now)) result }
{
    let role = role_at(alloc, blob, "role")?;
    let namespace = name_at(alloc, blob, "namespace")?;
    Ok(Event::Worker { role, namespace })
}

/// The number of a worker.
fn worker_at(alloc: Global, blob: &Value) -> Result<u32, Fault>
    ensures { Gives is_free (spec.worker_at (view blob.now)) result }
{
    count_at(alloc, blob, "worker", 0, GREATEST_WORKER)
}

pub fn look_event(alloc: Global, blob: &Value) -> Result<Event, Fault>
    ensures { Gives is_free (spec.look_event (view blob.now)) result }
{
    let worker = worker_at(alloc, blob)?;
    Ok(Event::Look { worker })
}

pub fn act_event(alloc: Global, blob: &Value) -> Result<Event, Fault>
    ensures { Gives is_free (spec.act_event (view blob.now)) result }
{
    let worker = worker_at(alloc, blob)?;
    Ok(Event::Act { worker })
}

pub fn settle_event(alloc: Global, blob: &Value) -> Result<Event, Fault>
    ensures { Gives is_free (spec.settle_event (view blob.now)) result }
{
    let namespace = name_at(alloc, blob, "namespace")?;
    let turns = opt_count_at(alloc, blob, "turns", LEAST_TURNS, GREATEST_TURNS)?;
    Ok(Event::Settle { namespace, turns })
}

pub fn release_event(alloc: Global, blob: &Value) -> Result<Event, Fault>
    ensures { Gives is_free (spec.release_event (view blob.now)) result }
{
    let namespace = name_at(alloc, blob, "namespace")?;
    Ok(Event::Release { namespace })
}

pub fn lease_event(alloc: Global, blob: &Value) -> Result<Event, Fault>
    ensures { Gives is_free (spec.lease_event (view blob.now)) result }
{
    let worker = worker_at(alloc, blob)?;
    let now = wide_count_at(alloc, blob, "now", 0, GREATEST_NOW)?;
    let keep = wide_count_at(alloc, blob, "keep", LEAST_KEEP, GREATEST_KEEP)?;
    Ok(Event::Lease { worker, now, keep })
}
