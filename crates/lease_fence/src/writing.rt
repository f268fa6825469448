// The write of a lease.
ghost use Rattle.std.specs.Prelude.{◌≡◌, true, not, IfOk};
ghost use Rattle.std.specs.Option.{option_map};
ghost use Rattle.cluster_history.specs.History.{position, slot, slot_in};
ghost use Rattle.object_store.specs.Puts.{Agrees, IsSound};
ghost use Rattle.olm_io.specs.Outside.{HasCause};
ghost use Rattle.lease_fence.specs.Answers.{Answers, Writes, grant_failed};
ghost use Rattle.lease_fence.specs.Grants as spec;

use crate::places::{lease_at, object_of, version_of};
use crate::terms::{Grant, Granted};
use cluster_objects::{Key, LeaseStatus, Object, Status, Write, Writer};
use object_store::{Cluster, PutAnswer, View};
use olm_base::{Bytes, Memory, Name};
use std::alloc::Global;

fn kept_owner(there: Option<LeaseStatus>, object: Option<&Object>) -> Result<Option<Name>, Memory>
    ensures { IfOk result (λ owner. owner ≡ spec.kept_owner there (option_map (λ object. object.now) object.entry)) }
{
    match (there, object) {
        (Some(_), Some(object)) => Ok(object.owner.clone()?),
        _ => Ok(None),
    }
}

fn lease_object(
    alloc: Global,
    key: &Key,
    there: Option<&Object>,
    seen: u64,
    lease: LeaseStatus,
) -> Result<Object, Memory>
    ensures { IfOk result (λ object. object ≡ spec.lease_object key.now (option_map (λ object. object.now) there.entry) seen lease) }
{
    Ok(Object {
        body: Bytes::from_vec(Vec::new(alloc)),
        status: Status::Lease(lease),
        owner: kept_owner(lease_at(key, there), there)?,
        stamp: None,
        seen,
    })
}

// The write of a lease at a key, made from what a view shows there.
fn write_over(alloc: Global, view: &View, key: Key, lease: LeaseStatus) -> Result<Write, Memory>
    ensures { IfOk result (λ write. write ≡ spec.write_over (slot_in view.now.slots key) view.now.length key lease) }
{
    let there = view.slot(&key);
    let object = lease_object(alloc, &key, object_of(there), view.length(), lease)?;
    Ok(Write {
        by: Writer::User,
        expect: version_of(there),
        key,
        object: Some(object),
    })
}

// Makes a write that expects the present version of its key.
fn put<C: Cluster>(alloc: Global, write: Write, lease: LeaseStatus, cluster: &mut C) -> Granted
    requires ready { C.ready cluster.old ≡ true }
    requires agrees { Agrees (C.history cluster.old) write }
    ensures answer { Writes C.fits (C.limit cluster.old) (C.history cluster.old) write lease (C.history cluster.new) result }
    ensures limit { C.limit cluster.new ≡ C.limit cluster.old }
    ensures tells { C.tells cluster.new ≡ C.tells cluster.old }
    ensures sound { IsSound (C.tells cluster.old) (C.damage cluster.old) → IsSound (C.tells cluster.new) (C.damage cluster.new) }
    ensures cause { HasCause (C.faults cluster.old) (C.faults cluster.new) (grant_failed result ≡ true) }
    ensures ready { C.ready cluster.new ≡ not (grant_failed result) }
{
    match cluster.put(alloc, write) {
        PutAnswer::Done { version } => Granted::Done {
            term: lease.term,
            until: lease.until,
            version,
        },
        PutAnswer::Full => Granted::Full,
        PutAnswer::Failed => Granted::Failed,
        PutAnswer::Memory => Granted::Memory,
        PutAnswer::Conflict { found: _ } => unreachable!(),
    }
}

// Writes a lease at a key, from what a view shows there.
fn put_lease<C: Cluster>(
    alloc: Global,
    view: &View,
    key: Key,
    lease: LeaseStatus,
    cluster: &mut C,
) -> Granted
    requires ready { C.ready cluster.old ≡ true }
    requires slot { slot_in view.now.slots key ≡ slot (C.history cluster.old) key }
    requires length { view.now.length ≡ position (C.history cluster.old) }
    ensures answer { Writes C.fits (C.limit cluster.old) (C.history cluster.old) (spec.lease_write (C.history cluster.old) key lease) lease (C.history cluster.new) result }
    ensures limit { C.limit cluster.new ≡ C.limit cluster.old }
    ensures tells { C.tells cluster.new ≡ C.tells cluster.old }
    ensures sound { IsSound (C.tells cluster.old) (C.damage cluster.old) → IsSound (C.tells cluster.new) (C.damage cluster.new) }
    ensures cause { HasCause (C.faults cluster.old) (C.faults cluster.new) (grant_failed result ≡ true) }
    ensures ready { C.ready cluster.new ≡ not (grant_failed result) }
{
    match write_over(alloc, view, key, lease) {
        Ok(write) => put(alloc, write, lease, cluster),
        Err(Memory) => Granted::Memory,
    }
}

fn discard(_key: Key) {}

/// Writes what is granted at a key, if it is a lease.
pub(crate) fn give<C: Cluster>(
    alloc: Global,
    view: &View,
    key: Key,
    given: Grant,
    cluster: &mut C,
) -> Granted
    requires ready { C.ready cluster.old ≡ true }
    requires slot { slot_in view.now.slots key ≡ slot (C.history cluster.old) key }
    requires length { view.now.length ≡ position (C.history cluster.old) }
    ensures answer { Answers C.fits (C.limit cluster.old) (C.history cluster.old) key given (C.history cluster.new) result }
    ensures limit { C.limit cluster.new ≡ C.limit cluster.old }
    ensures tells { C.tells cluster.new ≡ C.tells cluster.old }
    ensures sound { IsSound (C.tells cluster.old) (C.damage cluster.old) → IsSound (C.tells cluster.new) (C.damage cluster.new) }
    ensures cause { HasCause (C.faults cluster.old) (C.faults cluster.new) (grant_failed result ≡ true) }
    ensures ready { C.ready cluster.new ≡ not (grant_failed result) }
{
    match given {
        Grant::NewTerm(lease) => put_lease(alloc, view, key, lease, cluster),
        Grant::Renewal(lease) => put_lease(alloc, view, key, lease, cluster),
        Grant::Held { until } => {
            discard(key);
            Granted::Held { until }
        }
    }
}
