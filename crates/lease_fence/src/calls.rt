// The calls over a store.
ghost use Rattle.std.specs.Prelude.{◌≡◌, ◌≢◌, ◌≤◌, ◌^◌, true, not};
ghost use Rattle.cluster_objects.specs.Places as places;
ghost use Rattle.object_store.specs.Puts.{IsSound, fault_failed};
ghost use Rattle.olm_io.specs.Outside.{HasCause};
ghost use Rattle.lease_fence.specs.Answers.{Answers, TellsTerm, grant_failed};
ghost use Rattle.lease_fence.specs.Grants as spec;
ghost use Rattle.lease_fence.specs.Leases as leases;

use crate::cases::{granted, term_in};
use crate::looking::look;
use crate::places::lease_in;
use crate::terms::{Granted, Term};
use crate::writing::give;
use cluster_objects::Writer;
use object_store::{Cluster, ClusterFault};
use olm_base::Name;
use olm_io::Outage;
use std::alloc::Global;

/// The term of a role's lease, or 0 if there is none. `Damaged` is never returned.
pub fn term_of<C: Cluster>(
    alloc: Global,
    cluster: &mut C,
    namespace: &Name,
    role: Writer,
) -> Result<u64, ClusterFault>
    requires ready { C.ready cluster.old ≡ true }
    requires worker { role ≢ Writer.User }
    ensures term { TellsTerm (leases.term (C.history cluster.old) namespace.now role) result }
    ensures history { C.history cluster.new ≡ C.history cluster.old }
    ensures limit { C.limit cluster.new ≡ C.limit cluster.old }
    ensures tells { C.tells cluster.new ≡ C.tells cluster.old }
    ensures sound { IsSound (C.tells cluster.old) (C.damage cluster.old) → IsSound (C.tells cluster.new) (C.damage cluster.new) }
    ensures cause { HasCause (C.faults cluster.old) (C.faults cluster.new) (fault_failed result ≡ true) }
    ensures ready { C.ready cluster.new ≡ not (fault_failed result) }
{
    match look(alloc, cluster, namespace, role) {
        Ok((key, view)) => Ok(term_in(lease_in(&view, &key))),
        Err(Outage::Failed) => Err(ClusterFault::Failed),
        Err(Outage::Memory) => Err(ClusterFault::Memory),
    }
}

/// Requests the lease of a role for the worker whose number is `holder` and which holds `term`, at the moment `now`,
/// for `keep` seconds. It takes one snapshot and makes at most one write.
pub fn grant<C: Cluster>(
    alloc: Global,
    cluster: &mut C,
    namespace: &Name,
    role: Writer,
    holder: u32,
    term: Term,
    now: u64,
    keep: u64,
) -> Granted
    requires ready { C.ready cluster.old ≡ true }
    requires worker { role ≢ Writer.User }
    requires latest { now ≤ 2 ^ 62 }
    requires shortest { 1 ≤ keep }
    requires longest { keep ≤ 86400 }
    ensures answer { Answers C.fits (C.limit cluster.old) (C.history cluster.old) (places.lease_key namespace.now role) (spec.granted_at (C.history cluster.old) namespace.now role holder term now keep) (C.history cluster.new) result }
    ensures limit { C.limit cluster.new ≡ C.limit cluster.old }
    ensures tells { C.tells cluster.new ≡ C.tells cluster.old }
    ensures sound { IsSound (C.tells cluster.old) (C.damage cluster.old) → IsSound (C.tells cluster.new) (C.damage cluster.new) }
    ensures cause { HasCause (C.faults cluster.old) (C.faults cluster.new) (grant_failed result ≡ true) }
    ensures ready { C.ready cluster.new ≡ not (grant_failed result) }
{
    match look(alloc, cluster, namespace, role) {
        Ok((key, view)) => {
            let given = granted(lease_in(&view, &key), holder, term, now, keep);
            give(alloc, &view, key, given, cluster)
        }
        Err(Outage::Failed) => Granted::Failed,
        Err(Outage::Memory) => Granted::Memory,
    }
}
