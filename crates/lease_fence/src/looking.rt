// A snapshot for a lease.
ghost use Rattle.std.specs.Prelude.{◌≡◌, true, not, IfOk};
ghost use Rattle.cluster_history.specs.History.{position, slot, slot_in};
ghost use Rattle.cluster_objects.specs.Places as places;
ghost use Rattle.object_store.specs.Puts.{IsSound};
ghost use Rattle.olm_io.specs.Outside.{HasCause};
ghost use Rattle.lease_fence.specs.Answers.{outage_failed};

use crate::places::lease_key;
use cluster_objects::{Key, Writer};
use object_store::{Cluster, ClusterFault, View};
use olm_base::{Memory, Name};
use olm_io::Outage;
use std::alloc::Global;

/// The key of a role's lease, and a view that shows the slot of that key.
pub(crate) fn look<C: Cluster>(
    alloc: Global,
    cluster: &mut C,
    namespace: &Name,
    role: Writer,
) -> Result<(Key, View), Outage>
    requires { C.ready cluster.old ≡ true }
    ensures key { IfOk result (λ found. found.0 ≡ places.lease_key namespace.now role) }
    ensures slot { IfOk result (λ found. slot_in found.1.slots found.0 ≡ slot (C.history cluster.old) found.0) }
    ensures length { IfOk result (λ found. found.1.length ≡ position (C.history cluster.old)) }
    ensures history { C.history cluster.new ≡ C.history cluster.old }
    ensures limit { C.limit cluster.new ≡ C.limit cluster.old }
    ensures tells { C.tells cluster.new ≡ C.tells cluster.old }
    ensures sound { IsSound (C.tells cluster.old) (C.damage cluster.old) → IsSound (C.tells cluster.new) (C.damage cluster.new) }
    ensures cause { HasCause (C.faults cluster.old) (C.faults cluster.new) (outage_failed result ≡ true) }
    ensures ready { C.ready cluster.new ≡ not (outage_failed result) }
{
    let key = match lease_key(alloc, namespace, role) {
        Ok(key) => key,
        Err(Memory) => return Err(Outage::Memory),
    };
    match cluster.snapshot(alloc, namespace) {
        Ok(view) => Ok((key, view)),
        Err(ClusterFault::Failed) => Err(Outage::Failed),
        Err(ClusterFault::Memory) => Err(Outage::Memory),
        Err(ClusterFault::Damaged { at: _ }) => unreachable!(),
    }
}
