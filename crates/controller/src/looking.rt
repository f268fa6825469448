// Views of a store.
ghost use Rattle.std.specs.Prelude.{◌≡◌, true, not, IfOk};
ghost use Rattle.lease_fence.specs.Answers.{outage_failed};
ghost use Rattle.object_store.specs.Puts.{IsSound};
ghost use Rattle.olm_io.specs.Outside.{HasCause};
ghost use Rattle.run_rules.specs.States.{present};
ghost use Rattle.controller.specs.Answers.{LookAnswers, look_failed};

use crate::answers::Looked;
use object_store::{Cluster, ClusterFault, View};
use olm_base::Name;
use olm_io::Outage;
use run_rules::Worker;
use std::alloc::Global;

/// The present view of a namespace.
pub(crate) fn present_view<C: Cluster>(
    alloc: Global,
    namespace: &Name,
    cluster: &mut C,
) -> Result<View, Outage>
    requires { C.ready cluster.old ≡ true }
    ensures view { IfOk result (λ view. view ≡ present (C.history cluster.old) namespace.now) }
    ensures history { C.history cluster.new ≡ C.history cluster.old }
    ensures limit { C.limit cluster.new ≡ C.limit cluster.old }
    ensures tells { C.tells cluster.new ≡ C.tells cluster.old }
    ensures sound { IsSound (C.tells cluster.old) (C.damage cluster.old)
        → IsSound (C.tells cluster.new) (C.damage cluster.new) }
    ensures cause { HasCause (C.faults cluster.old) (C.faults cluster.new)
        (outage_failed result ≡ true) }
    ensures ready { C.ready cluster.new ≡ not (outage_failed result) }
{
    match cluster.snapshot(alloc, namespace) {
        Ok(view) => Ok(view),
        Err(ClusterFault::Failed) => Err(Outage::Failed),
        Err(ClusterFault::Memory) => Err(Outage::Memory),
        Err(ClusterFault::Damaged { at: _ }) => unreachable!(),
    }
}

/// The worker takes the present view of its namespace, and keeps all where that fails.
pub fn look<C: Cluster>(alloc: Global, worker: &mut Worker, cluster: &mut C) -> Looked
    requires { C.ready cluster.old ≡ true }
    ensures answer { LookAnswers (C.history cluster.old) worker.old
        (C.history cluster.new) worker.new result }
    ensures limit { C.limit cluster.new ≡ C.limit cluster.old }
    ensures tells { C.tells cluster.new ≡ C.tells cluster.old }
    ensures sound { IsSound (C.tells cluster.old) (C.damage cluster.old)
        → IsSound (C.tells cluster.new) (C.damage cluster.new) }
    ensures cause { HasCause (C.faults cluster.old) (C.faults cluster.new)
        (look_failed result ≡ true) }
    ensures ready { C.ready cluster.new ≡ not (look_failed result) }
{
    match present_view(alloc, &worker.namespace, cluster) {
        Ok(view) => {
            let length = view.length();
            worker.view = Some(view);
            Looked::Done { length }
        }
        Err(Outage::Failed) => Looked::Failed,
        Err(Outage::Memory) => Looked::Memory,
    }
}
