// Whether a worker may act.
ghost use Rattle.std.specs.Prelude.{◌≡◌, ◌≢◌, true, not};
ghost use Rattle.object_store.specs.Puts.{IsSound};
ghost use Rattle.olm_io.specs.Outside.{HasCause};
ghost use Rattle.controller_rules.specs.Enabled as enabled;
ghost use Rattle.run_rules.specs.Acting as spec;
ghost use Rattle.controller.specs.Answers.{IsFence, fence_failed, term_judged};

use crate::answers::Fence;
use cluster_objects::Writer;
use controller_rules::Role;
use lease_fence::{Term, term_of};
use object_store::{Cluster, ClusterFault};
use run_rules::Worker;
use std::alloc::Global;

fn writer_of(role: Role) -> Writer
    ensures role { result ≡ enabled.writer_of role }
    ensures worker { result ≢ Writer.User }
{
    match role {
        Role::Resolver => Writer::Resolver,
        Role::Installer => Writer::Installer,
        Role::Phases => Writer::Phases,
    }
}

fn is_fenced(term: Term) -> bool
    ensures { result ≡ spec.is_fenced term }
{
    match term {
        Term::Free => false,
        Term::Held(_) | Term::Lost => true,
    }
}

fn is_stale(term: Term, found: u64) -> bool
    ensures { result ≡ spec.is_stale term found }
{
    match term {
        Term::Free => false,
        Term::Held(held) => held != found,
        Term::Lost => true,
    }
}

fn judged(term: Term, found: u64) -> Fence
    ensures { result ≡ term_judged term found }
{
    if is_stale(term, found) {
        Fence::Stale { term: found }
    } else {
        Fence::Fresh
    }
}

// Asks for the present term.
fn ask_term<C: Cluster>(alloc: Global, worker: &Worker, cluster: &mut C) -> Fence
    requires ready { C.ready cluster.old ≡ true }
    requires fenced { spec.is_fenced worker.now.term ≡ true }
    ensures answer { IsFence (C.history cluster.old) worker.now result }
    ensures history { C.history cluster.new ≡ C.history cluster.old }
    ensures limit { C.limit cluster.new ≡ C.limit cluster.old }
    ensures tells { C.tells cluster.new ≡ C.tells cluster.old }
    ensures sound { IsSound (C.tells cluster.old) (C.damage cluster.old)
        → IsSound (C.tells cluster.new) (C.damage cluster.new) }
    ensures cause { HasCause (C.faults cluster.old) (C.faults cluster.new)
        (fence_failed result ≡ true) }
    ensures ready { C.ready cluster.new ≡ not (fence_failed result) }
{
    match term_of(alloc, cluster, &worker.namespace, writer_of(worker.role)) {
        Ok(found) => judged(worker.term, found),
        Err(ClusterFault::Failed) => Fence::Failed,
        Err(ClusterFault::Memory) => Fence::Memory,
        Err(ClusterFault::Damaged { at: _ }) => unreachable!(),
    }
}

/// Whether the worker may act. One that never requested its lease may, and asks for no term.
#[tactic(auto, using(crate::proofs::Judging::free_is_fresh))]
pub(crate) fn fence_of<C: Cluster>(alloc: Global, worker: &Worker, cluster: &mut C) -> Fence
    requires { C.ready cluster.old ≡ true }
    ensures answer { IsFence (C.history cluster.old) worker.now result }
    ensures history { C.history cluster.new ≡ C.history cluster.old }
    ensures limit { C.limit cluster.new ≡ C.limit cluster.old }
    ensures tells { C.tells cluster.new ≡ C.tells cluster.old }
    ensures sound { IsSound (C.tells cluster.old) (C.damage cluster.old)
        → IsSound (C.tells cluster.new) (C.damage cluster.new) }
    ensures cause { HasCause (C.faults cluster.old) (C.faults cluster.new)
        (fence_failed result ≡ true) }
    ensures ready { C.ready cluster.new ≡ not (fence_failed result) }
{
    if is_fenced(worker.term) {
        ask_term(alloc, worker, cluster)
    } else {
        Fence::Fresh
    }
}
