// Acts of workers.
ghost use Rattle.std.specs.Prelude.{◌≡◌, true, not};
ghost use Rattle.object_store.specs.Puts.{IsSound};
ghost use Rattle.olm_io.specs.Outside.{HasCause};
ghost use Rattle.controller.specs.Answers as spec;
ghost use Rattle.controller.specs.Answers.{act_failed, outside_of};

use crate::answers::{Acted, Fence};
use crate::choosing::enabled_first;
use crate::fencing::fence_of;
use cluster_objects::Write;
use controller_rules::Role;
use object_store::{Cluster, PutAnswer, View};
use olm_base::Memory;
use run_rules::Worker;
use std::alloc::Global;

fn discard(_write: Write) {}

// Makes the write, if its key has the version that it expects and there is room.
fn try_write<C: Cluster>(alloc: Global, write: Write, cluster: &mut C) -> Acted
    requires { C.ready cluster.old ≡ true }
    ensures answer { spec.Tries (outside_of (C.tells cluster.old) C.fits (C.limit cluster.old))
        (C.history cluster.old) write (C.history cluster.new) result }
    ensures limit { C.limit cluster.new ≡ C.limit cluster.old }
    ensures tells { C.tells cluster.new ≡ C.tells cluster.old }
    ensures sound { IsSound (C.tells cluster.old) (C.damage cluster.old)
        → IsSound (C.tells cluster.new) (C.damage cluster.new) }
    ensures cause { HasCause (C.faults cluster.old) (C.faults cluster.new)
        (act_failed result ≡ true) }
    ensures ready { C.ready cluster.new ≡ not (act_failed result) }
{
    let Ok(key) = write.key.clone() else {
        discard(write);
        return Acted::Memory;
    };
    match cluster.put(alloc, write) {
        PutAnswer::Done { version } => Acted::Put { key, version },
        PutAnswer::Conflict { found } => Acted::Conflict { found },
        PutAnswer::Full => Acted::Full,
        PutAnswer::Failed => Acted::Failed,
        PutAnswer::Memory => Acted::Memory,
    }
}

// Makes the role's first write in the view.
fn act_in<C: Cluster>(alloc: Global, role: Role, view: &View, cluster: &mut C) -> Acted
    requires { C.ready cluster.old ≡ true }
    ensures answer { spec.ActsIn (outside_of (C.tells cluster.old) C.fits (C.limit cluster.old))
        role view.now (C.history cluster.old) (C.history cluster.new) result }
    ensures limit { C.limit cluster.new ≡ C.limit cluster.old }
    ensures tells { C.tells cluster.new ≡ C.tells cluster.old }
    ensures sound { IsSound (C.tells cluster.old) (C.damage cluster.old)
        → IsSound (C.tells cluster.new) (C.damage cluster.new) }
    ensures cause { HasCause (C.faults cluster.old) (C.faults cluster.new)
        (act_failed result ≡ true) }
    ensures ready { C.ready cluster.new ≡ not (act_failed result) }
{
    match enabled_first(alloc, role, view) {
        Ok(Some(write)) => try_write(alloc, write, cluster),
        Ok(None) => Acted::Idle,
        Err(Memory) => Acted::Memory,
    }
}

/// The worker makes the first write of its role in the view that it holds. The view may be old: a key of another
/// version is a conflict. No view is taken, and the lease isn't asked for.
pub fn act<C: Cluster>(alloc: Global, worker: &Worker, cluster: &mut C) -> Acted
    requires { C.ready cluster.old ≡ true }
    ensures answer { spec.ActAnswers (outside_of (C.tells cluster.old) C.fits (C.limit cluster.old))
        (C.history cluster.old) worker.now (C.history cluster.new) result }
    ensures limit { C.limit cluster.new ≡ C.limit cluster.old }
    ensures tells { C.tells cluster.new ≡ C.tells cluster.old }
    ensures sound { IsSound (C.tells cluster.old) (C.damage cluster.old)
        → IsSound (C.tells cluster.new) (C.damage cluster.new) }
    ensures cause { HasCause (C.faults cluster.old) (C.faults cluster.new)
        (act_failed result ≡ true) }
    ensures ready { C.ready cluster.new ≡ not (act_failed result) }
{
    match &worker.view {
        Some(view) => act_in(alloc, worker.role, view, cluster),
        None => Acted::NoView,
    }
}

// Acts in the view, if the worker may.
fn act_fenced_in<C: Cluster>(alloc: Global, worker: &Worker, view: &View, cluster: &mut C) -> Acted
    requires { C.ready cluster.old ≡ true }
    ensures answer { spec.FencedIn (outside_of (C.tells cluster.old) C.fits (C.limit cluster.old))
        worker.now view.now (C.history cluster.old) (C.history cluster.new) result }
    ensures limit { C.limit cluster.new ≡ C.limit cluster.old }
    ensures tells { C.tells cluster.new ≡ C.tells cluster.old }
    ensures sound { IsSound (C.tells cluster.old) (C.damage cluster.old)
        → IsSound (C.tells cluster.new) (C.damage cluster.new) }
    ensures cause { HasCause (C.faults cluster.old) (C.faults cluster.new)
        (act_failed result ≡ true) }
    ensures ready { C.ready cluster.new ≡ not (act_failed result) }
{
    match fence_of(alloc, worker, cluster) {
        Fence::Fresh => act_in(alloc, worker.role, view, cluster),
        Fence::Stale { term } => Acted::Stale { term },
        Fence::Failed => Acted::Failed,
        Fence::Memory => Acted::Memory,
    }
}

/// The same, but a worker that requested its lease acts only if it holds the present term.
pub fn act_fenced<C: Cluster>(alloc: Global, worker: &Worker, cluster: &mut C) -> Acted
    requires { C.ready cluster.old ≡ true }
    ensures answer { spec.FencedAnswers
        (outside_of (C.tells cluster.old) C.fits (C.limit cluster.old))
        (C.history cluster.old) worker.now (C.history cluster.new) result }
    ensures limit { C.limit cluster.new ≡ C.limit cluster.old }
    ensures tells { C.tells cluster.new ≡ C.tells cluster.old }
    ensures sound { IsSound (C.tells cluster.old) (C.damage cluster.old)
        → IsSound (C.tells cluster.new) (C.damage cluster.new) }
    ensures cause { HasCause (C.faults cluster.old) (C.faults cluster.new)
        (act_failed result ≡ true) }
    ensures ready { C.ready cluster.new ≡ not (act_failed result) }
{
    match &worker.view {
        Some(view) => act_fenced_in(alloc, worker, view, cluster),
        None => Acted::NoView,
    }
}
