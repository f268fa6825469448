// Settles.
ghost use Rattle.std.specs.Prelude.{◌≡◌, true, not, IfOk};
ghost use Rattle.lease_fence.specs.Answers.{outage_failed};
ghost use Rattle.object_store.specs.Puts.{IsSound};
ghost use Rattle.olm_io.specs.Outside.{HasCause};
ghost use Rattle.run_rules.specs.States.{present};
ghost use Rattle.controller.specs.Answers as spec;
ghost use Rattle.controller.specs.Answers.{outside_of, settle_failed, turn_failed};

use crate::answers::{Settled, Turned};
use crate::choosing::first_of_all;
use crate::looking::present_view;
use cluster_objects::Write;
use object_store::{Cluster, PutAnswer};
use olm_base::{Memory, Name};
use olm_io::Outage;
use std::alloc::Global;

// The next write in the present view of the namespace, if a role has one.
fn next_write<C: Cluster>(
    alloc: Global,
    namespace: &Name,
    cluster: &mut C,
) -> Result<Option<Write>, Outage>
    requires { C.ready cluster.old ≡ true }
    ensures next { IfOk result (λ write. spec.IsNext
        (present (C.history cluster.old) namespace.now) write) }
    ensures history { C.history cluster.new ≡ C.history cluster.old }
    ensures limit { C.limit cluster.new ≡ C.limit cluster.old }
    ensures tells { C.tells cluster.new ≡ C.tells cluster.old }
    ensures sound { IsSound (C.tells cluster.old) (C.damage cluster.old)
        → IsSound (C.tells cluster.new) (C.damage cluster.new) }
    ensures cause { HasCause (C.faults cluster.old) (C.faults cluster.new)
        (outage_failed result ≡ true) }
    ensures ready { C.ready cluster.new ≡ not (outage_failed result) }
{
    let view = present_view(alloc, namespace, cluster)?;
    match first_of_all(alloc, &view) {
        Ok(next) => Ok(next),
        Err(Memory) => Err(Outage::Memory),
    }
}

// Makes the write of a turn.
fn put_turn<C: Cluster>(alloc: Global, write: Write, cluster: &mut C) -> Turned
    requires { C.ready cluster.old ≡ true }
    ensures answer { spec.TakesTurn (outside_of (C.tells cluster.old) C.fits (C.limit cluster.old))
        (C.history cluster.old) write (C.history cluster.new) result }
    ensures limit { C.limit cluster.new ≡ C.limit cluster.old }
    ensures tells { C.tells cluster.new ≡ C.tells cluster.old }
    ensures sound { IsSound (C.tells cluster.old) (C.damage cluster.old)
        → IsSound (C.tells cluster.new) (C.damage cluster.new) }
    ensures cause { HasCause (C.faults cluster.old) (C.faults cluster.new)
        (turn_failed result ≡ true) }
    ensures ready { C.ready cluster.new ≡ not (turn_failed result) }
{
    match cluster.put(alloc, write) {
        PutAnswer::Done { version: _ } => Turned::Made,
        PutAnswer::Conflict { found: _ } => Turned::Blocked,
        PutAnswer::Full => Turned::Full,
        PutAnswer::Failed => Turned::Failed,
        PutAnswer::Memory => Turned::Memory,
    }
}

// One turn: the next write in the present view.
fn turn<C: Cluster>(alloc: Global, namespace: &Name, cluster: &mut C) -> Turned
    requires { C.ready cluster.old ≡ true }
    ensures answer { spec.TurnAnswers
        (outside_of (C.tells cluster.old) C.fits (C.limit cluster.old))
        namespace.now (C.history cluster.old) (C.history cluster.new) result }
    ensures limit { C.limit cluster.new ≡ C.limit cluster.old }
    ensures tells { C.tells cluster.new ≡ C.tells cluster.old }
    ensures sound { IsSound (C.tells cluster.old) (C.damage cluster.old)
        → IsSound (C.tells cluster.new) (C.damage cluster.new) }
    ensures cause { HasCause (C.faults cluster.old) (C.faults cluster.new)
        (turn_failed result ≡ true) }
    ensures ready { C.ready cluster.new ≡ not (turn_failed result) }
{
    match next_write(alloc, namespace, cluster) {
        Ok(Some(write)) => put_turn(alloc, write, cluster),
        Ok(None) => Turned::Quiet,
        Err(Outage::Failed) => Turned::Failed,
        Err(Outage::Memory) => Turned::Memory,
    }
}

// Whether a role has a write after the last turn.
fn rest<C: Cluster>(alloc: Global, namespace: &Name, writes: u32, cluster: &mut C) -> Settled
    requires { C.ready cluster.old ≡ true }
    ensures answer { spec.RestAnswers namespace.now writes (C.history cluster.old) result }
    ensures history { C.history cluster.new ≡ C.history cluster.old }
    ensures limit { C.limit cluster.new ≡ C.limit cluster.old }
    ensures tells { C.tells cluster.new ≡ C.tells cluster.old }
    ensures sound { IsSound (C.tells cluster.old) (C.damage cluster.old)
        → IsSound (C.tells cluster.new) (C.damage cluster.new) }
    ensures cause { HasCause (C.faults cluster.old) (C.faults cluster.new)
        (settle_failed result ≡ true) }
    ensures ready { C.ready cluster.new ≡ not (settle_failed result) }
{
    match next_write(alloc, namespace, cluster) {
        Ok(Some(_write)) => Settled::Unsettled { writes },
        Ok(None) => Settled::Quiet { writes },
        Err(Outage::Failed) => Settled::Failed { writes },
        Err(Outage::Memory) => Settled::Memory { writes },
    }
}

/// The roles of the namespace take turns, each with a new view: the first write of the first role that has one, of
/// resolver, installer and phases. It ends where no role has a write, after the last turn, or where a write can't be
/// made.
pub fn settle<C: Cluster>(alloc: Global, namespace: &Name, turns: u32, cluster: &mut C) -> Settled
    requires { C.ready cluster.old ≡ true }
    ensures answer { spec.SettleAnswers
        (outside_of (C.tells cluster.old) C.fits (C.limit cluster.old))
        namespace.now turns (C.history cluster.old) (C.history cluster.new) result }
    ensures limit { C.limit cluster.new ≡ C.limit cluster.old }
    ensures tells { C.tells cluster.new ≡ C.tells cluster.old }
    ensures sound { IsSound (C.tells cluster.old) (C.damage cluster.old)
        → IsSound (C.tells cluster.new) (C.damage cluster.new) }
    ensures cause { HasCause (C.faults cluster.old) (C.faults cluster.new)
        (settle_failed result ≡ true) }
    ensures ready { C.ready cluster.new ≡ not (settle_failed result) }
{
    'turns: for writes in 0..turns {
        match turn(alloc, namespace, cluster) {
            Turned::Made => {}
            Turned::Quiet => return Settled::Quiet { writes },
            Turned::Blocked => return Settled::Unsettled { writes },
            Turned::Full => return Settled::Full { writes },
            Turned::Failed => return Settled::Failed { writes },
            Turned::Memory => return Settled::Memory { writes },
        }
    }
    rest(alloc, namespace, turns, cluster)
}
