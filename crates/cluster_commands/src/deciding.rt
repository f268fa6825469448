// What is decided in a namespace.
ghost use Rattle.std.specs.Prelude.{◌≡◌, true, false, not};
ghost use Rattle.object_store.specs.Puts.{IsSound};
ghost use Rattle.olm_io.specs.Outside.{HasCause};
ghost use Rattle.catalog_choice.specs.Deciding.{IsAnsweredBy};
ghost use Rattle.cluster_commands.specs.Asked as spec;

use crate::looking::{AskFault, look_in};
use catalog_choice::{Answer, decide_nothing, decide_text};
use object_store::{Cluster, View};
use olm_base::Memory;
use problem_build::BuildFault;
use std::alloc::Global;

/// Decides what is asked in the namespace that was looked at, with no more lemmas than the budget, and tells the
/// decision. What is no name asks nothing, and nothing is chosen for it. Too many variables come exactly where the
/// problem is above the limit.
pub fn decide_seen(alloc: Global, seen: &Option<View>, budget: u32) -> Result<Answer, BuildFault>
    ensures { IsAnsweredBy (spec.IsAskedBy seen.now) budget result }
{
    match seen {
        Some(view) => decide_text(alloc, view, budget),
        None => Ok(decide_nothing(alloc, budget)?),
    }
}

fn decide(alloc: Global, seen: &Option<View>, budget: u32) -> Result<Answer, AskFault>
    ensures answer { spec.IsDecidedBy (spec.IsAskedBy seen.now) budget result }
    ensures store { spec.ask_failed result ≡ false }
{
    match decide_seen(alloc, seen, budget) {
        Ok(answer) => Ok(answer),
        Err(BuildFault::TooManyVariables { count }) => Err(AskFault::TooManyVariables { count }),
        Err(BuildFault::Memory) => Err(AskFault::Memory),
    }
}

/// The same of a store: one look at it, and nothing written.
pub fn decide_in<C: Cluster>(
    alloc: Global,
    namespace: &[u8],
    budget: u32,
    cluster: &mut C,
) -> Result<Answer, AskFault>
    requires ready { C.ready cluster.old ≡ true }
    ensures answer { spec.IsDecidedIn (C.history cluster.old) namespace.now budget result }
    ensures history { C.history cluster.new ≡ C.history cluster.old }
    ensures tells { C.tells cluster.new ≡ C.tells cluster.old }
    ensures limit { C.limit cluster.new ≡ C.limit cluster.old }
    ensures cause { HasCause (C.faults cluster.old) (C.faults cluster.new) (spec.ask_failed result ≡ true) }
    ensures sound { IsSound (C.tells cluster.old) (C.damage cluster.old) → IsSound (C.tells cluster.new) (C.damage cluster.new) }
    ensures ready { C.ready cluster.new ≡ not (spec.ask_failed result) }
{
    match look_in(alloc, namespace, cluster) {
        Ok(seen) => decide(alloc, &seen, budget),
        Err(fault) => Err(fault),
    }
}
