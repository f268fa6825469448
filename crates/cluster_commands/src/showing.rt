// The objects of a namespace.
ghost use Rattle.std.specs.Prelude.{◌≡◌, true, false, not, IfOk};
ghost use Rattle.object_store.specs.Puts.{IsSound};
ghost use Rattle.olm_io.specs.Outside.{HasCause};
ghost use Rattle.cluster_commands.specs.Asked as spec;

use crate::looking::{AskFault, look_in};
use cluster_lines::show_lines;
use object_store::{Cluster, View};
use olm_base::Memory;
use std::alloc::Global;

/// A line for each object of the namespace that was looked at, in the order of their keys. What is no name has none.
pub fn show_seen(alloc: Global, seen: &Option<View>) -> Result<Vec<u8>, Memory>
    ensures { IfOk result (λ lines. lines.items ≡ spec.lines_of seen.now) }
{
    match seen {
        Some(view) => show_lines(alloc, view),
        None => Ok(Vec::new(alloc)),
    }
}

fn show(alloc: Global, seen: &Option<View>) -> Result<Vec<u8>, AskFault>
    ensures lines { IfOk result (λ lines. lines.items ≡ spec.lines_of seen.now) }
    ensures found { spec.is_too_large result ≡ false }
    ensures store { spec.ask_failed result ≡ false }
{
    match show_seen(alloc, seen) {
        Ok(lines) => Ok(lines),
        Err(Memory) => Err(AskFault::Memory),
    }
}

/// The same of a store: one look at it, and nothing written.
pub fn show_in<C: Cluster>(
    alloc: Global,
    namespace: &[u8],
    cluster: &mut C,
) -> Result<Vec<u8>, AskFault>
    requires ready { C.ready cluster.old ≡ true }
    ensures lines { IfOk result (λ lines. lines.items ≡ spec.shown_in (C.history cluster.old) namespace.now) }
    ensures found { spec.is_too_large result ≡ false }
    ensures history { C.history cluster.new ≡ C.history cluster.old }
    ensures tells { C.tells cluster.new ≡ C.tells cluster.old }
    ensures limit { C.limit cluster.new ≡ C.limit cluster.old }
    ensures cause { HasCause (C.faults cluster.old) (C.faults cluster.new) (spec.ask_failed result ≡ true) }
    ensures sound { IsSound (C.tells cluster.old) (C.damage cluster.old) → IsSound (C.tells cluster.new) (C.damage cluster.new) }
    ensures ready { C.ready cluster.new ≡ not (spec.ask_failed result) }
{
    match look_in(alloc, namespace, cluster) {
        Ok(seen) => show(alloc, &seen),
        Err(fault) => Err(fault),
    }
}
