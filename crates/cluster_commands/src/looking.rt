// One look at a store, for a namespace that may be any text.
ghost use Rattle.std.specs.Prelude.{◌≡◌, Some, true, false, not, IfOk};
ghost use Rattle.catalog_choice.specs.Asking as asking;
ghost use Rattle.object_store.specs.Puts.{IsSound};
ghost use Rattle.olm_io.specs.Outside.{HasCause};
ghost use Rattle.cluster_commands.specs.Asked.{ask_failed, is_too_large, seen_in, view_now};

use object_store::{Cluster, ClusterFault, View};
use olm_base::{Memory, Name, NameFault};
use std::alloc::Global;

/// Why nothing is shown or decided of a cluster.
#[derive(Clone, Copy, Debug, PartialEq, Eq)]
pub enum AskFault {
    /// A call of the store failed.
    StoreFailed,
    /// The problem has so many variables, or one of them so many constraints, and that is above the limit.
    TooManyVariables { count: u64 },
    Memory,
}

/// The name that a text is, if it is one.
pub fn name_of(alloc: Global, text: &[u8]) -> Result<Option<Name>, Memory>
    ensures { IfOk result (λ name. name ≡ asking.name_of text.now) }
{
    match Name::new(alloc, text) {
        Ok(name) => Ok(Some(name)),
        Err(NameFault::Bad) => Ok(None),
        Err(NameFault::Memory) => Err(Memory),
    }
}

fn look<C: Cluster>(
    alloc: Global,
    namespace: &Name,
    cluster: &mut C,
) -> Result<Option<View>, AskFault>
    requires ready { C.ready cluster.old ≡ true }
    ensures seen { IfOk result (λ seen. seen ≡ Some (view_now (C.history cluster.old) namespace.now)) }
    ensures found { is_too_large result ≡ false }
    ensures history { C.history cluster.new ≡ C.history cluster.old }
    ensures tells { C.tells cluster.new ≡ C.tells cluster.old }
    ensures limit { C.limit cluster.new ≡ C.limit cluster.old }
    ensures cause { HasCause (C.faults cluster.old) (C.faults cluster.new) (ask_failed result ≡ true) }
    ensures sound { IsSound (C.tells cluster.old) (C.damage cluster.old) → IsSound (C.tells cluster.new) (C.damage cluster.new) }
    ensures ready { C.ready cluster.new ≡ not (ask_failed result) }
{
    match cluster.snapshot(alloc, namespace) {
        Ok(view) => Ok(Some(view)),
        Err(ClusterFault::Failed) => Err(AskFault::StoreFailed),
        Err(ClusterFault::Memory) => Err(AskFault::Memory),
        Err(ClusterFault::Damaged { at: _ }) => unreachable!(),
    }
}

/// What a namespace sees of the whole history. A text that is no name sees nothing, and the store isn't called.
pub fn look_in<C: Cluster>(
    alloc: Global,
    namespace: &[u8],
    cluster: &mut C,
) -> Result<Option<View>, AskFault>
    requires ready { C.ready cluster.old ≡ true }
    ensures seen { IfOk result (λ seen. seen ≡ seen_in (C.history cluster.old) namespace.now) }
    ensures found { is_too_large result ≡ false }
    ensures history { C.history cluster.new ≡ C.history cluster.old }
    ensures tells { C.tells cluster.new ≡ C.tells cluster.old }
    ensures limit { C.limit cluster.new ≡ C.limit cluster.old }
    ensures cause { HasCause (C.faults cluster.old) (C.faults cluster.new) (ask_failed result ≡ true) }
    ensures sound { IsSound (C.tells cluster.old) (C.damage cluster.old) → IsSound (C.tells cluster.new) (C.damage cluster.new) }
    ensures ready { C.ready cluster.new ≡ not (ask_failed result) }
{
    match name_of(alloc, namespace) {
        Ok(Some(namespace)) => look(alloc, &namespace, cluster),
        Ok(None) => Ok(None),
        Err(Memory) => Err(AskFault::Memory),
    }
}
