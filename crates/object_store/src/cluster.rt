// What every store of a history offers.
ghost use Rattle.std.specs.Prelude.{◌≡◌, Bool, Option, true, not, ℕ, is_ok};
ghost use Rattle.cluster_history.specs.History.{History, IsHistory};
ghost use Rattle.cluster_objects.specs.declared.objects.Write.{Write};
ghost use Rattle.olm_io.specs.Outside.{HasCause};
ghost use Rattle.object_store.specs.Puts.{IsSound, Puts, Snapshots, Reopens, has_room, put_failed, fault_failed};

use crate::View;
use cluster_objects::Write;
use olm_base::Name;
use std::alloc::Global;

/// What a put came to.
#[derive(Clone, Copy, Debug, PartialEq, Eq)]
pub enum PutAnswer {
    /// The write stands, at this position.
    Done { version: u64 },
    /// The key has another version than the write expects.
    Conflict { found: u64 },
    /// There is no room for the write.
    Full,
    /// The outside failed: the write stands or it doesn't.
    Failed,
    Memory,
}

/// Why a store gives no view or can't be opened again.
#[derive(Clone, Copy, Debug, PartialEq, Eq)]
pub enum ClusterFault {
    Failed,
    /// What is stored stands for no history, from this place on.
    Damaged { at: u64 },
    Memory,
}

/// A store of one history. Whether a reopening finds damage, and that it leaves the history as it is, holds where the
/// store tells what its file holds.
pub trait Cluster {
    /// The store tells what its file holds.
    ghost tells: { Self → Bool };

    ghost history: { Self → History };

    /// The most writes that it takes.
    ghost limit: { Self → ℕ };

    /// Whether what holds this history has place for one write more.
    ghost fits: { History → Write → Bool };

    /// How often the outside has failed.
    ghost faults: { Self → ℕ };

    /// No call has failed since it was opened last.
    ghost ready: { Self → Bool };

    /// The place from which on what is stored stands for no history.
    ghost damage: { Self → Option ℕ };

    /// The slots that the namespace sees, and the history's length, at one moment.
    fn snapshot(&mut self, alloc: Global, namespace: &Name) -> Result<View, ClusterFault>
        requires { ready self.old ≡ true }
        ensures view { Snapshots (history self.old) namespace.now result }
        ensures history { history self.new ≡ history self.old }
        ensures tells { tells self.new ≡ tells self.old }
        ensures limit { limit self.new ≡ limit self.old }
        ensures cause { HasCause (faults self.old) (faults self.new) (fault_failed result ≡ true) }
        ensures sound { IsSound (tells self.old) (damage self.old) → IsSound (tells self.new) (damage self.new) }
        ensures ready { ready self.new ≡ not (fault_failed result) };

    /// Appends the write, if its key has the version that it expects and there is room.
    fn put(&mut self, alloc: Global, write: Write) -> PutAnswer
        requires { ready self.old ≡ true }
        ensures puts { Puts (has_room (fits (history self.old) write) (limit self.old) (history self.old)) (history self.old) write (history self.new) result }
        ensures tells { tells self.new ≡ tells self.old }
        ensures limit { limit self.new ≡ limit self.old }
        ensures cause { HasCause (faults self.old) (faults self.new) (put_failed result ≡ true) }
        ensures sound { IsSound (tells self.old) (damage self.old) → IsSound (tells self.new) (damage self.new) }
        ensures ready { ready self.new ≡ not (put_failed result) };

    /// Opens the store again after a fault. A history stays one, also where the store doesn't tell what its file holds.
    fn reopen(&mut self, alloc: Global) -> Result<(), ClusterFault>
        ensures damage { tells self.old ≡ true → Reopens (damage self.old) result }
        ensures history { tells self.old ≡ true → history self.new ≡ history self.old }
        ensures still { IsHistory (history self.old) → IsHistory (history self.new) }
        ensures tells { tells self.new ≡ tells self.old }
        ensures limit { limit self.new ≡ limit self.old }
        ensures cause { HasCause (faults self.old) (faults self.new) (fault_failed result ≡ true) }
        ensures sound { IsSound (tells self.old) (damage self.old) → IsSound (tells self.new) (damage self.new) }
        ensures ready { ready self.new ≡ is_ok result };
}

/// A borrowed store passes each call on.
impl<C: Cluster> Cluster for &mut C {
    ghost tells = { λ c. C.tells c.now };

    ghost history = { λ c. C.history c.now };

    ghost limit = { λ c. C.limit c.now };

    ghost fits = { C.fits };

    ghost faults = { λ c. C.faults c.now };

    ghost ready = { λ c. C.ready c.now };

    ghost damage = { λ c. C.damage c.now };

    fn snapshot(&mut self, alloc: Global, namespace: &Name) -> Result<View, ClusterFault> {
        (**self).snapshot(alloc, namespace)
    }

    fn put(&mut self, alloc: Global, write: Write) -> PutAnswer {
        (**self).put(alloc, write)
    }

    fn reopen(&mut self, alloc: Global) -> Result<(), ClusterFault> {
        (**self).reopen(alloc)
    }
}
