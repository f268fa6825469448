// A history in memory, of which some calls fail.
ghost use Rattle.std.specs.Prelude.{◌≡◌, ◌≤◌, [], true, false, Some, None, is_ok, IfOk};
ghost use Rattle.cluster_history.specs.History.{position};
ghost use Rattle.cluster_history.specs.Views.{view};
ghost use Rattle.olm_io.specs.Outside.{HasCause, Rose};
ghost use Rattle.object_store.specs.Puts.{Puts, Snapshots, Reopens, has_room, put_failed, fault_failed};
ghost use Rattle.object_store.specs.Misses.{Calls, CallsPut, Stores, history_of, is_missed, miss_of, next_miss, answered, missed};

use crate::sure::discard;
use crate::{Cluster, ClusterFault, Miss, PutAnswer, SureCluster, View, WRITE_LIMIT};
use cluster_objects::Write;
use olm_base::{Many, Memory, Name};
use std::alloc::Global;
use std::marker::Model;

/// A store in memory, of which the calls of some numbers fail. `snapshot`, `put` and `reopen` are counted together,
/// from 0. A call that answers want of memory isn't counted. All calls after number 2^64 - 1 have that number.
/// Where a number is listed twice the first miss counts. It is never damaged.
#[derive(Drop)]
pub struct MemCluster {
    store: SureCluster,
    call: u64,
    faults: u64,
    misses: Many<Miss>,
    ready: bool,
}

impl Model for MemCluster {
    ghost use Rattle.object_store.specs.Misses.{MemClusterState};

    ghost Value = { MemClusterState };

    ghost view = { λ s. record {
      limit = s.store.0;
      writes = s.store.1;
      call = s.call;
      faults = s.faults;
      misses = s.misses;
      ready = s.ready;
    } };
}

// The first miss of this call.
fn miss_at(misses: &[Miss], call: u64) -> Option<Miss>
    ensures { result ≡ miss_of misses.now call }
{
    for miss in misses {
        if miss.call == call {
            return Some(*miss);
        }
    }
    None
}

// Puts into a store that never fails, and tells which writes it has then.
fn put_sure(store: &mut SureCluster, alloc: Global, write: Write) -> PutAnswer
    ensures puts { Puts (has_room true store.old.0 (history_of store.old.1)) (history_of store.old.1) write (history_of store.new.1) result }
    ensures writes { Stores store.old write store.new result }
{
    store.put(alloc, write)
}

// A view of a store that never fails, which stays as it is.
fn view_sure(store: &mut SureCluster, alloc: Global, namespace: &Name) -> Result<View, Memory>
    ensures view { IfOk result (λ v. v ≡ view (history_of store.old.1) namespace.now (position (history_of store.old.1))) }
    ensures same { store.new ≡ store.old }
{
    match store.snapshot(alloc, namespace) {
        Ok(view) => Ok(view),
        Err(_) => Err(Memory),
    }
}

impl MemCluster {
    /// An empty store, which takes so many writes, with these misses.
    pub fn new(alloc: Global, limit: u64, misses: Many<Miss>) -> MemCluster
        requires { limit ≤ WRITE_LIMIT }
        ensures { result ≡ record { limit = limit; writes = []; call = 0; faults = 0; misses = misses; ready = true } }
    {
        MemCluster {
            store: SureCluster::new(alloc, limit),
            call: 0,
            faults: 0,
            misses,
            ready: true,
        }
    }

    /// Whether no call has failed since the store was opened last.
    pub fn is_ready(&self) -> bool
        ensures { result ≡ self.now.ready }
    {
        self.ready
    }

    /// How often a call has failed. It stays at 2^64 - 1.
    pub fn faults(&self) -> u64
        ensures { result ≡ self.now.faults }
    {
        self.faults
    }

    fn next_miss(&self) -> Option<Miss>
        ensures { result ≡ next_miss self.now }
    {
        miss_at(self.misses.as_slice(), self.call)
    }

    fn is_missed(&self) -> bool
        ensures { result ≡ is_missed self.now }
    {
        self.next_miss().is_some()
    }

    // Counts a call that is answered.
    fn answer(&mut self)
        ensures { self.new ≡ answered self.old }
    {
        self.call = self.call.saturating_add(1);
        self.ready = true;
    }

    // Counts a call that fails.
    fn miss(&mut self)
        ensures missed { self.new ≡ missed self.old }
        ensures later { self.old.faults ≤ self.new.faults }
        ensures rose { Rose self.old.faults self.new.faults }
    {
        self.call = self.call.saturating_add(1);
        self.faults = self.faults.saturating_add(1);
        self.ready = false;
    }

    // A put that no miss is of.
    fn put_now(&mut self, alloc: Global, write: Write) -> PutAnswer
        requires { next_miss self.old ≡ None }
        ensures puts { Puts (has_room true self.old.limit (history_of self.old.writes)) (history_of self.old.writes) write (history_of self.new.writes) result }
        ensures calls { CallsPut self.old write self.new result }
        ensures cause { HasCause self.old.faults self.new.faults (put_failed result ≡ true) }
    {
        match put_sure(&mut self.store, alloc, write) {
            PutAnswer::Memory => PutAnswer::Memory,
            given => {
                self.answer();
                given
            }
        }
    }

    // A put that fails, and is made all the same.
    fn miss_made(&mut self, alloc: Global, write: Write, miss: Miss) -> PutAnswer
        requires miss { next_miss self.old ≡ Some miss }
        requires applied { miss.applied ≡ true }
        ensures puts { Puts (has_room true self.old.limit (history_of self.old.writes)) (history_of self.old.writes) write (history_of self.new.writes) result }
        ensures calls { CallsPut self.old write self.new result }
        ensures cause { HasCause self.old.faults self.new.faults (put_failed result ≡ true) }
    {
        match put_sure(&mut self.store, alloc, write) {
            PutAnswer::Memory => PutAnswer::Memory,
            _ => {
                self.miss();
                PutAnswer::Failed
            }
        }
    }

    // A put that a miss is of.
    fn miss_put(&mut self, alloc: Global, write: Write, miss: Miss) -> PutAnswer
        requires { next_miss self.old ≡ Some miss }
        ensures puts { Puts (has_room true self.old.limit (history_of self.old.writes)) (history_of self.old.writes) write (history_of self.new.writes) result }
        ensures calls { CallsPut self.old write self.new result }
        ensures cause { HasCause self.old.faults self.new.faults (put_failed result ≡ true) }
    {
        if miss.applied {
            return self.miss_made(alloc, write, miss);
        }
        discard(write);
        self.miss();
        PutAnswer::Failed
    }
}

impl Cluster for MemCluster {
    ghost use Rattle.object_store.specs.Misses.{history_of};

    ghost tells = { λ s. true };

    ghost history = { λ s. history_of s.writes };

    ghost limit = { λ s. s.limit };

    ghost fits = { λ h w. true };

    ghost faults = { λ s. s.faults };

    ghost ready = { λ s. s.ready };

    ghost damage = { λ s. None };

    /// Fails exactly where a miss is of this call.
    fn snapshot(&mut self, alloc: Global, namespace: &Name) -> Result<View, ClusterFault>
        requires { self.old.ready ≡ true }
        ensures view { Snapshots (history_of self.old.writes) namespace.now result }
        ensures calls { Calls self.old self.new result }
        ensures cause { HasCause self.old.faults self.new.faults (fault_failed result ≡ true) }
    {
        if self.is_missed() {
            self.miss();
            return Err(ClusterFault::Failed);
        }
        match view_sure(&mut self.store, alloc, namespace) {
            Ok(view) => {
                self.answer();
                Ok(view)
            }
            Err(Memory) => Err(ClusterFault::Memory),
        }
    }

    /// Fails exactly where a miss is of this call, but for memory.
    fn put(&mut self, alloc: Global, write: Write) -> PutAnswer
        requires { self.old.ready ≡ true }
        ensures puts { Puts (has_room true self.old.limit (history_of self.old.writes)) (history_of self.old.writes) write (history_of self.new.writes) result }
        ensures calls { CallsPut self.old write self.new result }
        ensures cause { HasCause self.old.faults self.new.faults (put_failed result ≡ true) }
    {
        match self.next_miss() {
            Some(miss) => self.miss_put(alloc, write, miss),
            None => self.put_now(alloc, write),
        }
    }

    /// Fails exactly where a miss is of this call, and else opens the store.
    fn reopen(&mut self, _alloc: Global) -> Result<(), ClusterFault>
        ensures damage { Reopens None result }
        ensures calls { Calls self.old self.new result }
        ensures cause { HasCause self.old.faults self.new.faults (fault_failed result ≡ true) }
        ensures ready { self.new.ready ≡ is_ok result }
    {
        if self.is_missed() {
            self.miss();
            return Err(ClusterFault::Failed);
        }
        self.answer();
        Ok(())
    }
}
