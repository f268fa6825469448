// A store of a history whose file is on a disk.
ghost use Rattle.std.specs.Prelude.{◌≡◌, ◌≤◌, ◌<◌, ℕ, List, true, false, not, length, IfOk, is_ok};
ghost use Rattle.cluster_history.specs.History.{IsHistory};
ghost use Rattle.cluster_file.specs.Files.{damage_in, history_in, record_form, stands};
ghost use Rattle.cluster_file.specs.Writing.{history_after, piece};
ghost use Rattle.olm_io.specs.Outside.{HasCause};
ghost use Rattle.object_store.specs.Puts.{Agrees, IsSound, Puts, Reopens, Snapshots, fault_failed, has_room, put_failed};
ghost use Rattle.log_file.specs.Crashes.{OpeningLeaves};
ghost use Rattle.olm_disk.specs.Disk.{LeavesOnly, nothing_pending};
ghost use Rattle.log_store.specs.Adds.{PutsOn, is_refused};
ghost use Rattle.log_store.specs.Crashes.{IsFileOf, PutLeaves};
ghost use Rattle.log_store.specs.Starts.{disk_after, told};
ghost use Rattle.log_store.specs.Store.{IsWhole, fits, has_place, store_history};

use crate::StartFault;
use crate::adding::{discard, keep, prepared, view_of};
use crate::starting::with_disk;
use cluster_objects::Write;
use log_file::{Opened, open_file};
use object_store::{Cluster, ClusterFault, PutAnswer, SureCluster, View, WRITE_LIMIT};
use olm_base::{Memory, Name};
use olm_disk::Disk;
use olm_io::Outage;
use std::alloc::Global;
use std::marker::Model;

/// A store over the file of a disk. Its history is what the file stands for where the disk tells its content, and else
/// that of the writes that were read and put. Its count of faults is that of the disk. A snapshot makes no call of the
/// disk; a put makes four, and none at a conflict or where it is full.
#[derive(Drop)]
pub struct LogCluster<D: Disk> {
    disk: D,
    store: SureCluster,
    limit: u64,
    gate: u64,
    ready: bool,
}

impl<D: Disk> Model for LogCluster<D> {
    ghost use Rattle.std.specs.Prelude.{◌≤◌};
    ghost use Rattle.log_file.specs.Log.{IsLog};
    ghost use Rattle.object_store.specs.declared.TheConstants.{WRITE_LIMIT};
    ghost use Rattle.log_store.specs.Store.{IsWhole, LogClusterState};

    ghost Value = { LogClusterState D };

    ghost view = { λ s. record { disk = s.disk; limit = s.limit; writes = s.store.1; gate = s.gate; ready = s.ready } };

    ghost invariant = { λ s. (s.limit ≤ WRITE_LIMIT) × IsLog (D.tells s.disk) (D.content s.disk) (D.pending s.disk) s.store.1 s.gate s.ready × IsWhole (D.tells s.disk) (D.content s.disk) };
}

impl<D: Disk> LogCluster<D> {
    /// Opens the file of this disk for a store that takes at most so many writes. It begins with a sync. A file of at
    /// most nine bytes is made that of the empty history; nothing else is written. Damaged comes exactly where the file
    /// stands for no history, with the place. What the file stands for is the same afterwards, however this ends.
    #[tactic(auto, using(crate::proofs::Whole::whole_log))]
    pub fn start(alloc: Global, mut disk: D, limit: u64) -> Result<LogCluster<D>, StartFault<D>>
        requires { limit ≤ WRITE_LIMIT }
        ensures damage { D.tells disk ≡ true → Reopens (damage_in (D.content disk)) (told result) }
        ensures same { D.tells disk ≡ true → stands (D.content (disk_after result)) ≡ stands (D.content disk) }
        ensures history { D.tells disk ≡ true → IfOk result (λ s. store_history (D.tells s.disk) (D.content s.disk) s.writes ≡ history_in (D.content disk)) }
        ensures still { IfOk result (λ s. IsHistory (store_history (D.tells s.disk) (D.content s.disk) s.writes)) }
        ensures limit { IfOk result (λ s. s.limit ≡ limit) }
        ensures ready { IfOk result (λ s. s.ready ≡ true) }
        ensures tells { D.tells (disk_after result) ≡ D.tells disk }
        ensures cause { HasCause (D.faults disk) (D.faults (disk_after result)) (fault_failed (told result) ≡ true) }
        ensures kept { D.tells disk ≡ true → 9 < length (D.content disk) → D.content (disk_after result) ≡ D.content disk }
        ensures crash { D.tells disk ≡ true → LeavesOnly D.moment D.left_since disk (disk_after result) (OpeningLeaves (D.content disk) (D.pending disk)) }
    {
        match open_file(alloc, &mut disk, limit) {
            Ok(Opened { store, gate }) => Ok(LogCluster {
                disk,
                store,
                limit,
                gate,
                ready: true,
            }),
            Err(fault) => Err(with_disk(fault, disk)),
        }
    }

    /// Gives the disk back. It makes no call of it. The file isn't damaged, however the calls of the store ended, and
    /// the store's history is one.
    #[tactic(auto, using(crate::proofs::Opening::always_history))]
    pub fn close(self) -> D
        ensures disk { result ≡ self.disk }
        ensures whole { IsWhole (D.tells result) (D.content result) }
        ensures still { IsHistory (store_history (D.tells result) (D.content result) self.writes) }
        ensures durable { D.tells result ≡ true → self.ready ≡ true → D.pending result ≡ nothing_pending (D.content result) }
    {
        let LogCluster { disk, .. } = self;
        disk
    }

    /// Whether no call has failed since the store was opened last. If the disk tells what it holds, nothing is pending on
    /// it while the store is ready. So a crash now leaves a file of the store's history, and nothing else.
    pub fn is_ready(&self) -> bool
        ensures ready { result ≡ self.now.ready }
        ensures durable { D.tells self.now.disk ≡ true → self.now.ready ≡ true → D.pending self.now.disk ≡ nothing_pending (D.content self.now.disk) }
        ensures crash { D.tells self.now.disk ≡ true → self.now.ready ≡ true → (image : List ℕ) → D.left_since self.now.disk (D.moment self.now.disk) image
            → IsFileOf (store_history (D.tells self.now.disk) (D.content self.now.disk) self.now.writes) image }
    {
        self.ready
    }

    // Adds a write, whose version and room were tested.
    fn add(&mut self, alloc: Global, bytes: &[u8], write: Write) -> PutAnswer
        requires ready { self.old.ready ≡ true }
        requires piece { bytes.now ≡ piece write 0 }
        requires spelled { record_form.fits write ≡ true }
        requires place { has_place self.old.gate (length (piece write 0)) ≡ true }
        requires agrees { Agrees (history_after self.old.writes) write }
        requires below { length self.old.writes < self.old.limit }
        ensures puts { PutsOn D.tells D.content D.faults self.old write self.new result }
        ensures whole { IsWhole (D.tells self.new.disk) (D.content self.new.disk) }
        ensures crash { D.tells self.old.disk ≡ true → LeavesOnly D.moment D.left_since self.old.disk self.new.disk (PutLeaves (history_after self.old.writes) write result) }
    {
        match keep(
            alloc,
            &mut self.disk,
            &mut self.store,
            self.gate,
            bytes,
            write,
        ) {
            Ok(version) => {
                self.gate += bytes.len() as u64;
                PutAnswer::Done { version }
            }
            Err(Outage::Failed) => {
                self.ready = false;
                PutAnswer::Failed
            }
            Err(Outage::Memory) => PutAnswer::Memory,
        }
    }
}

impl<D: Disk> Cluster for LogCluster<D> {
    ghost use Rattle.cluster_file.specs.Files.{damage_in};
    ghost use Rattle.log_store.specs.Store.{fits, store_history};

    ghost tells = { λ s. D.tells s.disk };

    ghost history = { λ s. store_history (D.tells s.disk) (D.content s.disk) s.writes };

    ghost limit = { λ s. s.limit };

    ghost fits = { fits };

    ghost faults = { λ s. D.faults s.disk };

    ghost ready = { λ s. s.ready };

    ghost damage = { λ s. damage_in (D.content s.disk) };

    /// Shows all writes that are kept in memory. It never fails but for memory, and leaves the store as it is.
    fn snapshot(&mut self, alloc: Global, namespace: &Name) -> Result<View, ClusterFault>
        requires { self.old.ready ≡ true }
        ensures view { Snapshots (store_history (D.tells self.old.disk) (D.content self.old.disk) self.old.writes) namespace.now result }
        ensures same { self.new ≡ self.old }
        ensures sure { fault_failed result ≡ false }
    {
        match view_of(&mut self.store, alloc, namespace) {
            Ok(view) => Ok(view),
            Err(Memory) => Err(ClusterFault::Memory),
        }
    }

    /// At a conflict and where it is full the store and its disk stay as they are, and no call fails.
    fn put(&mut self, alloc: Global, write: Write) -> PutAnswer
        requires { self.old.ready ≡ true }
        ensures puts { let h = store_history (D.tells self.old.disk) (D.content self.old.disk) self.old.writes in Puts (has_room (fits h write) self.old.limit h) h write (store_history (D.tells self.new.disk) (D.content self.new.disk) self.new.writes) result }
        ensures tells { D.tells self.new.disk ≡ D.tells self.old.disk }
        ensures limit { self.new.limit ≡ self.old.limit }
        ensures cause { HasCause (D.faults self.old.disk) (D.faults self.new.disk) (put_failed result ≡ true) }
        ensures ready { self.new.ready ≡ not (put_failed result) }
        ensures untouched { is_refused result ≡ true → self.new ≡ self.old }
        ensures tried { let h = store_history (D.tells self.old.disk) (D.content self.old.disk) self.old.writes in put_failed result ≡ true → Agrees h write × (has_room (fits h write) self.old.limit h ≡ true) }
        ensures sound { IsSound (D.tells self.new.disk) (damage_in (D.content self.new.disk)) }
        ensures crash { D.tells self.old.disk ≡ true → LeavesOnly D.moment D.left_since self.old.disk self.new.disk (PutLeaves (store_history (D.tells self.old.disk) (D.content self.old.disk) self.old.writes) write result) }
    {
        match prepared(alloc, &self.store, self.limit, self.gate, &write) {
            Ok(piece) => self.add(alloc, piece.as_slice(), write),
            Err(answer) => {
                discard(write);
                answer
            }
        }
    }

    /// Reads the file again. A crash meanwhile leaves what it might have left before, or a file of the same history.
    #[tactic(auto, using(crate::proofs::Whole::whole_log, crate::proofs::Whole::whole_same))]
    fn reopen(&mut self, alloc: Global) -> Result<(), ClusterFault>
        ensures damage { D.tells self.old.disk ≡ true → Reopens (damage_in (D.content self.old.disk)) result }
        ensures history { D.tells self.old.disk ≡ true → store_history (D.tells self.new.disk) (D.content self.new.disk) self.new.writes ≡ store_history (D.tells self.old.disk) (D.content self.old.disk) self.old.writes }
        ensures still { IsHistory (store_history (D.tells self.old.disk) (D.content self.old.disk) self.old.writes) → IsHistory (store_history (D.tells self.new.disk) (D.content self.new.disk) self.new.writes) }
        ensures tells { D.tells self.new.disk ≡ D.tells self.old.disk }
        ensures limit { self.new.limit ≡ self.old.limit }
        ensures cause { HasCause (D.faults self.old.disk) (D.faults self.new.disk) (fault_failed result ≡ true) }
        ensures sound { IsSound (D.tells self.old.disk) (damage_in (D.content self.old.disk)) → IsSound (D.tells self.new.disk) (damage_in (D.content self.new.disk)) }
        ensures ready { self.new.ready ≡ is_ok result }
        ensures kept { D.tells self.old.disk ≡ true → 9 < length (D.content self.old.disk) → D.content self.new.disk ≡ D.content self.old.disk }
        ensures crash { D.tells self.old.disk ≡ true → LeavesOnly D.moment D.left_since self.old.disk self.new.disk (OpeningLeaves (D.content self.old.disk) (D.pending self.old.disk)) }
    {
        match open_file(alloc, &mut self.disk, self.limit) {
            Ok(Opened { store, gate }) => {
                self.store = store;
                self.gate = gate;
                self.ready = true;
                Ok(())
            }
            Err(fault) => {
                self.ready = false;
                Err(fault)
            }
        }
    }
}
