// A file that is opened: begun where it is empty, and read.
ghost use Rattle.std.specs.Prelude.{◌≡◌, ◌≤◌, ◌<◌, true, length, IfOk, OnOk};
ghost use Rattle.payloads.specs.Laws.{AreBytes};
ghost use Rattle.cluster_file.specs.Files.{damage_in, stands};
ghost use Rattle.cluster_file.specs.Writing.{empty_file};
ghost use Rattle.olm_disk.specs.Disk.{LeavesOnly};
ghost use Rattle.olm_io.specs.Outside.{HasCause};
ghost use Rattle.object_store.specs.Puts.{Reopens, fault_failed};
ghost use Rattle.log_file.specs.Crashes.{OpeningLeaves};
ghost use Rattle.log_file.specs.Log.{HasBegun, IsLog};

use crate::disk_calls::{begin, read_content};
use crate::fold::fold_content;
use object_store::{ClusterFault, SureCluster, WRITE_LIMIT};
use olm_disk::Disk;
use olm_io::Outage;
use std::alloc::Global;

/// A file's writes, and the place of its last gate.
#[derive(Drop)]
pub struct Opened {
    pub store: SureCluster,
    pub gate: u64,
}

fn fault_of(outage: Outage) -> ClusterFault
    ensures failed { outage ≡ Outage.Failed → result ≡ ClusterFault.Failed }
    ensures memory { outage ≡ Outage.Memory → result ≡ ClusterFault.Memory }
{
    match outage {
        Outage::Failed => ClusterFault::Failed,
        Outage::Memory => ClusterFault::Memory,
    }
}

// A byte is below 256.
fn are_bytes(bytes: &[u8])
    ensures { AreBytes bytes.now }
{}

// Reads a file of this length into a store.
fn load<D: Disk>(alloc: Global, disk: &mut D, len: u64, limit: u64) -> Result<Opened, ClusterFault>
    requires limit { limit ≤ WRITE_LIMIT }
    requires begun { D.tells disk.old ≡ true → HasBegun (D.content disk.old) (D.pending disk.old) }
    requires len { D.tells disk.old ≡ true → len ≡ length (D.content disk.old) }
    ensures damage { D.tells disk.old ≡ true → Reopens (damage_in (D.content disk.old)) result }
    ensures opened { IfOk result (λ opened. IsLog (D.tells disk.new) (D.content disk.new) (D.pending disk.new) opened.store.1 opened.gate true) }
    ensures limit { IfOk result (λ opened. opened.store.0 ≡ limit) }
    ensures same { D.content disk.new ≡ D.content disk.old }
    ensures crash { D.tells disk.old ≡ true → LeavesOnly D.moment D.left_since disk.old disk.new (λ image. image ≡ D.content disk.old) }
    ensures tells { D.tells disk.new ≡ D.tells disk.old }
    ensures cause { HasCause (D.faults disk.old) (D.faults disk.new) (fault_failed result ≡ true) }
{
    let bytes = match read_content(alloc, disk, len) {
        Ok(bytes) => bytes,
        Err(outage) => return Err(fault_of(outage)),
    };
    let content = bytes.as_slice();
    are_bytes(content);
    let mut store = SureCluster::new(alloc, limit);
    match fold_content(alloc, &mut store, content) {
        Ok(gate) => Ok(Opened { store, gate }),
        Err(fault) => Err(fault),
    }
}

/// Opens the file of a disk, for a store that takes at most so many writes. It begins with a sync. A file of at most
/// nine bytes is made that of the empty history; nothing else is written. Damaged comes exactly where the file stands
/// for no history, with the place.
pub fn open_file<D: Disk>(alloc: Global, disk: &mut D, limit: u64) -> Result<Opened, ClusterFault>
    requires { limit ≤ WRITE_LIMIT }
    ensures damage { D.tells disk.old ≡ true → Reopens (damage_in (D.content disk.old)) result }
    ensures opened { IfOk result (λ opened. IsLog (D.tells disk.new) (D.content disk.new) (D.pending disk.new) opened.store.1 opened.gate true) }
    ensures limit { IfOk result (λ opened. opened.store.0 ≡ limit) }
    ensures same { D.tells disk.old ≡ true → stands (D.content disk.new) ≡ stands (D.content disk.old) }
    ensures kept { D.tells disk.old ≡ true → 9 < length (D.content disk.old) → D.content disk.new ≡ D.content disk.old }
    ensures made { D.tells disk.old ≡ true → length (D.content disk.old) ≤ 9 → OnOk result (D.content disk.new ≡ empty_file) }
    ensures crash { D.tells disk.old ≡ true → LeavesOnly D.moment D.left_since disk.old disk.new (OpeningLeaves (D.content disk.old) (D.pending disk.old)) }
    ensures tells { D.tells disk.new ≡ D.tells disk.old }
    ensures cause { HasCause (D.faults disk.old) (D.faults disk.new) (fault_failed result ≡ true) }
{
    match begin(disk) {
        Ok(len) => load(alloc, disk, len, limit),
        Err(outage) => Err(fault_of(outage)),
    }
}
