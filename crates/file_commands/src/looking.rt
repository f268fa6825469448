// One look at the history in the file of a disk.
ghost use Rattle.std.specs.Prelude.{◌≡◌, ℕ, true, false, Result, Ok, Err};
ghost use Rattle.cluster_file.specs.Files.{stands};
ghost use Rattle.cluster_history.specs.History.{History};
ghost use Rattle.olm_io.specs.Outside.{HasCause};
ghost use Rattle.log_store.specs.Store.{store_history};
ghost use Rattle.file_commands.specs.Answers.{Answers, NoProblem, Sees, fault_of, file_failed};
ghost use Rattle.log_store.specs.Starts.{cause_of, disk_of};
ghost use Rattle.file_commands.specs.Opens.{Opens};

use crate::FileFault;
use cluster_commands::name_of;
use lent_disk::{Borrow, Handle, Lent};
use log_store::{LogCluster, StartFault};
use object_store::{Cluster, View, WRITE_LIMIT};
use olm_base::Memory;
use olm_disk::Disk;
use std::alloc::Global;
use std::marker::Brand;

// Lets a start end without a store. The disk is given back.
fn not_seen<D>(fault: StartFault<D>) -> (Result<(), FileFault>, D)
    ensures end { result.0 ≡ Err (fault_of (cause_of fault)) }
    ensures disk { result.1 ≡ disk_of fault }
{
    match fault {
        StartFault::Damaged { at, disk } => (Err(FileFault::Damaged { at }), disk),
        StartFault::Failed { disk } => (Err(FileFault::Failed), disk),
        StartFault::Memory { disk } => (Err(FileFault::Memory), disk),
    }
}

// Puts what a namespace sees of a store that was opened into `seen`. The store stays as it is.
fn look_at<D: Disk>(
    alloc: Global,
    namespace: &[u8],
    store: &mut LogCluster<D>,
    seen: &mut Option<View>,
) -> Result<(), FileFault>
    requires ready { store.old.ready ≡ true }
    ensures seen { Answers (Sees namespace.now seen.new) NoProblem (Ok (store_history (D.tells store.old.disk) (D.content store.old.disk) store.old.writes)) result }
    ensures same { store.new ≡ store.old }
    ensures sure { file_failed result ≡ false }
{
    match name_of(alloc, namespace) {
        Ok(Some(namespace)) => match store.snapshot(alloc, &namespace) {
            Ok(view) => {
                *seen = Some(view);
                Ok(())
            }
            Err(_) => Err(FileFault::Memory),
        },
        Ok(None) => {
            *seen = None;
            Ok(())
        }
        Err(Memory) => Err(FileFault::Memory),
    }
}

// The same of the file of a disk of its own, which is given back.
fn look_on<D: Disk>(
    alloc: Global,
    namespace: &[u8],
    disk: D,
    seen: &mut Option<View>,
) -> (Result<(), FileFault>, D)
    ensures seen { (found : Result History ℕ) × Opens (D.tells disk) (D.content disk) found × Answers (Sees namespace.now seen.new) NoProblem found result.0 }
    ensures same { D.tells disk ≡ true → stands (D.content result.1) ≡ stands (D.content disk) }
    ensures tells { D.tells result.1 ≡ D.tells disk }
    ensures cause { HasCause (D.faults disk) (D.faults result.1) (file_failed result.0 ≡ true) }
{
    match LogCluster::start(alloc, disk, WRITE_LIMIT) {
        Ok(mut store) => {
            let end = look_at(alloc, namespace, &mut store, seen);
            (end, store.close())
        }
        Err(fault) => not_seen(fault),
    }
}

// The same over a borrowed disk.
fn look_lent<'a, D: Disk, B: Borrow>(
    alloc: Global,
    namespace: &[u8],
    handle: Handle<'a, D>,
    seen: &mut Option<View>,
) -> (Result<(), FileFault>, Handle<'a, D>)
    requires borrow { handle.disk.ghost_name ≡ B.name }
    ensures seen { (found : Result History ℕ) × Opens (D.tells handle.entry.disk.now) (D.content handle.entry.disk.now) found
        × Answers (Sees namespace.now seen.new) NoProblem found result.0 }
    ensures same { D.tells handle.entry.disk.now ≡ true → stands (D.content result.1.disk.now) ≡ stands (D.content handle.entry.disk.now) }
    ensures tells { D.tells result.1.disk.now ≡ D.tells handle.entry.disk.now }
    ensures cause { HasCause (D.faults handle.entry.disk.now) (D.faults result.1.disk.now) (file_failed result.0 ≡ true) }
    ensures same_reference { result.1.disk.ghost_name ≡ handle.entry.disk.ghost_name }
{
    let (end, lent) = look_on(alloc, namespace, Lent::<'a, D, B>::new(handle), seen);
    (end, lent.into_handle())
}

/// Puts what a namespace sees of the whole history in the file of this disk into `seen`. The file is opened first,
/// whatever the namespace is; a text that is no name sees nothing.
pub(crate) fn look_file<D: Disk>(
    alloc: Global,
    namespace: &[u8],
    disk: &mut D,
    seen: &mut Option<View>,
) -> Result<(), FileFault>
    ensures seen { (found : Result History ℕ) × Opens (D.tells disk.old) (D.content disk.old) found × Answers (Sees namespace.now seen.new) NoProblem found result }
    ensures same { D.tells disk.old ≡ true → stands (D.content disk.new) ≡ stands (D.content disk.old) }
    ensures tells { D.tells disk.new ≡ D.tells disk.old }
    ensures cause { HasCause (D.faults disk.old) (D.faults disk.new) (file_failed result ≡ true) }
{
    let (end, _) = look_lent::<D, Brand>(alloc, namespace, Handle::new(disk), seen);
    end
}
