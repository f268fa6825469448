// A run of events over the file of a disk.
ghost use Rattle.std.specs.Prelude.{◌≡◌, ℕ, true, false, Result, Err, All};
ghost use Rattle.std.specs.List.{list_any};
ghost use Rattle.cluster_history.specs.History.{History};
ghost use Rattle.event_script.specs.Ranges.{IsInRange};
ghost use Rattle.event_script.specs.Running.{RunsNow};
ghost use Rattle.folder_events.specs.Events.{is_of_folder};
ghost use Rattle.olm_io.specs.Outside.{HasCause};
ghost use Rattle.file_commands.specs.FileRuns.{FileRuns, disk_failed, fault_of, folder_failed, output_failed, was_opened};
ghost use Rattle.log_store.specs.Starts.{cause_of, disk_of};
ghost use Rattle.file_commands.specs.Opens.{Opens};

use crate::RunFault;
use event_runs::run_events;
use event_script::Event;
use lent_disk::{Borrow, Handle, Lent};
use log_store::{LogCluster, StartFault};
use object_store::WRITE_LIMIT;
use olm_disk::Disk;
use olm_folder::Folder;
use olm_io::Sink;
use std::alloc::Global;
use std::marker::Brand;

// Lets a start end without a store. The disk is given back.
fn not_run<D>(fault: StartFault<D>) -> (Result<(), RunFault>, D)
    ensures end { result.0 ≡ Err (fault_of (cause_of fault)) }
    ensures disk { result.1 ≡ disk_of fault }
{
    match fault {
        StartFault::Damaged { at, disk } => (Err(RunFault::Damaged { at }), disk),
        StartFault::Failed { disk } => (Err(RunFault::Failed), disk),
        StartFault::Memory { disk } => (Err(RunFault::Memory), disk),
    }
}

// Runs the events over the file of a disk of its own, and gives the disk back.
fn run_on<D: Disk, F: Folder, O: Sink>(
    alloc: Global,
    events: &[Event],
    disk: D,
    folder: &mut F,
    out: &mut O,
) -> (Result<(), RunFault>, D)
    requires ranges { All IsInRange events.now }
    requires run { All RunsNow events.now }
    ensures runs { (found : Result History ℕ) × (left : Result History ℕ) × Opens (D.tells disk) (D.content disk) found × Opens (D.tells result.1) (D.content result.1) left
        × FileRuns (D.tells disk) (F.held folder.old) found events.now left (O.held out.old) (O.held out.new) result.0 }
    ensures unopened { was_opened result.0 ≡ false → (folder.new ≡ folder.old) × (out.new ≡ out.old) }
    ensures tells { D.tells result.1 ≡ D.tells disk }
    ensures same { F.held folder.new ≡ F.held folder.old }
    ensures untouched { list_any is_of_folder events.now ≡ false → folder.new ≡ folder.old }
    ensures disk { HasCause (D.faults disk) (D.faults result.1) (disk_failed result.0 ≡ true) }
    ensures folder { HasCause (F.faults folder.old) (F.faults folder.new) (folder_failed result.0 ≡ true) }
    ensures output { HasCause (O.faults out.old) (O.faults out.new) (output_failed result.0 ≡ true) }
{
    match LogCluster::start(alloc, disk, WRITE_LIMIT) {
        Ok(mut store) => match run_events(alloc, events, &mut store, folder, out) {
            Ok(()) => (Ok(()), store.close()),
            Err(halt) => (Err(RunFault::Halted(halt)), store.close()),
        },
        Err(fault) => not_run(fault),
    }
}

// The same over a borrowed disk.
fn run_lent<'a, D: Disk, B: Borrow, F: Folder, O: Sink>(
    alloc: Global,
    events: &[Event],
    handle: Handle<'a, D>,
    folder: &mut F,
    out: &mut O,
) -> (Result<(), RunFault>, Handle<'a, D>)
    requires ranges { All IsInRange events.now }
    requires run { All RunsNow events.now }
    requires borrow { handle.disk.ghost_name ≡ B.name }
    ensures runs { (found : Result History ℕ) × (left : Result History ℕ) × Opens (D.tells handle.entry.disk.now) (D.content handle.entry.disk.now) found
        × Opens (D.tells result.1.disk.now) (D.content result.1.disk.now) left
        × FileRuns (D.tells handle.entry.disk.now) (F.held folder.old) found events.now left (O.held out.old) (O.held out.new) result.0 }
    ensures unopened { was_opened result.0 ≡ false → (folder.new ≡ folder.old) × (out.new ≡ out.old) }
    ensures tells { D.tells result.1.disk.now ≡ D.tells handle.entry.disk.now }
    ensures same { F.held folder.new ≡ F.held folder.old }
    ensures untouched { list_any is_of_folder events.now ≡ false → folder.new ≡ folder.old }
    ensures disk { HasCause (D.faults handle.entry.disk.now) (D.faults result.1.disk.now) (disk_failed result.0 ≡ true) }
    ensures folder { HasCause (F.faults folder.old) (F.faults folder.new) (folder_failed result.0 ≡ true) }
    ensures output { HasCause (O.faults out.old) (O.faults out.new) (output_failed result.0 ≡ true) }
    ensures same_reference { result.1.disk.ghost_name ≡ handle.entry.disk.ghost_name }
{
    let (end, lent) = run_on(alloc, events, Lent::<'a, D, B>::new(handle), folder, out);
    (end, lent.into_handle())
}

/// Runs the events over the store in the file of this disk. Where the disk tells what it holds, the history before is
/// what the file stood for, and the one afterwards is what it stands for then: also after a failed call the file isn't
/// damaged. Where no store is opened nothing is put, and folder and output stay as they are. Where no event is a
/// `catalog` event the folder stays as it is.
#[tactic(auto, using(crate::proofs::Catalogs::has_catalog))]
pub fn run_file<D: Disk, F: Folder, O: Sink>(
    alloc: Global,
    events: &[Event],
    disk: &mut D,
    folder: &mut F,
    out: &mut O,
) -> Result<(), RunFault>
    requires ranges { All IsInRange events.now }
    requires run { All RunsNow events.now }
    ensures runs { (found : Result History ℕ) × (left : Result History ℕ) × Opens (D.tells disk.old) (D.content disk.old) found × Opens (D.tells disk.new) (D.content disk.new) left
        × FileRuns (D.tells disk.old) (F.held folder.old) found events.now left (O.held out.old) (O.held out.new) result }
    ensures unopened { was_opened result ≡ false → (folder.new ≡ folder.old) × (out.new ≡ out.old) }
    ensures tells { D.tells disk.new ≡ D.tells disk.old }
    ensures same { F.held folder.new ≡ F.held folder.old }
    ensures untouched { list_any is_of_folder events.now ≡ false → folder.new ≡ folder.old }
    ensures disk { HasCause (D.faults disk.old) (D.faults disk.new) (disk_failed result ≡ true) }
    ensures folder { HasCause (F.faults folder.old) (F.faults folder.new) (folder_failed result ≡ true) }
    ensures catalog { folder_failed result ≡ true → list_any is_of_folder events.now ≡ true }
    ensures output { HasCause (O.faults out.old) (O.faults out.new) (output_failed result ≡ true) }
{
    let (end, _) = run_lent::<D, Brand, F, O>(alloc, events, Handle::new(disk), folder, out);
    end
}
