// The command `run`.
ghost use Rattle.std.specs.List.{list_any};
ghost use Rattle.std.specs.Prelude.{List, ℕ, ◌≡◌, ◌≢◌, ◌≤◌, length, true, false, All, Some, Err, IfOk, IfErr, OnOk, IsErrOf};
ghost use Rattle.std.specs.declared.result.Result.{Result};
ghost use Rattle.std.specs.Io.KnownBytes.{IsAtEnd};
ghost use Rattle.cluster_history.specs.History.{History};
ghost use Rattle.event_script.specs.Ranges.{IsInRange};
ghost use Rattle.event_script.specs.Running.{RunsNow};
ghost use Rattle.event_script.specs.Script.{events_of};
ghost use Rattle.event_script.specs.declared.events.Event.{Event};
ghost use Rattle.fbc_read.specs.Bodies.{input_limit};
ghost use Rattle.file_commands.specs.FileRuns.{FileRuns, disk_failed, folder_failed, output_failed};
ghost use Rattle.file_commands.specs.Opens.{Opens};
ghost use Rattle.file_commands.specs.declared.faults.RunFault.{RunFault};
ghost use Rattle.folder_events.specs.Events.{is_of_folder};
ghost use Rattle.olm_base.specs.Outcome.{Gives};
ghost use Rattle.olm_io.specs.Outside.{HasCause};
ghost use Rattle.olm_cli.specs.declared.causes.Cause.{Cause};
ghost use Rattle.olm_cli.specs.Causes.{is_answered, is_free, status_of};
ghost use Rattle.olm_cli.specs.Running as spec;
ghost use Rattle.olm_cli.specs.Worlds.{world};

use crate::causes::Cause;
use crate::places::read_input;
use event_runs::Halt;
use event_script::{Event, EventFault, read_events};
use file_commands::{RunFault, run_file};
use olm_base::Many;
use olm_disk::Disk;
use olm_folder::Folder;
use olm_io::{Sink, Source};
use std::alloc::Global;

fn event_cause(fault: EventFault) -> Cause
    ensures cause { result ≡ spec.event_cause fault }
    ensures kind { spec.is_of_script result ≡ true }
    ensures input { result ≢ Cause.InputFailed }
{
    match fault {
        EventFault::Stream(found) => Cause::Stream(found),
        EventFault::Field { blob, path, kind } => Cause::Field { blob, path, kind },
        EventFault::NoEvent { blob } => Cause::NoEvent { blob },
        EventFault::UnknownEvent { blob } => Cause::UnknownEvent { blob },
        EventFault::Memory => Cause::NoMemory,
    }
}

/// All events of a text.
fn text_events(alloc: Global, text: &[u8]) -> Result<Many<Event>, Cause>
    requires within { length text.now ≤ input_limit }
    ensures answer { Gives is_free (spec.or_event_cause (events_of text.now)) result }
    ensures ranges { IfOk result (λ events. All IsInRange events) }
    ensures run { IfOk result (λ events. All RunsNow events) }
    ensures kind { IfErr result (λ cause. spec.is_of_script cause ≡ true) }
    ensures input { IfErr result (λ cause. cause ≢ Cause.InputFailed) }
{
    match read_events(alloc, text) {
        Ok(events) => Ok(events),
        Err(fault) => Err(event_cause(fault)),
    }
}

/// All events of the input, which is read whole before.
fn read_script<S: Source>(alloc: Global, input: &mut S) -> Result<Many<Event>, Cause>
    ensures answer { (script : Result (List Event) Cause) × spec.HoldsScript (S.left input.old) script × Gives is_free script result }
    ensures ranges { IfOk result (λ events. All IsInRange events) }
    ensures run { IfOk result (λ events. All RunsNow events) }
    ensures kind { IfErr result (λ cause. spec.is_of_script cause ≡ true) }
    ensures cause { HasCause (S.faults input.old) (S.faults input.new) (IsErrOf result Cause.InputFailed) }
    ensures end { OnOk result (IsAtEnd (S.left input.new)) }
{
    match read_input(alloc, input) {
        Ok(text) => text_events(alloc, text.as_slice()),
        Err(cause) => Err(cause),
    }
}

fn halt_cause(halt: Halt) -> Cause
    ensures cause { result ≡ spec.halt_cause halt }
    ensures words { result ≢ Cause.BadWords }
    ensures input { result ≢ Cause.InputFailed }
    ensures disk { result ≡ Cause.DiskFailed → disk_failed (Err (RunFault.Halted halt)) ≡ true }
    ensures folder { result ≡ Cause.FolderFailed → folder_failed (Err (RunFault.Halted halt)) ≡ true }
    ensures output { result ≡ Cause.OutputFailed → output_failed (Err (RunFault.Halted halt)) ≡ true }
{
    match halt {
        Halt::OutputFailed => Cause::OutputFailed,
        Halt::FolderFailed => Cause::FolderFailed,
        Halt::StoreFailed => Cause::DiskFailed,
        Halt::Damaged { at } => Cause::Damaged { at },
        Halt::Full => Cause::StoreFull,
        Halt::Memory => Cause::NoMemory,
    }
}

/// How a run ends whose events came to this.
fn run_end(ended: Result<(), RunFault>) -> Option<Cause>
    ensures end { result ≡ spec.run_end ended }
    ensures words { result ≢ Some Cause.BadWords }
    ensures input { result ≢ Some Cause.InputFailed }
    ensures disk { result ≡ Some Cause.DiskFailed → disk_failed ended ≡ true }
    ensures folder { result ≡ Some Cause.FolderFailed → folder_failed ended ≡ true }
    ensures output { result ≡ Some Cause.OutputFailed → output_failed ended ≡ true }
{
    match ended {
        Ok(()) => None,
        Err(RunFault::Damaged { at }) => Some(Cause::Damaged { at }),
        Err(RunFault::Failed) => Some(Cause::DiskFailed),
        Err(RunFault::Memory) => Some(Cause::NoMemory),
        Err(RunFault::Halted(halt)) => Some(halt_cause(halt)),
    }
}

/// Opens the cluster file, and applies the events.
fn apply_script<F: Folder, D: Disk, O: Sink>(
    alloc: Global,
    events: &[Event],
    folder: &mut F,
    disk: &mut D,
    out: &mut O,
) -> Option<Cause>
    requires ranges { All IsInRange events.now }
    requires run { All RunsNow events.now }
    ensures run { (found left : Result History ℕ) × (ended : Result Unit RunFault) × Opens (D.tells disk.old) (D.content disk.old) found × Opens (D.tells disk.new) (D.content disk.new) left
        × FileRuns (D.tells disk.old) (F.held folder.old) found events.now left (O.held out.old) (O.held out.new) ended × (result ≡ spec.run_end ended) }
    ensures same { F.held folder.new ≡ F.held folder.old }
    ensures untouched_folder { list_any is_of_folder events.now ≡ false → folder.new ≡ folder.old }
    ensures tells { D.tells disk.new ≡ D.tells disk.old }
    ensures words { result ≢ Some Cause.BadWords }
    ensures input { result ≢ Some Cause.InputFailed }
    ensures folder { HasCause (F.faults folder.old) (F.faults folder.new) (result ≡ Some Cause.FolderFailed) }
    ensures disk { HasCause (D.faults disk.old) (D.faults disk.new) (result ≡ Some Cause.DiskFailed) }
    ensures output { HasCause (O.faults out.old) (O.faults out.new) (result ≡ Some Cause.OutputFailed) }
{
    let ended = run_file(alloc, events, disk, folder, out);
    run_end(ended)
}

/// Reads all events of the input, opens the cluster file, and applies the events to it. Where none of them is a
/// `catalog` event the folder stays as it was.
pub fn run_script<F: Folder, S: Source, D: Disk, O: Sink>(
    alloc: Global,
    folder: &mut F,
    input: &mut S,
    disk: &mut D,
    out: &mut O,
) -> Option<Cause>
    ensures run { spec.RunRuns
        (world (F.held folder.old) (S.left input.old) (D.tells disk.old) (D.content disk.old) (O.held out.old))
        (world (F.held folder.new) (S.left input.new) (D.tells disk.new) (D.content disk.new) (O.held out.new)) result }
    ensures same { F.held folder.new ≡ F.held folder.old }
    ensures untouched_folder { spec.AsksNoCatalog (S.left input.old) → folder.new ≡ folder.old }
    ensures tells { D.tells disk.new ≡ D.tells disk.old }
    ensures words { result ≢ Some Cause.BadWords }
    ensures folder { HasCause (F.faults folder.old) (F.faults folder.new) (result ≡ Some Cause.FolderFailed) }
    ensures input { HasCause (S.faults input.old) (S.faults input.new) (result ≡ Some Cause.InputFailed) }
    ensures disk { HasCause (D.faults disk.old) (D.faults disk.new) (result ≡ Some Cause.DiskFailed) }
    ensures output { HasCause (O.faults out.old) (O.faults out.new) (result ≡ Some Cause.OutputFailed) }
    ensures end { is_answered (status_of result) ≡ true → IsAtEnd (S.left input.new) }
{
    match read_script(alloc, input) {
        Ok(events) => apply_script(alloc, events.as_slice(), folder, disk, out),
        Err(cause) => Some(cause),
    }
}
