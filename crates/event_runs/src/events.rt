// One event of a run.
ghost use Rattle.std.specs.Prelude.{◌≡◌, ℕ, Bool, true, false, OnOk};
ghost use Rattle.olm_io.specs.Outside.{HasCause};
ghost use Rattle.cluster_objects.specs.declared.objects.Write.{Write};
ghost use Rattle.cluster_history.specs.History.{History};
ghost use Rattle.object_store.specs.Puts.{IsSound};
ghost use Rattle.event_script.specs.Ranges.{IsInRange};
ghost use Rattle.event_script.specs.Running.{RunsNow};
ghost use Rattle.user_events.specs.Answers as answers;
ghost use Rattle.folder_events.specs.Events.{Asks, HasKey, is_of_folder, is_users};
ghost use Rattle.event_runs.specs.Lines as lines;
ghost use Rattle.event_runs.specs.Runs as spec;

use crate::halts::Halt;
use crate::lines::{done_line, refused_line};
use cluster_objects::Key;
use event_script::Event;
use folder_events::{is_users, user_event};
use object_store::{Cluster, ClusterFault};
use olm_base::{Memory, Text};
use olm_folder::Folder;
use olm_io::{Outage, Sink};
use std::alloc::Global;
use user_events::UserAnswer;

fn print<O: Sink>(line: &[u8], out: &mut O) -> Result<(), Halt>
    ensures prints { spec.Prints line.now (O.held out.old) (O.held out.new) result }
    ensures cause { HasCause (O.faults out.old) (O.faults out.new) (spec.output_failed result ≡ true) }
{
    match out.put(line) {
        Ok(()) => Ok(()),
        Err(Outage::Failed) => Err(Halt::OutputFailed),
        Err(Outage::Memory) => Err(Halt::Memory),
    }
}

fn print_done<O: Sink>(
    alloc: Global,
    event: &Event,
    key: &Key,
    version: u64,
    out: &mut O,
) -> Result<(), Halt>
    ensures prints { spec.Prints (lines.done_line event.now key.now version) (O.held out.old) (O.held out.new) result }
    ensures cause { HasCause (O.faults out.old) (O.faults out.new) (spec.output_failed result ≡ true) }
{
    match done_line(alloc, event, key, version) {
        Ok(line) => print(line.as_slice(), out),
        Err(Memory) => Err(Halt::Memory),
    }
}

fn print_refused<O: Sink>(
    alloc: Global,
    event: &Event,
    reason: &Text,
    out: &mut O,
) -> Result<(), Halt>
    ensures prints { spec.Prints (lines.refused_line event.now reason.now) (O.held out.old) (O.held out.new) result }
    ensures cause { HasCause (O.faults out.old) (O.faults out.new) (spec.output_failed result ≡ true) }
{
    match refused_line(alloc, event, reason) {
        Ok(line) => print(line.as_slice(), out),
        Err(Memory) => Err(Halt::Memory),
    }
}

// Puts the line of an event that came to this, or ends the run for it.
fn conclude<O: Sink>(
    alloc: Global,
    event: &Event,
    answer: UserAnswer,
    out: &mut O,
) -> Result<(), Halt>
    requires key { answers.store_failed answer ≡ true → HasKey event.now }
    requires folder { answers.folder_failed answer ≡ true → is_of_folder event.now ≡ true }
    ensures steps { (tells : Bool) (fits : History → Write → Bool) (limit : ℕ) (files : spec.Files) (h new : History) → answers.Answers fits limit h (Asks files h event.now) new answer
        → spec.Steps tells fits limit files h event.now new (O.held out.old) (O.held out.new) result }
    ensures store { spec.store_failed result ≡ answers.store_failed answer }
    ensures folder { spec.folder_failed result ≡ answers.folder_failed answer }
    ensures cause { HasCause (O.faults out.old) (O.faults out.new) (spec.output_failed result ≡ true) }
{
    match answer {
        UserAnswer::Done { key, version } => print_done(alloc, event, &key, version, out),
        UserAnswer::Refused { reason } => print_refused(alloc, event, &reason, out),
        UserAnswer::Full => Err(Halt::Full),
        UserAnswer::StoreFailed => Err(Halt::StoreFailed),
        UserAnswer::FolderFailed => Err(Halt::FolderFailed),
        UserAnswer::Memory => Err(Halt::Memory),
    }
}

fn run_users<C: Cluster, F: Folder, O: Sink>(
    alloc: Global,
    event: &Event,
    cluster: &mut C,
    folder: &mut F,
    out: &mut O,
) -> Result<(), Halt>
    requires ready { C.ready cluster.old ≡ true }
    requires sound { IsSound (C.tells cluster.old) (C.damage cluster.old) }
    requires users { is_users event.now ≡ true }
    requires range { IsInRange event.now }
    ensures steps { spec.Steps (C.tells cluster.old) C.fits (C.limit cluster.old) (F.held folder.old) (C.history cluster.old) event.now (C.history cluster.new) (O.held out.old) (O.held out.new) result }
    ensures tells { C.tells cluster.new ≡ C.tells cluster.old }
    ensures limit { C.limit cluster.new ≡ C.limit cluster.old }
    ensures sound { IsSound (C.tells cluster.new) (C.damage cluster.new) }
    ensures ready { OnOk result (C.ready cluster.new ≡ true) }
    ensures same { F.held folder.new ≡ F.held folder.old }
    ensures untouched { is_of_folder event.now ≡ false → folder.new ≡ folder.old }
    ensures store { HasCause (C.faults cluster.old) (C.faults cluster.new) (spec.store_failed result ≡ true) }
    ensures folder { HasCause (F.faults folder.old) (F.faults folder.new) (spec.folder_failed result ≡ true) }
    ensures output { HasCause (O.faults out.old) (O.faults out.new) (spec.output_failed result ≡ true) }
{
    let answer = user_event(alloc, event, cluster, folder);
    conclude(alloc, event, answer, out)
}

fn print_restart<O: Sink>(out: &mut O) -> Result<(), Halt>
    ensures prints { spec.Prints lines.restart_line (O.held out.old) (O.held out.new) result }
    ensures cause { HasCause (O.faults out.old) (O.faults out.new) (spec.output_failed result ≡ true) }
{
    print(b"restart\n", out)
}

// Opens the store again.
fn restart<C: Cluster, O: Sink>(
    alloc: Global,
    event: &Event,
    cluster: &mut C,
    out: &mut O,
) -> Result<(), Halt>
    requires users { is_users event.now ≡ false }
    requires run { RunsNow event.now }
    requires sound { IsSound (C.tells cluster.old) (C.damage cluster.old) }
    requires ready { C.ready cluster.old ≡ true }
    ensures steps { (fits : History → Write → Bool) (limit : ℕ) (files : spec.Files)
        → spec.Steps (C.tells cluster.old) fits limit files (C.history cluster.old) event.now (C.history cluster.new) (O.held out.old) (O.held out.new) result }
    ensures tells { C.tells cluster.new ≡ C.tells cluster.old }
    ensures limit { C.limit cluster.new ≡ C.limit cluster.old }
    ensures sound { IsSound (C.tells cluster.new) (C.damage cluster.new) }
    ensures ready { OnOk result (C.ready cluster.new ≡ true) }
    ensures store { HasCause (C.faults cluster.old) (C.faults cluster.new) (spec.store_failed result ≡ true) }
    ensures folder { spec.folder_failed result ≡ false }
    ensures output { HasCause (O.faults out.old) (O.faults out.new) (spec.output_failed result ≡ true) }
{
    match cluster.reopen(alloc) {
        Ok(()) => print_restart(out),
        Err(ClusterFault::Failed) => Err(Halt::StoreFailed),
        Err(ClusterFault::Damaged { at }) => Err(Halt::Damaged { at }),
        Err(ClusterFault::Memory) => Err(Halt::Memory),
    }
}

/// Applies an event, and puts its line.
pub(crate) fn run_event<C: Cluster, F: Folder, O: Sink>(
    alloc: Global,
    event: &Event,
    cluster: &mut C,
    folder: &mut F,
    out: &mut O,
) -> Result<(), Halt>
    requires ready { C.ready cluster.old ≡ true }
    requires sound { IsSound (C.tells cluster.old) (C.damage cluster.old) }
    requires range { IsInRange event.now }
    requires run { RunsNow event.now }
    ensures steps { spec.Steps (C.tells cluster.old) C.fits (C.limit cluster.old) (F.held folder.old) (C.history cluster.old) event.now (C.history cluster.new) (O.held out.old) (O.held out.new) result }
    ensures tells { C.tells cluster.new ≡ C.tells cluster.old }
    ensures limit { C.limit cluster.new ≡ C.limit cluster.old }
    ensures sound { IsSound (C.tells cluster.new) (C.damage cluster.new) }
    ensures ready { OnOk result (C.ready cluster.new ≡ true) }
    ensures same { F.held folder.new ≡ F.held folder.old }
    ensures untouched { is_of_folder event.now ≡ false → folder.new ≡ folder.old }
    ensures store { HasCause (C.faults cluster.old) (C.faults cluster.new) (spec.store_failed result ≡ true) }
    ensures folder { HasCause (F.faults folder.old) (F.faults folder.new) (spec.folder_failed result ≡ true) }
    ensures output { HasCause (O.faults out.old) (O.faults out.new) (spec.output_failed result ≡ true) }
{
    if is_users(event) {
        run_users(alloc, event, cluster, folder, out)
    } else {
        restart(alloc, event, cluster, out)
    }
}
