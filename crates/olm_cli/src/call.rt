// The top call.
ghost use Rattle.std.specs.Prelude.{◌≡◌, ◌≢◌, ◌↔◌, ◌≤◌, length, true, false, Some, None};
ghost use Rattle.std.specs.declared.option.Option.{Option};
ghost use Rattle.std.specs.Io.KnownBytes.{IsAtEnd};
ghost use Rattle.olm_io.specs.Outside.{HasCause, Rose};
ghost use Rattle.fbc_read.specs.Bodies.{input_limit};
ghost use Rattle.olm_cli.specs.declared.causes.Cause.{Cause};
ghost use Rattle.olm_cli.specs.Causes.{HasRisen, is_after_reading, is_answered, is_silent, status_of};
ghost use Rattle.olm_cli.specs.Commands as spec;
ghost use Rattle.olm_cli.specs.Lines.{Tells};
ghost use Rattle.olm_cli.specs.Places.{is_folder, is_input};
ghost use Rattle.olm_cli.specs.Running.{AsksNoCatalog};
ghost use Rattle.olm_cli.specs.Runs.{Comes};
ghost use Rattle.olm_cli.specs.Words.{command_of, place_view, task_view};
ghost use Rattle.olm_cli.specs.Worlds.{world};

use crate::causes::{Cause, Exit, exit_of};
use crate::checking::check_text;
use crate::cluster::{decide, show};
use crate::graph::graph_text;
use crate::helping::print_help;
use crate::places::read_place;
use crate::resolving::resolve_text;
use crate::running::run_script;
use crate::telling::tell_run;
use crate::verifying::verify;
use crate::words::{Command, Place, Task, command_of};
use olm_base::{Bytes, Text};
use olm_disk::Disk;
use olm_folder::Folder;
use olm_io::{Sink, Source};
use std::alloc::Global;

/// Does a task over a text.
fn run_task<O: Sink>(alloc: Global, task: Task<'_>, text: Bytes, out: &mut O) -> Option<Cause>
    requires within { length text ≤ input_limit }
    ensures run { Comes (spec.TaskRuns (task_view task.entry) text) result (O.held out.old) (O.held out.new) }
    ensures cause { HasCause (O.faults out.old) (O.faults out.new) (result ≡ Some Cause.OutputFailed) }
    ensures kind { is_after_reading result ≡ true }
{
    match task {
        Task::Check => check_text(alloc, text.as_slice(), out),
        Task::Graph(names) => graph_text(alloc, text.as_slice(), names, out),
        Task::Resolve { budget, names } => resolve_text(alloc, text, budget, names, out),
    }
}

/// Reads the text of a place, and does a task over it.
fn run_catalog<F: Folder, S: Source, O: Sink>(
    alloc: Global,
    place: Place<'_>,
    task: Task<'_>,
    folder: &mut F,
    input: &mut S,
    out: &mut O,
) -> Option<Cause>
    ensures run { Comes (spec.CatalogRuns (place_view place.entry) (task_view task.entry) (F.held folder.old) (S.left input.old)) result (O.held out.old) (O.held out.new) }
    ensures words { result ≢ Some Cause.BadWords }
    ensures disk { result ≢ Some Cause.DiskFailed }
    ensures same { F.held folder.new ≡ F.held folder.old }
    ensures folder { HasCause (F.faults folder.old) (F.faults folder.new) (result ≡ Some Cause.FolderFailed) }
    ensures input { HasCause (S.faults input.old) (S.faults input.new) (result ≡ Some Cause.InputFailed) }
    ensures output { HasCause (O.faults out.old) (O.faults out.new) (result ≡ Some Cause.OutputFailed) }
    ensures of_folder { result ≡ Some Cause.FolderFailed → is_folder (place_view place.entry) ≡ true }
    ensures of_input { result ≡ Some Cause.InputFailed → is_input (place_view place.entry) ≡ true }
    ensures untouched_folder { is_folder (place_view place.entry) ≡ false → folder.new ≡ folder.old }
    ensures untouched_input { is_input (place_view place.entry) ≡ false → input.new ≡ input.old }
    ensures end { is_answered (status_of result) ≡ true → is_input (place_view place.entry) ≡ true → IsAtEnd (S.left input.new) }
{
    match read_place(alloc, place, folder, input) {
        Ok(text) => run_task(alloc, task, text, out),
        Err(cause) => Some(cause),
    }
}

/// Runs the command that the words stand for, up to the line on `err`.
fn run<F: Folder, S: Source, D: Disk, O: Sink>(
    alloc: Global,
    words: &[Text],
    folder: &mut F,
    input: &mut S,
    disk: &mut D,
    out: &mut O,
) -> Option<Cause>
    ensures run { spec.CommandRuns (command_of words.now)
        (world (F.held folder.old) (S.left input.old) (D.tells disk.old) (D.content disk.old) (O.held out.old))
        (world (F.held folder.new) (S.left input.new) (D.tells disk.new) (D.content disk.new) (O.held out.new)) result }
    ensures words { (result ≡ Some Cause.BadWords) ↔ (command_of words.now ≡ None) }
    ensures same { F.held folder.new ≡ F.held folder.old }
    ensures tells { D.tells disk.new ≡ D.tells disk.old }
    ensures folder { HasCause (F.faults folder.old) (F.faults folder.new) (result ≡ Some Cause.FolderFailed) }
    ensures input { HasCause (S.faults input.old) (S.faults input.new) (result ≡ Some Cause.InputFailed) }
    ensures disk { HasCause (D.faults disk.old) (D.faults disk.new) (result ≡ Some Cause.DiskFailed) }
    ensures output { HasCause (O.faults out.old) (O.faults out.new) (result ≡ Some Cause.OutputFailed) }
    ensures of_folder { result ≡ Some Cause.FolderFailed → spec.reads_folder (command_of words.now) ≡ true }
    ensures of_input { result ≡ Some Cause.InputFailed → spec.reads_input (command_of words.now) ≡ true }
    ensures of_disk { result ≡ Some Cause.DiskFailed → spec.opens_file (command_of words.now) ≡ true }
    ensures untouched_folder { spec.reads_folder (command_of words.now) ≡ false → folder.new ≡ folder.old }
    ensures untouched_by_run { spec.is_run (command_of words.now) ≡ true → AsksNoCatalog (S.left input.old) → folder.new ≡ folder.old }
    ensures untouched_input { spec.reads_input (command_of words.now) ≡ false → input.new ≡ input.old }
    ensures untouched_disk { spec.opens_file (command_of words.now) ≡ false → disk.new ≡ disk.old }
    ensures end { is_answered (status_of result) ≡ true → spec.reads_input (command_of words.now) ≡ true → IsAtEnd (S.left input.new) }
{
    match command_of(words) {
        None => Some(Cause::BadWords),
        Some(Command::Help) => print_help(alloc, out),
        Some(Command::OnCatalog { place, task }) => {
            run_catalog(alloc, place, task, folder, input, out)
        }
        Some(Command::Verify { path, names }) => verify(alloc, path, names, folder, input, out),
        Some(Command::Run) => run_script(alloc, folder, input, disk, out),
        Some(Command::Show { namespace }) => show(alloc, namespace, disk, out),
        Some(Command::Decide { budget, namespace }) => {
            decide(alloc, budget, namespace, disk, out)
        }
    }
}

/// Runs the words of a command line, without the program's own name.
pub fn olmctl<F: Folder, S: Source, D: Disk, O: Sink, E: Sink>(
    alloc: Global,
    words: &[Text],
    folder: &mut F,
    input: &mut S,
    disk: &mut D,
    out: &mut O,
    err: &mut E,
) -> Exit
    ensures run { (end told : Option Cause) × spec.IsToldAs end told × (status_of told ≡ result)
        × spec.CommandRuns (command_of words.now)
        (world (F.held folder.old) (S.left input.old) (D.tells disk.old) (D.content disk.old) (O.held out.old))
        (world (F.held folder.new) (S.left input.new) (D.tells disk.new) (D.content disk.new) (O.held out.new)) end
        × HasRisen
        ((spec.reads_folder (command_of words.now) ≡ true) × Rose (F.faults folder.old) (F.faults folder.new))
        ((spec.reads_input (command_of words.now) ≡ true) × Rose (S.faults input.old) (S.faults input.new))
        ((spec.opens_file (command_of words.now) ≡ true) × Rose (D.faults disk.old) (D.faults disk.new))
        (Rose (O.faults out.old) (O.faults out.new)) told
        × Tells told (E.held err.old) (E.held err.new) }
    ensures words { (result ≡ Exit.Words) ↔ (command_of words.now ≡ None) }
    ensures same { F.held folder.new ≡ F.held folder.old }
    ensures tells { D.tells disk.new ≡ D.tells disk.old }
    ensures untouched_folder { spec.reads_folder (command_of words.now) ≡ false → folder.new ≡ folder.old }
    ensures untouched_by_run { spec.is_run (command_of words.now) ≡ true → AsksNoCatalog (S.left input.old) → folder.new ≡ folder.old }
    ensures untouched_input { spec.reads_input (command_of words.now) ≡ false → input.new ≡ input.old }
    ensures untouched_disk { spec.opens_file (command_of words.now) ≡ false → disk.new ≡ disk.old }
    ensures end { is_answered result ≡ true → spec.reads_input (command_of words.now) ≡ true → IsAtEnd (S.left input.new) }
    ensures silent { is_silent result ≡ true → err.new ≡ err.old }
    ensures counts { (F.faults folder.old ≤ F.faults folder.new) × (S.faults input.old ≤ S.faults input.new)
        × (D.faults disk.old ≤ D.faults disk.new) × (O.faults out.old ≤ O.faults out.new)
        × (E.faults err.old ≤ E.faults err.new) }
{
    match run(alloc, words, folder, input, disk, out) {
        None => Exit::Done,
        Some(cause) => {
            let told = tell_run(alloc, words, cause, err);
            exit_of(&told)
        }
    }
}
