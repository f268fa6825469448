// The commands `show` and `decide`.
ghost use Rattle.std.specs.Prelude.{◌≡◌, ◌≢◌, ℕ, true, Some, Result};
ghost use Rattle.cluster_file.specs.Files.{stands};
ghost use Rattle.cluster_history.specs.History.{History};
ghost use Rattle.cluster_commands.specs.Asked.{shown_in};
ghost use Rattle.file_commands.specs.Answers.{Answers, IsDecision, IsProblemSize, NoProblem, file_failed};
ghost use Rattle.file_commands.specs.Opens.{Opens};
ghost use Rattle.file_commands.specs.declared.faults.FileFault.{FileFault};
ghost use Rattle.olm_io.specs.Outside.{HasCause};
ghost use Rattle.olm_cli.specs.declared.causes.Cause.{Cause};
ghost use Rattle.olm_cli.specs.Cluster as spec;
ghost use Rattle.olm_cli.specs.Runs.{Comes};

use crate::causes::Cause;
use crate::printing::print;
use crate::resolving::ended;
use catalog_choice::Answer;
use file_commands::{FileFault, decide_file, show_file};
use olm_base::Text;
use olm_disk::Disk;
use olm_io::Sink;
use std::alloc::Global;

/// The cause for which nothing is shown or decided of the cluster in the file.
fn file_cause(fault: FileFault) -> Cause
    ensures cause { result ≡ spec.file_cause fault }
    ensures words { result ≢ Cause.BadWords }
    ensures folder { result ≢ Cause.FolderFailed }
    ensures input { result ≢ Cause.InputFailed }
    ensures disk { result ≡ Cause.DiskFailed → fault ≡ FileFault.Failed }
    ensures output { result ≢ Cause.OutputFailed }
{
    match fault {
        FileFault::Damaged { at } => Cause::Damaged { at },
        FileFault::Failed => Cause::DiskFailed,
        FileFault::TooManyVariables { count } => Cause::TooManyVariables { count },
        FileFault::Memory => Cause::NoMemory,
    }
}

/// The lines of a namespace's objects.
fn lines_in<D: Disk>(alloc: Global, namespace: &Text, disk: &mut D) -> Result<Vec<u8>, FileFault>
    ensures lines { (found : Result History ℕ) × Opens (D.tells disk.old) (D.content disk.old) found
        × Answers (λ h lines. lines.items ≡ shown_in h namespace.now) NoProblem found result }
    ensures same { D.tells disk.old ≡ true → stands (D.content disk.new) ≡ stands (D.content disk.old) }
    ensures tells { D.tells disk.new ≡ D.tells disk.old }
    ensures cause { HasCause (D.faults disk.old) (D.faults disk.new) (file_failed result ≡ true) }
{
    show_file(alloc, namespace.as_slice(), disk)
}

/// Opens the cluster file, and prints a line for each object of a namespace.
pub fn show<D: Disk, O: Sink>(
    alloc: Global,
    namespace: &Text,
    disk: &mut D,
    out: &mut O,
) -> Option<Cause>
    ensures run { Comes (spec.ShowRuns namespace.now (D.tells disk.old) (D.content disk.old)) result (O.held out.old) (O.held out.new) }
    ensures same { D.tells disk.old ≡ true → stands (D.content disk.new) ≡ stands (D.content disk.old) }
    ensures tells { D.tells disk.new ≡ D.tells disk.old }
    ensures words { result ≢ Some Cause.BadWords }
    ensures folder { result ≢ Some Cause.FolderFailed }
    ensures input { result ≢ Some Cause.InputFailed }
    ensures disk { HasCause (D.faults disk.old) (D.faults disk.new) (result ≡ Some Cause.DiskFailed) }
    ensures output { HasCause (O.faults out.old) (O.faults out.new) (result ≡ Some Cause.OutputFailed) }
{
    match lines_in(alloc, namespace, disk) {
        Ok(lines) => print(lines.as_slice(), None, out),
        Err(fault) => Some(file_cause(fault)),
    }
}

/// The decision over what is asked in a namespace.
fn answer_in<D: Disk>(
    alloc: Global,
    budget: u32,
    namespace: &Text,
    disk: &mut D,
) -> Result<Answer, FileFault>
    ensures answer { (found : Result History ℕ) × Opens (D.tells disk.old) (D.content disk.old) found
        × Answers (IsDecision namespace.now budget) (IsProblemSize namespace.now) found result }
    ensures same { D.tells disk.old ≡ true → stands (D.content disk.new) ≡ stands (D.content disk.old) }
    ensures tells { D.tells disk.new ≡ D.tells disk.old }
    ensures cause { HasCause (D.faults disk.old) (D.faults disk.new) (file_failed result ≡ true) }
{
    decide_file(alloc, namespace.as_slice(), budget, disk)
}

/// Opens the cluster file, decides what is asked in a namespace, and prints the decision with its certificate.
pub fn decide<D: Disk, O: Sink>(
    alloc: Global,
    budget: u32,
    namespace: &Text,
    disk: &mut D,
    out: &mut O,
) -> Option<Cause>
    ensures run { Comes (spec.DecideRuns budget namespace.now (D.tells disk.old) (D.content disk.old)) result (O.held out.old) (O.held out.new) }
    ensures same { D.tells disk.old ≡ true → stands (D.content disk.new) ≡ stands (D.content disk.old) }
    ensures tells { D.tells disk.new ≡ D.tells disk.old }
    ensures words { result ≢ Some Cause.BadWords }
    ensures folder { result ≢ Some Cause.FolderFailed }
    ensures input { result ≢ Some Cause.InputFailed }
    ensures disk { HasCause (D.faults disk.old) (D.faults disk.new) (result ≡ Some Cause.DiskFailed) }
    ensures output { HasCause (O.faults out.old) (O.faults out.new) (result ≡ Some Cause.OutputFailed) }
{
    match answer_in(alloc, budget, namespace, disk) {
        Ok(answer) => print(answer.text.as_slice(), ended(answer.decided), out),
        Err(fault) => Some(file_cause(fault)),
    }
}
