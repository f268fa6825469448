// What is shown and decided of the cluster in the file of a disk.
ghost use Rattle.std.specs.Prelude.{◌≡◌, ℕ, true, Result};
ghost use Rattle.cluster_file.specs.Files.{stands};
ghost use Rattle.cluster_history.specs.History.{History};
ghost use Rattle.cluster_commands.specs.Asked.{shown_in};
ghost use Rattle.olm_io.specs.Outside.{HasCause};
ghost use Rattle.file_commands.specs.Answers.{Answers, IsDecision, IsProblemSize, NoProblem, file_failed};
ghost use Rattle.file_commands.specs.Opens.{Opens};

use crate::FileFault;
use crate::looking::look_file;
use catalog_choice::Answer;
use cluster_commands::{decide_seen, show_seen};
use olm_base::Memory;
use olm_disk::Disk;
use problem_build::BuildFault;
use std::alloc::Global;

/// A line for each object of a namespace of the cluster in the file of this disk, in the order of their keys. What is
/// no name has none. The file is opened first, whatever the namespace is.
pub fn show_file<D: Disk>(
    alloc: Global,
    namespace: &[u8],
    disk: &mut D,
) -> Result<Vec<u8>, FileFault>
    ensures lines { (found : Result History ℕ) × Opens (D.tells disk.old) (D.content disk.old) found
        × Answers (λ h lines. lines.items ≡ shown_in h namespace.now) NoProblem found result }
    ensures same { D.tells disk.old ≡ true → stands (D.content disk.new) ≡ stands (D.content disk.old) }
    ensures tells { D.tells disk.new ≡ D.tells disk.old }
    ensures cause { HasCause (D.faults disk.old) (D.faults disk.new) (file_failed result ≡ true) }
{
    let mut seen = None;
    match look_file(alloc, namespace, disk, &mut seen) {
        Ok(()) => match show_seen(alloc, &seen) {
            Ok(lines) => Ok(lines),
            Err(Memory) => Err(FileFault::Memory),
        },
        Err(fault) => Err(fault),
    }
}

/// Decides what is asked in a namespace of the cluster in the file of this disk, with no more lemmas than the budget,
/// and tells the decision. What is no name asks nothing, and nothing is chosen for it. The file is opened first,
/// whatever the namespace is.
pub fn decide_file<D: Disk>(
    alloc: Global,
    namespace: &[u8],
    budget: u32,
    disk: &mut D,
) -> Result<Answer, FileFault>
    ensures answer { (found : Result History ℕ) × Opens (D.tells disk.old) (D.content disk.old) found
        × Answers (IsDecision namespace.now budget) (IsProblemSize namespace.now) found result }
    ensures same { D.tells disk.old ≡ true → stands (D.content disk.new) ≡ stands (D.content disk.old) }
    ensures tells { D.tells disk.new ≡ D.tells disk.old }
    ensures cause { HasCause (D.faults disk.old) (D.faults disk.new) (file_failed result ≡ true) }
{
    let mut seen = None;
    match look_file(alloc, namespace, disk, &mut seen) {
        Ok(()) => match decide_seen(alloc, &seen, budget) {
            Ok(answer) => Ok(answer),
            Err(BuildFault::TooManyVariables { count }) => {
                Err(FileFault::TooManyVariables { count })
            }
            Err(BuildFault::Memory) => Err(FileFault::Memory),
        },
        Err(fault) => Err(fault),
    }
}
