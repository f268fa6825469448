// Reading the text of the place where a catalog stands.
ghost use Rattle.std.specs.Prelude.{List, ℕ, ◌≡◌, ◌≤◌, length, true, false, IfOk, IfErr, OnOk, IsErrOf};
ghost use Rattle.std.specs.declared.result.Result.{Result};
ghost use Rattle.std.specs.Io.KnownBytes.{IsAtEnd};
ghost use Rattle.olm_base.specs.Outcome.{Gives};
ghost use Rattle.olm_io.specs.Outside.{HasCause, IsTold};
ghost use Rattle.fbc_read.specs.Bodies.{input_limit};
ghost use Rattle.olm_cli.specs.declared.causes.Cause.{Cause};
ghost use Rattle.olm_cli.specs.Causes.{is_free, is_of_reading};
ghost use Rattle.olm_cli.specs.Places as spec;
ghost use Rattle.olm_cli.specs.Words.{place_view};

use crate::causes::Cause;
use crate::words::Place;
use fbc_read::{BodyFault, INPUT_LIMIT, catalog_body};
use olm_base::{Bytes, Text};
use olm_folder::Folder;
use olm_io::{FolderFault, Source, read_all};
use std::alloc::Global;

/// The input's text.
pub(crate) fn read_input<S: Source>(alloc: Global, input: &mut S) -> Result<Bytes, Cause>
    ensures answer { (text : List ℕ) × IsTold (S.left input.old) text × Gives is_free (spec.within_limit text) result }
    ensures within { IfOk result (λ text. length text ≤ input_limit) }
    ensures cause { HasCause (S.faults input.old) (S.faults input.new) (IsErrOf result Cause.InputFailed) }
    ensures kind { IfErr result (λ cause. spec.is_of_input cause ≡ true) }
    ensures end { OnOk result (IsAtEnd (S.left input.new)) }
{
    match read_all(alloc, input, INPUT_LIMIT) {
        Ok(text) => Ok(text),
        Err(FolderFault::Failed) => Err(Cause::InputFailed),
        Err(FolderFault::TooLong { limit: _ }) => Err(Cause::TooLong),
        Err(FolderFault::Memory) => Err(Cause::NoMemory),
    }
}

fn body_cause(fault: BodyFault) -> Cause
    ensures cause { result ≡ spec.body_cause fault }
    ensures kind { spec.is_of_folder result ≡ true }
{
    match fault {
        BodyFault::Folder(FolderFault::Failed) => Cause::FolderFailed,
        BodyFault::Folder(FolderFault::TooLong { limit: _ }) => Cause::TooLong,
        BodyFault::Folder(FolderFault::Memory) => Cause::NoMemory,
        BodyFault::Yaml { path } => Cause::FileNotRead { path },
        BodyFault::Split { path, fault } => Cause::SplitFile { path, fault },
        BodyFault::Memory => Cause::NoMemory,
    }
}

/// The text of the files below a path.
pub(crate) fn read_folder<F: Folder>(
    alloc: Global,
    path: &Text,
    folder: &mut F,
) -> Result<Bytes, Cause>
    ensures answer { (found : Result (List ℕ) Cause) × spec.FolderHolds path.now (F.held folder.old) found × Gives is_free found result }
    ensures within { IfOk result (λ text. length text ≤ input_limit) }
    ensures same { F.held folder.new ≡ F.held folder.old }
    ensures cause { HasCause (F.faults folder.old) (F.faults folder.new) (IsErrOf result Cause.FolderFailed) }
    ensures kind { IfErr result (λ cause. spec.is_of_folder cause ≡ true) }
{
    match catalog_body(alloc, folder, path) {
        Ok(text) => Ok(text),
        Err(fault) => Err(body_cause(fault)),
    }
}

/// The text of the catalog that a place holds.
pub fn read_place<F: Folder, S: Source>(
    alloc: Global,
    place: Place<'_>,
    folder: &mut F,
    input: &mut S,
) -> Result<Bytes, Cause>
    ensures answer { (found : Result (List ℕ) Cause) × spec.Holds (place_view place.entry) (F.held folder.old) (S.left input.old) found × Gives is_free found result }
    ensures within { IfOk result (λ text. length text ≤ input_limit) }
    ensures same { F.held folder.new ≡ F.held folder.old }
    ensures folder { HasCause (F.faults folder.old) (F.faults folder.new) (IsErrOf result Cause.FolderFailed) }
    ensures input { HasCause (S.faults input.old) (S.faults input.new) (IsErrOf result Cause.InputFailed) }
    ensures of_folder { IsErrOf result Cause.FolderFailed → spec.is_folder (place_view place.entry) ≡ true }
    ensures of_input { IsErrOf result Cause.InputFailed → spec.is_input (place_view place.entry) ≡ true }
    ensures untouched_folder { spec.is_folder (place_view place.entry) ≡ false → folder.new ≡ folder.old }
    ensures untouched_input { spec.is_input (place_view place.entry) ≡ false → input.new ≡ input.old }
    ensures kind { IfErr result (λ cause. is_of_reading cause ≡ true) }
    ensures end { OnOk result (spec.is_input (place_view place.entry) ≡ true → IsAtEnd (S.left input.new)) }
{
    match place {
        Place::Input => read_input(alloc, input),
        Place::Below(path) => read_folder(alloc, path, folder),
    }
}
