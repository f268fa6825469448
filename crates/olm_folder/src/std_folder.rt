// A folder of the system.
ghost use Rattle.std.specs.Prelude.{◌≡◌, ◌≢◌, ℕ, List, true, nat_eq, IfOk, Err, IsErrOf};
ghost use Rattle.std.specs.List.{list_all, starts_with};
ghost use Rattle.olm_base.specs.Outcome.{Gives};
ghost use Rattle.olm_folder.specs.Files.{AreBelow, bytes_at, is_below};
ghost use Rattle.olm_io.specs.Outside.{HasCause, one_more};
ghost use Rattle.olm_io.specs.ReadAll.{is_free, whole};

use crate::Folder;
use crate::files::folder_prefix;
use olm_base::{Bytes, Many, Text};
use olm_io::{FolderFault, StdSource, read_all};
use std::alloc::Global;
use std::fs::{DirEntry, Files};
use std::io::ErrorKind;
use std::{fs, io};

/// A folder of the system, with a count of the system's errors. A path is the system's, from the directory that
/// the program runs in. A file whose name isn't UTF-8, a link to nothing and a path that isn't there are faults.
/// A link to a file is a file; a link to a folder is passed by, so that no folder is listed twice.
#[derive(Drop)]
pub struct StdFolder<R: Files + AllocGlobal + Clone + Drop> {
    files: R,
    faults: u64,
}

impl<R: Files + AllocGlobal + Clone + Drop> StdFolder<R> {
    /// It calls nothing yet.
    pub fn new(files: R) -> StdFolder<R>
        ensures { result ≡ record { files = files; faults = 0 } }
    {
        StdFolder { files, faults: 0 }
    }
}

// Notes the file that this entry is, or the folder.
fn note_entry<R: Files + AllocGlobal + Clone + Drop>(
    files: &R,
    entry: &DirEntry<R, Global>,
    prefix: &[u8],
    found: &mut Vec<Text>,
    waiting: &mut Vec<Text>,
) -> io::Result<()>
    requires { list_all (λ path. starts_with nat_eq path prefix.now) found.old.items ≡ true }
    ensures { list_all (λ path. starts_with nat_eq path prefix.now) found.new.items ≡ true }
{
    let path = Text::from_string(String::from_str(files.alloc(), entry.path().to_string_lossy())?);
    if entry.metadata()?.is_dir() {
        waiting.push(path)?;
        return Ok(());
    }
    if fs::metadata(files, path.as_str())?.is_file() {
        if path.as_slice().starts_with(prefix) {
            found.push(path)?;
        }
    }
    Ok(())
}

// Notes what stands directly below this folder.
fn list_folder<R: Files + AllocGlobal + Clone + Drop>(
    files: &R,
    folder: &Text,
    prefix: &[u8],
    found: &mut Vec<Text>,
    waiting: &mut Vec<Text>,
) -> io::Result<()>
    requires { list_all (λ path. starts_with nat_eq path prefix.now) found.old.items ≡ true }
    ensures { list_all (λ path. starts_with nat_eq path prefix.now) found.new.items ≡ true }
{
    for entry in fs::read_dir(files, folder.as_str())? {
        note_entry(files, &entry?, prefix, found, waiting)?;
    }
    Ok(())
}

// The path of every file below the folder, as the system lists them.
fn find_files<R: Files + AllocGlobal + Clone + Drop>(
    files: &R,
    alloc: Global,
    under: &Text,
) -> io::Result<Vec<Text>>
    ensures { IfOk result (λ found. list_all (is_below under.now) found.items ≡ true) }
{
    let prefix = folder_prefix(alloc, under)?;
    let mut found = Vec::new(alloc);
    let mut waiting = Vec::new(alloc);
    waiting.push(under.clone()?)?;
    for _ in 0..u64::MAX {
        match waiting.pop() {
            Some(folder) => list_folder(files, &folder, &prefix, &mut found, &mut waiting)?,
            None => break,
        }
    }
    Ok(found)
}

// What a file holds, if it is at most `limit`.
fn read_file<R: Files>(
    files: &R,
    alloc: Global,
    path: &Text,
    limit: u64,
) -> Result<Bytes, FolderFault>
    ensures { (files : List (List ℕ × List ℕ)) × Gives is_free (whole limit (bytes_at path.now files)) result }
{
    let file = match fs::open(files, path.as_str()) {
        Ok(file) => file,
        Err(fault) if fault.kind() == ErrorKind::OutOfMemory => return Err(FolderFault::Memory),
        Err(_) => return Err(FolderFault::Failed),
    };
    let mut source = StdSource::new(file);
    read_all(alloc, &mut source, limit)
}

impl<R: Files + AllocGlobal + Clone + Drop> Folder for StdFolder<R> {
    ghost use Rattle.std.specs.Prelude.{None};

    ghost held = { λ folder. None };

    ghost faults = { λ folder. folder.faults };

    /// Lists the folder and those below it, each once.
    #[tactic(auto, using(crate::proofs::Untold::some_files))]
    fn paths(&mut self, alloc: Global, under: &Text) -> Result<Many<Text>, FolderFault>
        ensures paths { IfOk result (λ paths. (files : List (List ℕ × List ℕ)) × AreBelow under.now files paths) }
        ensures limit { (limit : ℕ) → result ≢ Err (FolderFault.TooLong limit) }
        ensures others { result ≢ Err FolderFault.Failed → self.new.faults ≡ self.old.faults }
        ensures failed { IsErrOf result FolderFault.Failed → self.new.faults ≡ one_more self.old.faults }
        ensures cause { HasCause self.old.faults self.new.faults (IsErrOf result FolderFault.Failed) }
    {
        let mut found = match find_files(&self.files, alloc, under) {
            Ok(found) => found,
            Err(fault) if fault.kind() == ErrorKind::OutOfMemory => {
                return Err(FolderFault::Memory);
            }
            Err(_) => {
                self.faults = self.faults.saturating_add(1);
                return Err(FolderFault::Failed);
            }
        };
        match found.sort() {
            Ok(()) => Ok(Many::from_vec(found)),
            Err(_) => Err(FolderFault::Memory),
        }
    }

    /// Reads no more than one byte past the limit.
    fn read(&mut self, alloc: Global, path: &Text, limit: u64) -> Result<Bytes, FolderFault>
        ensures bytes { (files : List (List ℕ × List ℕ)) × Gives is_free (whole limit (bytes_at path.now files)) result }
        ensures others { result ≢ Err FolderFault.Failed → self.new.faults ≡ self.old.faults }
        ensures failed { IsErrOf result FolderFault.Failed → self.new.faults ≡ one_more self.old.faults }
        ensures cause { HasCause self.old.faults self.new.faults (IsErrOf result FolderFault.Failed) }
    {
        let answer = read_file(&self.files, alloc, path, limit);
        if matches!(&answer, Err(FolderFault::Failed)) {
            self.faults = self.faults.saturating_add(1);
        }
        answer
    }
}
