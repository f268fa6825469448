// A folder in memory that never fails.
ghost use Rattle.std.specs.Prelude.{◌≡◌, ◌≢◌, List, ℕ, Some, IfOk, Err};
ghost use Rattle.olm_base.specs.Outcome.{Gives};
ghost use Rattle.olm_folder.specs.Files.{AreBelow, bytes_at};
ghost use Rattle.olm_io.specs.ReadAll.{is_free, whole};

use crate::Folder;
use crate::files::{read_at, sorted_below};
use olm_base::{Bytes, Many, Text};
use olm_io::FolderFault;
use std::alloc::Global;
use std::marker::Model;

/// A folder in memory that never fails but for memory. Contracts see it as its files. Where two files have one
/// path the first is read, and the path is listed twice.
#[derive(Debug, Drop)]
pub struct SureFolder {
    files: Many<(Text, Bytes)>,
}

impl Model for SureFolder {
    ghost use Rattle.std.specs.Prelude.{List, ℕ};

    ghost Value = { List (List ℕ × List ℕ) };

    ghost view = { λ folder. folder.files };
}

impl SureFolder {
    pub fn new(files: Many<(Text, Bytes)>) -> SureFolder
        ensures files { result ≡ files }
        ensures sure { (folder : List (List ℕ × List ℕ)) → ⟦<SureFolder as Folder>⟧.faults folder ≡ 0 }
    {
        SureFolder { files }
    }
}

impl Folder for SureFolder {
    ghost held = { λ folder. Some folder };

    ghost faults = { λ folder. 0 };

    fn paths(&mut self, alloc: Global, under: &Text) -> Result<Many<Text>, FolderFault>
        ensures paths { IfOk result (λ paths. AreBelow under.now self.old paths) }
        ensures limit { (limit : ℕ) → result ≢ Err (FolderFault.TooLong limit) }
        ensures sure { result ≢ Err FolderFault.Failed }
        ensures same { self.new ≡ self.old }
    {
        match sorted_below(alloc, under, self.files.as_slice()) {
            Ok(paths) => Ok(paths),
            Err(_) => Err(FolderFault::Memory),
        }
    }

    fn read(&mut self, alloc: Global, path: &Text, limit: u64) -> Result<Bytes, FolderFault>
        ensures bytes { Gives is_free (whole limit (bytes_at path.now self.old)) result }
        ensures sure { result ≢ Err FolderFault.Failed }
        ensures same { self.new ≡ self.old }
    {
        read_at(alloc, self.files.as_slice(), path, limit)
    }
}
