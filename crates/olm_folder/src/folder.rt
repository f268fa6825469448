// A folder, by the files that it holds, where that is told.
ghost use Rattle.std.specs.Prelude.{◌≡◌, ◌≢◌, List, ℕ, IfOk, IsErrOf, Err};
ghost use Rattle.std.specs.declared.option.Option.{Option};
ghost use Rattle.olm_base.specs.Outcome.{Gives};
ghost use Rattle.olm_folder.specs.Files.{AreTold, AreBelow, bytes_at};
ghost use Rattle.olm_io.specs.Outside.{HasCause};
ghost use Rattle.olm_io.specs.ReadAll.{is_free, whole};

use olm_base::{Bytes, Many, Text};
use olm_io::FolderFault;
use std::alloc::Global;

/// Something that holds files under paths. The parts of a path stand between slashes.
pub trait Folder {
    /// The files, as paths and bytes, where the folder tells.
    ghost held: { Self → Option (List (List ℕ × List ℕ)) };

    /// How often a call has failed.
    ghost faults: { Self → ℕ };

    /// The path of every file below the folder `under`, each beginning with `under`, in the order of their
    /// bytes.
    fn paths(&mut self, alloc: Global, under: &Text) -> Result<Many<Text>, FolderFault>
        ensures paths { IfOk result (λ paths. (files : List (List ℕ × List ℕ)) × AreTold (held self.old) files × AreBelow under.now files paths) }
        ensures limit { (limit : ℕ) → result ≢ Err (FolderFault.TooLong limit) }
        ensures same { held self.new ≡ held self.old }
        ensures cause { HasCause (faults self.old) (faults self.new) (IsErrOf result FolderFault.Failed) };

    /// The bytes of a file, if they are at most `limit`.
    fn read(&mut self, alloc: Global, path: &Text, limit: u64) -> Result<Bytes, FolderFault>
        ensures bytes { (files : List (List ℕ × List ℕ)) × AreTold (held self.old) files × Gives is_free (whole limit (bytes_at path.now files)) result }
        ensures same { held self.new ≡ held self.old }
        ensures cause { HasCause (faults self.old) (faults self.new) (IsErrOf result FolderFault.Failed) };
}
