// A folder in memory, of which some calls fail.
ghost use Rattle.std.specs.Prelude.{◌≡◌, ◌≢◌, ◌↔◌, ℕ, Some, true, IfOk, OnOk, Err, IsErrOf};
ghost use Rattle.olm_base.specs.Outcome.{Gives};
ghost use Rattle.olm_folder.specs.Files.{AreBelow, bytes_at};
ghost use Rattle.olm_io.specs.InMemory.{is_listed};
ghost use Rattle.olm_io.specs.Outside.{HasCause, one_more};
ghost use Rattle.olm_io.specs.ReadAll.{is_free, whole};

use crate::Folder;
use crate::files::{read_at, sorted_below};
use olm_base::{Bytes, Many, Text};
use olm_io::FolderFault;
use std::alloc::Global;
use std::marker::Model;

/// A folder in memory, of which the calls of some numbers fail, counted from 0. A call that answers want of
/// memory isn't counted. All calls after number 2^64 - 1 have that number. Where two files have one path the
/// first is read, and the path is listed twice.
#[derive(Debug, Drop)]
pub struct MemFolder {
    files: Many<(Text, Bytes)>,
    call: u64,
    faults: u64,
    fails: Many<u64>,
}

impl Model for MemFolder {
    ghost use Rattle.olm_folder.specs.Files.{MemFolderState};

    ghost Value = { MemFolderState };

    ghost view = { λ folder. record {
      held = folder.files;
      call = folder.call;
      faults = folder.faults;
      fails = folder.fails;
    } };
}

impl MemFolder {
    /// A folder of these files. A call whose number is in `fails` fails.
    pub fn new(files: Many<(Text, Bytes)>, fails: Many<u64>) -> MemFolder
        ensures { result ≡ record { held = files; call = 0; faults = 0; fails = fails } }
    {
        MemFolder {
            files,
            call: 0,
            faults: 0,
            fails,
        }
    }
}

// The call of this number fails.
fn is_listed(fails: &Many<u64>, call: u64) -> bool
    ensures { result ≡ is_listed fails.now call }
{
    fails.as_slice().contains(&call)
}

impl Folder for MemFolder {
    ghost held = { λ folder. Some folder.held };

    ghost faults = { λ folder. folder.faults };

    /// Fails exactly where the number of this call is listed.
    fn paths(&mut self, alloc: Global, under: &Text) -> Result<Many<Text>, FolderFault>
        ensures fails { IsErrOf result FolderFault.Failed ↔ (is_listed self.old.fails self.old.call ≡ true) }
        ensures paths { IfOk result (λ paths. AreBelow under.now self.old.held paths) }
        ensures limit { (limit : ℕ) → result ≢ Err (FolderFault.TooLong limit) }
        ensures ok { OnOk result (self.new ≡ record self.old { call = one_more self.old.call }) }
        ensures failed { IsErrOf result FolderFault.Failed → self.new ≡ record self.old { call = one_more self.old.call; faults = one_more self.old.faults } }
        ensures memory { IsErrOf result FolderFault.Memory → self.new ≡ self.old }
        ensures cause { HasCause self.old.faults self.new.faults (IsErrOf result FolderFault.Failed) }
    {
        if is_listed(&self.fails, self.call) {
            self.call = self.call.saturating_add(1);
            self.faults = self.faults.saturating_add(1);
            return Err(FolderFault::Failed);
        }
        match sorted_below(alloc, under, self.files.as_slice()) {
            Ok(paths) => {
                self.call = self.call.saturating_add(1);
                Ok(paths)
            }
            Err(_) => Err(FolderFault::Memory),
        }
    }

    /// Fails exactly where the number of this call is listed.
    fn read(&mut self, alloc: Global, path: &Text, limit: u64) -> Result<Bytes, FolderFault>
        ensures fails { IsErrOf result FolderFault.Failed ↔ (is_listed self.old.fails self.old.call ≡ true) }
        ensures bytes { Gives is_free (whole limit (bytes_at path.now self.old.held)) result }
        ensures ok { OnOk result (self.new ≡ record self.old { call = one_more self.old.call }) }
        ensures long { IsErrOf result (FolderFault.TooLong limit) → self.new ≡ record self.old { call = one_more self.old.call } }
        ensures failed { IsErrOf result FolderFault.Failed → self.new ≡ record self.old { call = one_more self.old.call; faults = one_more self.old.faults } }
        ensures memory { IsErrOf result FolderFault.Memory → self.new ≡ self.old }
        ensures cause { HasCause self.old.faults self.new.faults (IsErrOf result FolderFault.Failed) }
    {
        if is_listed(&self.fails, self.call) {
            self.call = self.call.saturating_add(1);
            self.faults = self.faults.saturating_add(1);
            return Err(FolderFault::Failed);
        }
        let answer = read_at(alloc, self.files.as_slice(), path, limit);
        if !matches!(&answer, Err(FolderFault::Memory)) {
            self.call = self.call.saturating_add(1);
        }
        answer
    }
}
