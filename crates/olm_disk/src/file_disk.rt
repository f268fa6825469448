// A disk over a file of the system.
ghost use Rattle.std.specs.Prelude.{◌≡◌, ◌≢◌, ◌≤◌, None, Err, IfOk, OnOk, OnErr, IsErr, IsErrOf, length};
ghost use Rattle.olm_io.specs.Outside.{HasCause, one_more};

use crate::Disk;
use olm_base::Text;
use olm_io::{Failed, Outage};
use std::fs::{Files, OpenFile, OpenOptions};
use std::io;
use std::io::{ErrorKind, Read, Seek, SeekFrom, Write};

/// A disk over a file of the system, with a count of the system's errors. It opens the file at its
/// first call, and makes it where it isn't there. What the file holds isn't told, and of the
/// system's disk nothing is claimed.
#[derive(Drop)]
pub struct FileDisk<R: Files> {
    files: R,
    path: Text,
    file: Option<R::File>,
    faults: u64,
}

impl<R: Files> FileDisk<R> {
    /// A disk over the file at this path. It calls nothing yet.
    pub fn new(files: R, path: Text) -> FileDisk<R>
        ensures { result ≡ record { files = files; path = path; file = None; faults = 0 } }
    {
        FileDisk {
            files,
            path,
            file: None,
            faults: 0,
        }
    }
}

// Opens the file where it isn't open yet.
fn open<R: Files>(files: &R, path: &Text, file: &mut Option<R::File>) -> io::Result<()> {
    if file.is_none() {
        let mut options = OpenOptions::new();
        options.read(true).write(true).create(true);
        *file = Some(options.open(files, path.as_str())?);
    }
    Ok(())
}

// Reads from a place on until `into` is full or the file ends.
fn read_fully<F: Read + Seek>(file: &mut F, at: u64, into: &mut [u8]) -> io::Result<usize>
    ensures { IfOk result (λ count. count ≤ length into.new) }
{
    file.seek(SeekFrom::Start(at))?;
    let mut filled = 0;
    while filled < into.len() {
        let count = file.read(&mut into[filled..])?;
        if count == 0 {
            break;
        }
        filled += count;
    }
    Ok(filled)
}

// Writes the whole piece from a place on. A write that takes nothing is an error.
fn write_whole<F: Write + Seek>(file: &mut F, at: u64, piece: &[u8]) -> io::Result<()> {
    file.seek(SeekFrom::Start(at))?;
    let mut rest = piece;
    while !rest.is_empty() {
        let count = file.write(rest)?;
        if count == 0 {
            return Err(io::Error::from(ErrorKind::WriteZero));
        }
        rest = &rest[count..];
    }
    Ok(())
}

impl<R: Files> Disk for FileDisk<R> {
    ghost use Rattle.std.specs.Prelude.{false, []};
    ghost use Rattle.std.proofs.lemmas.Bool.{false≢true};
    ghost use Rattle.olm_disk.specs.Disk.{nothing_pending};

    ghost tells = { λ disk. false };

    ghost content = { λ disk. [] };

    ghost pending = { λ disk. nothing_pending [] };

    ghost moment = { λ disk. 0 };

    ghost left_since = { λ disk t image. ⊥ };

    ghost faults = { λ disk. disk.faults };

    ghost counts_now = { λ disk t image told earlier may. absurd (false≢true told) };

    ghost only_now = { λ disk image left. absurd left };

    fn len(&mut self) -> Result<u64, Failed>
        ensures ok { OnOk result (self.new.faults ≡ self.old.faults) }
        ensures err { OnErr result (self.new.faults ≡ one_more self.old.faults) }
        ensures cause { HasCause self.old.faults self.new.faults (IsErr result) }
    {
        if open(&self.files, &self.path, &mut self.file).is_ok() {
            if let Some(file) = &self.file {
                if let Ok(metadata) = file.metadata() {
                    return Ok(metadata.len());
                }
            }
        }
        self.faults = self.faults.saturating_add(1);
        Err(Failed)
    }

    fn read(&mut self, at: u64, into: &mut [u8]) -> Result<usize, Failed>
        ensures within { IfOk result (λ count. count ≤ length into.new) }
        ensures ok { OnOk result (self.new.faults ≡ self.old.faults) }
        ensures err { OnErr result (self.new.faults ≡ one_more self.old.faults) }
        ensures cause { HasCause self.old.faults self.new.faults (IsErr result) }
    {
        if open(&self.files, &self.path, &mut self.file).is_ok() {
            if let Some(file) = &mut self.file {
                if let Ok(count) = read_fully(file, at, into) {
                    return Ok(count);
                }
            }
        }
        self.faults = self.faults.saturating_add(1);
        Err(Failed)
    }

    fn write_at(&mut self, at: u64, piece: &[u8]) -> Result<(), Outage>
        ensures no_memory { result ≢ Err Outage.Memory }
        ensures ok { OnOk result (self.new.faults ≡ self.old.faults) }
        ensures err { OnErr result (self.new.faults ≡ one_more self.old.faults) }
        ensures cause { HasCause self.old.faults self.new.faults (IsErrOf result Outage.Failed) }
    {
        if open(&self.files, &self.path, &mut self.file).is_ok() {
            if let Some(file) = &mut self.file {
                if write_whole(file, at, piece).is_ok() {
                    return Ok(());
                }
            }
        }
        self.faults = self.faults.saturating_add(1);
        Err(Outage::Failed)
    }

    fn cut(&mut self, len: u64) -> Result<(), Outage>
        ensures no_memory { result ≢ Err Outage.Memory }
        ensures ok { OnOk result (self.new.faults ≡ self.old.faults) }
        ensures err { OnErr result (self.new.faults ≡ one_more self.old.faults) }
        ensures cause { HasCause self.old.faults self.new.faults (IsErrOf result Outage.Failed) }
    {
        if open(&self.files, &self.path, &mut self.file).is_ok() {
            if let Some(file) = &self.file {
                if file.set_len(len).is_ok() {
                    return Ok(());
                }
            }
        }
        self.faults = self.faults.saturating_add(1);
        Err(Outage::Failed)
    }

    fn sync(&mut self) -> Result<(), Failed>
        ensures ok { OnOk result (self.new.faults ≡ self.old.faults) }
        ensures err { OnErr result (self.new.faults ≡ one_more self.old.faults) }
        ensures cause { HasCause self.old.faults self.new.faults (IsErr result) }
    {
        if open(&self.files, &self.path, &mut self.file).is_ok() {
            if let Some(file) = &self.file {
                if file.sync_all().is_ok() {
                    return Ok(());
                }
            }
        }
        self.faults = self.faults.saturating_add(1);
        Err(Failed)
    }
}
