// The catalog of a folder, as one text.
ghost use Rattle.std.specs.Prelude.{◌≡◌, ◌≢◌, [], ◌∷◌, ◌++◌, ℕ, List, All, IfOk, Err, IsErrOf, find, map, filter};
ghost use Rattle.olm_base.specs.Outcome.{Gives};
ghost use Rattle.olm_io.specs.Outside.{HasCause};
ghost use Rattle.olm_io.specs.ReadAll.{is_free as free_read};
ghost use Rattle.catalog_stream.specs.Stream.{blobs};
ghost use Rattle.fbc_read.specs.Bodies as spec;

use catalog_stream::{Blobs, StreamFault};
use olm_base::{Bytes, Many, Memory, Text};
use olm_folder::Folder;
use olm_io::FolderFault;
use std::alloc::Global;
use thiserror::Error;

/// The most bytes of one catalog.
pub const INPUT_LIMIT: u64 = 67_108_864;

/// Why a folder gives no text of a catalog.
#[derive(Debug, Drop, PartialEq, Error)]
pub enum BodyFault {
    /// The folder isn't listed or a file isn't read, or the files are too long together.
    #[error("{0}")]
    Folder(FolderFault),
    /// A file of this path would belong to the catalog, and isn't read.
    #[error("file {path} isn't read", path = .path.as_str())]
    Yaml { path: Text },
    /// The file of this path is no stream of blobs by itself.
    #[error("{path} {fault}", path = .path.as_str())]
    Split { path: Text, fault: StreamFault },
    /// Memory ran out.
    #[error("out of memory")]
    Memory,
}

fn is_ignore(path: &[u8]) -> bool
    ensures { result ≡ spec.is_ignore path.now }
{
    path == b".indexignore".as_slice() || path.ends_with(b"/.indexignore".as_slice())
}

fn is_refused(path: &[u8]) -> bool
    ensures { result ≡ spec.is_refused path.now }
{
    path.ends_with(b".yaml".as_slice()) || path.ends_with(b".yml".as_slice()) || is_ignore(path)
}

fn first_refused(paths: &[Text]) -> Result<Option<Text>, Memory>
    ensures { IfOk result (λ found. found ≡ find spec.is_refused paths.now) }
{
    for path in paths {
        if is_refused(path.as_slice()) {
            return Ok(Some(path.clone()?));
        }
    }
    Ok(None)
}

fn json_paths(alloc: Global, paths: &[Text]) -> Result<Many<Text>, Memory>
    ensures { IfOk result (λ found. found ≡ filter spec.is_json paths.now) }
{
    let mut found = Vec::new(alloc);
    for path in paths {
        if path.as_slice().ends_with(b".json".as_slice()) {
            found.push(path.clone()?)?;
        }
    }
    Ok(Many::from_vec(found))
}

/// Reads the files of these paths, as long as their lines are at most `limit` bytes.
fn read_files<F: Folder>(
    alloc: Global,
    folder: &mut F,
    paths: &[Text],
    limit: u64,
) -> Result<Many<(Text, Bytes)>, FolderFault>
    ensures files { (files : List (List ℕ × List ℕ)) × (map (λ file. file.0) files ≡ paths.now) × All (spec.ReadsAs (F.held folder.old)) files × Gives free_read (spec.within limit files) result }
    ensures same { F.held folder.new ≡ F.held folder.old }
    ensures cause { HasCause (F.faults folder.old) (F.faults folder.new) (IsErrOf result FolderFault.Failed) }
{
    let mut files = Vec::new(alloc);
    let mut left = limit;
    'paths: for path in paths {
        let bytes = match folder.read(alloc, path, left) {
            Ok(bytes) => bytes,
            Err(FolderFault::Failed) => return Err(FolderFault::Failed),
            Err(FolderFault::TooLong { .. }) => return Err(FolderFault::TooLong { limit }),
            Err(FolderFault::Memory) => return Err(FolderFault::Memory),
        };
        let length = bytes.as_slice().len() as u64;
        if length >= left {
            return Err(FolderFault::TooLong { limit });
        }
        left -= length + 1;
        match keep_file(&mut files, path, bytes) {
            Ok(()) => {}
            Err(Memory) => return Err(FolderFault::Memory),
        }
    }
    Ok(Many::from_vec(files))
}

fn keep_file(files: &mut Vec<(Text, Bytes)>, path: &Text, bytes: Bytes) -> Result<(), Memory>
    ensures { IfOk result (λ done. files.new.items ≡ files.old.items ++ (path.now, bytes) ∷ []) }
{
    files.push((path.clone()?, bytes))?;
    Ok(())
}

/// Why a text is no stream of blobs.
fn stream_fault(alloc: Global, text: &[u8]) -> Result<Option<StreamFault>, Memory>
    ensures { IfOk result (λ fault. fault ≡ (blobs text.now).fault) }
{
    let mut blobs = Blobs::new(text);
    'blobs: loop {
        match blobs.next(alloc) {
            Ok(Some(_)) => {}
            Ok(None) => return Ok(None),
            Err(StreamFault::Memory) => return Err(Memory),
            Err(fault) => return Ok(Some(fault)),
        }
    }
}

/// The file's path and why it is no stream, if it is none.
fn split_of(
    alloc: Global,
    path: &Text,
    bytes: &Bytes,
) -> Result<Option<(Text, StreamFault)>, Memory>
    ensures { IfOk result (λ found. found ≡ spec.split_of (path.now, bytes.now)) }
{
    match stream_fault(alloc, bytes.as_slice())? {
        None => Ok(None),
        Some(fault) => Ok(Some((path.clone()?, fault))),
    }
}

fn first_split(
    alloc: Global,
    files: &[(Text, Bytes)],
) -> Result<Option<(Text, StreamFault)>, Memory>
    ensures { IfOk result (λ found. found ≡ spec.first_split files.now) }
{
    'files: for (path, bytes) in files {
        if let Some(found) = split_of(alloc, path, bytes)? {
            return Ok(Some(found));
        }
    }
    Ok(None)
}

fn join_lines(alloc: Global, files: &[(Text, Bytes)]) -> Result<Bytes, Memory>
    ensures { IfOk result (λ text. text ≡ spec.lines files.now) }
{
    let mut text = Vec::new(alloc);
    'files: for (_, bytes) in files {
        text.extend_from_slice(bytes.as_slice())?;
        text.push(b'\n')?;
    }
    Ok(Bytes::from_vec(text))
}

fn join_files(alloc: Global, files: &[(Text, Bytes)]) -> Result<Bytes, BodyFault>
    ensures text { Gives spec.is_free (spec.unless_split (spec.first_split files.now) (spec.lines files.now)) result }
    ensures sure { result ≢ Err (BodyFault.Folder FolderFault.Failed) }
{
    match first_split(alloc, files) {
        Ok(None) => match join_lines(alloc, files) {
            Ok(text) => Ok(text),
            Err(Memory) => Err(BodyFault::Memory),
        },
        Ok(Some((path, fault))) => Err(BodyFault::Split { path, fault }),
        Err(Memory) => Err(BodyFault::Memory),
    }
}

fn folder_fault(fault: FolderFault) -> BodyFault
    ensures { result ≡ spec.folder_fault fault }
{
    match fault {
        FolderFault::Memory => BodyFault::Memory,
        other => BodyFault::Folder(other),
    }
}

/// The body of the files of these paths, under a limit.
fn body_of_paths<F: Folder>(
    alloc: Global,
    folder: &mut F,
    paths: &[Text],
    limit: u64,
) -> Result<Bytes, BodyFault>
    ensures body { (files : List (List ℕ × List ℕ)) × (map (λ file. file.0) files ≡ paths.now) × All (spec.ReadsAs (F.held folder.old)) files × Gives spec.is_free (spec.body limit files) result }
    ensures same { F.held folder.new ≡ F.held folder.old }
    ensures cause { HasCause (F.faults folder.old) (F.faults folder.new) (IsErrOf result (BodyFault.Folder FolderFault.Failed)) }
{
    match first_refused(paths) {
        Ok(None) => {}
        Ok(Some(path)) => return Err(BodyFault::Yaml { path }),
        Err(Memory) => return Err(BodyFault::Memory),
    }
    let Ok(jsons) = json_paths(alloc, paths) else {
        return Err(BodyFault::Memory);
    };
    match read_files(alloc, folder, jsons.as_slice(), limit) {
        Ok(files) => join_files(alloc, files.as_slice()),
        Err(fault) => Err(folder_fault(fault)),
    }
}

/// The body of a folder, under a limit.
pub(crate) fn body_within<F: Folder>(
    alloc: Global,
    folder: &mut F,
    under: &Text,
    limit: u64,
) -> Result<Bytes, BodyFault>
    ensures body { spec.GivesBody (F.held folder.old) under.now limit result }
    ensures same { F.held folder.new ≡ F.held folder.old }
    ensures cause { HasCause (F.faults folder.old) (F.faults folder.new) (IsErrOf result (BodyFault.Folder FolderFault.Failed)) }
{
    match folder.paths(alloc, under) {
        Ok(paths) => body_of_paths(alloc, folder, paths.as_slice(), limit),
        Err(fault) => Err(folder_fault(fault)),
    }
}

/// The bytes of every file below a folder whose path ends in `.json`, in the order of the paths, with an LF behind
/// each. No file is read where a path is refused.
pub fn catalog_body<F: Folder>(
    alloc: Global,
    folder: &mut F,
    under: &Text,
) -> Result<Bytes, BodyFault>
    ensures body { spec.GivesBody (F.held folder.old) under.now spec.input_limit result }
    ensures same { F.held folder.new ≡ F.held folder.old }
    ensures cause { HasCause (F.faults folder.old) (F.faults folder.new) (IsErrOf result (BodyFault.Folder FolderFault.Failed)) }
{
    body_within(alloc, folder, under, INPUT_LIMIT)
}
