// What a list of files answers.
ghost use Rattle.std.specs.Prelude.{◌≡◌, ◌≢◌, IfOk, Err};
ghost use Rattle.olm_base.specs.Outcome.{Gives};
ghost use Rattle.olm_folder.specs.Files as spec;
ghost use Rattle.olm_io.specs.ReadAll.{is_free, whole};

use olm_base::{Bytes, Many, Text};
use olm_io::FolderFault;
use std::alloc::{AllocError, Global};

/// What a path below this one begins with.
pub(crate) fn folder_prefix(alloc: Global, under: &Text) -> Result<Vec<u8>, AllocError>
    ensures { IfOk result (λ prefix. prefix.items ≡ spec.folder_prefix under.now) }
{
    let mut prefix = Vec::from_slice(alloc, under.as_slice())?;
    if !under.as_slice().ends_with(b"/".as_slice()) {
        prefix.push(b'/')?;
    }
    Ok(prefix)
}

/// The paths below the folder, as they stand in the list.
fn paths_below(
    alloc: Global,
    under: &Text,
    files: &[(Text, Bytes)],
) -> Result<Vec<Text>, AllocError>
    ensures { IfOk result (λ paths. paths.items ≡ spec.paths_below under.now files.now) }
{
    let prefix = folder_prefix(alloc, under)?;
    let mut paths = Vec::new(alloc);
    for (path, _) in files {
        if path.as_slice().starts_with(&prefix) {
            paths.push(path.clone()?)?;
        }
    }
    Ok(paths)
}

/// The paths below the folder, in order.
pub(crate) fn sorted_below(
    alloc: Global,
    under: &Text,
    files: &[(Text, Bytes)],
) -> Result<Many<Text>, AllocError>
    ensures { IfOk result (λ paths. spec.AreBelow under.now files.now paths) }
{
    let mut paths = paths_below(alloc, under, files)?;
    paths.sort()?;
    Ok(Many::from_vec(paths))
}

/// The bytes of the file at this path, if they are at most `limit`.
pub(crate) fn read_at(
    alloc: Global,
    files: &[(Text, Bytes)],
    path: &Text,
    limit: u64,
) -> Result<Bytes, FolderFault>
    ensures bytes { Gives is_free (whole limit (spec.bytes_at path.now files.now)) result }
    ensures sure { result ≢ Err FolderFault.Failed }
{
    for (other, bytes) in files {
        if other == path {
            return copy_within(bytes, limit);
        }
    }
    Ok(Bytes::from_vec(Vec::new(alloc)))
}

fn copy_within(bytes: &Bytes, limit: u64) -> Result<Bytes, FolderFault>
    ensures bytes { Gives is_free (whole limit bytes.now) result }
    ensures sure { result ≢ Err FolderFault.Failed }
{
    if bytes.as_slice().len() as u64 > limit {
        return Err(FolderFault::TooLong { limit });
    }
    match bytes.clone() {
        Ok(copy) => Ok(copy),
        Err(_) => Err(FolderFault::Memory),
    }
}
