// Reading a source to its end.
ghost use Rattle.std.specs.Prelude.{List, ℕ, ◌≡◌, ◌≤◌, ◌+◌, IfOk, OnOk, IsErrOf, length};
ghost use Rattle.std.specs.Io.KnownBytes.{Consumes, IsAtEnd};
ghost use Rattle.olm_base.specs.Outcome.{Gives};
ghost use Rattle.olm_io.specs.Outside.{HasCause, IsTold};
ghost use Rattle.olm_io.specs.ReadAll.{is_free, whole};

use crate::{Failed, FolderFault, Source};
use olm_base::Bytes;
use std::alloc::Global;

/// How many bytes are asked for at once.
const CHUNK: usize = 4096;

/// All the bytes that are left, if there are at most `limit`. It takes no more than one byte past
/// the limit from the source.
pub fn read_all<S: Source>(alloc: Global, source: &mut S, limit: u64) -> Result<Bytes, FolderFault>
    ensures answer { (text : List ℕ) × IsTold (S.left source.old) text × Gives is_free (whole limit text) result }
    ensures within { IfOk result (λ bytes. length bytes ≤ limit) }
    ensures end { OnOk result (IsAtEnd (S.left source.new)) }
    ensures taken { (front : List ℕ) × Consumes (S.left source.old) (S.left source.new) front × (length front ≤ limit + 1) }
    ensures cause { HasCause (S.faults source.old) (S.faults source.new) (IsErrOf result FolderFault.Failed) }
{
    let mut bytes = Vec::new(alloc);
    let mut chunk = [0u8; CHUNK];
    loop {
        let room = room_for(limit - bytes.len() as u64);
        let count = match source.read(&mut chunk[..room]) {
            Ok(count) => count,
            Err(Failed) => return Err(FolderFault::Failed),
        };
        if count == 0 {
            return Ok(Bytes::from_vec(bytes));
        }
        if count as u64 > limit - bytes.len() as u64 {
            return Err(FolderFault::TooLong { limit });
        }
        if bytes.extend_from_slice(&chunk[..count]).is_err() {
            return Err(FolderFault::Memory);
        }
    }
}

/// How many bytes to ask for, where so many more may come: one more, if the chunk has room.
fn room_for(more: u64) -> usize
    ensures some { 1 ≤ result }
    ensures fits { result ≤ 4096 }
    ensures one { result ≤ more + 1 }
{
    if more < CHUNK as u64 {
        more as usize + 1
    } else {
        CHUNK
    }
}
