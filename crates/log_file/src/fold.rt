// The writes of a file's bytes, read into a store.
ghost use Rattle.std.specs.Prelude.{◌≡◌, ◌+◌, [], ℕ, length, IfOk};
ghost use Rattle.cluster_objects.specs.Keys.{same_text};
ghost use Rattle.cluster_file.specs.Files.{header, next_record, standing_from, stands};
ghost use Rattle.cluster_file.specs.Reading.{Lends};
ghost use Rattle.cluster_file.specs.Writing.{history_after};
ghost use Rattle.log_file.specs.Folding.{AddsNext, Folds, Turns};

use cluster_file::next_record;
use cluster_objects::Write;
use object_store::{Appended, ClusterFault, SureCluster};
use olm_base::Memory;
use std::alloc::Global;

// Lets a write go.
pub(crate) fn discard(_write: Write) {}

// The write of the record that stands behind an open gate, and the bytes from the next gate on.
fn next_write<'a>(
    alloc: Global,
    store: &SureCluster,
    behind: &'a [u8],
) -> Result<Option<(Write, &'a [u8])>, Memory>
    ensures { IfOk result (λ found. Lends (next_record (history_after store.now.1) behind.now) found) }
{
    let Some((write, rest)) = next_record(alloc, behind)? else {
        return Ok(None);
    };
    if store.version(&write.key) != write.expect {
        discard(write);
        return Ok(None);
    }
    Ok(Some((write, rest)))
}

// Adds the write of the record that stands behind an open gate. The bytes from the next gate on.
fn add_next<'a>(
    alloc: Global,
    store: &mut SureCluster,
    behind: &'a [u8],
) -> Result<Option<&'a [u8]>, Memory>
    ensures { AddsNext (next_record (history_after store.old.1) behind.now) store.old store.new result }
{
    let Some((write, rest)) = next_write(alloc, store, behind)? else {
        return Ok(None);
    };
    let _: Appended = store.append(alloc, write)?;
    Ok(Some(rest))
}

// What stands at a gate, which is at this place.
fn turn<'a>(
    alloc: Global,
    store: &mut SureCluster,
    place: u64,
    bytes: &'a [u8],
) -> Result<Option<&'a [u8]>, ClusterFault>
    ensures turns { (bound : ℕ) → Turns bound place store.old.1 bytes.now store.new.1 result }
    ensures limit { store.new.0 ≡ store.old.0 }
{
    let Some((gate, behind)) = bytes.split_first() else {
        return Err(ClusterFault::Damaged { at: place });
    };
    if *gate != 1 {
        return Ok(None);
    }
    match add_next(alloc, store, behind) {
        Ok(Some(rest)) => Ok(Some(rest)),
        Ok(None) => Err(ClusterFault::Damaged { at: place }),
        Err(Memory) => Err(ClusterFault::Memory),
    }
}

// Adds the writes of the records from the first gate on, behind the header. The place of the last gate.
fn fold_records(
    alloc: Global,
    store: &mut SureCluster,
    total: u64,
    bytes: &[u8],
) -> Result<u64, ClusterFault>
    requires { length bytes.now + 8 ≡ total }
    ensures folds { Folds (standing_from total (history_after store.old.1) 8 bytes.now) store.new.1 result }
    ensures limit { store.new.0 ≡ store.old.0 }
{
    let mut rest = bytes;
    for _ in 0..total {
        let place = total - rest.len() as u64;
        match turn(alloc, store, place, rest) {
            Ok(Some(behind)) => rest = behind,
            Ok(None) => return Ok(place),
            Err(fault) => return Err(fault),
        }
    }
    Err(ClusterFault::Damaged {
        at: total - rest.len() as u64,
    })
}

fn is_same(a: &[u8], b: &[u8]) -> bool
    ensures { result ≡ same_text a.now b.now }
{
    a == b
}

#[tactic(auto, unfolding(cluster_file::specs::Files::header))]
fn is_header(bytes: &[u8]) -> bool
    ensures { result ≡ same_text bytes.now header }
{
    is_same(bytes, b"OLMLOG01")
}

// Adds the writes of a file's bytes to an empty store. The place of the last gate.
pub(crate) fn fold_content(
    alloc: Global,
    store: &mut SureCluster,
    bytes: &[u8],
) -> Result<u64, ClusterFault>
    requires { store.old.1 ≡ [] }
    ensures folds { Folds (stands bytes.now) store.new.1 result }
    ensures limit { store.new.0 ≡ store.old.0 }
{
    if bytes.len() <= 9 {
        return Ok(8);
    }
    let (front, rest) = bytes.split_at(8);
    if !is_header(front) {
        return Err(ClusterFault::Damaged { at: 0 });
    }
    fold_records(alloc, store, bytes.len() as u64, rest)
}
