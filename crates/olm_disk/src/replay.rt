// What a disk in memory held after some of its changes.
ghost use Rattle.std.specs.Prelude.{◌≡◌, ◌≤◌, ◌<◌, List, ℕ, length, take, drop, nat_le, slice_index, if◌then◌else◌, IfOk, OnOk, OnErr};
ghost use Rattle.std.specs.List.{take_while};
ghost use Rattle.olm_disk.specs.Disk.{written, is_in};
ghost use Rattle.olm_disk.specs.Kept.{begun, after, kept_after, is_sync, covers, is_covered};
ghost use Rattle.olm_disk.specs.MemDisk.{began_by};

use crate::change::{Change, Stage};
use std::alloc::{AllocError, Global};

/// Puts a piece over what is there from a place on, which is the end where the place lies past it.
pub(crate) fn overwrite(content: &mut Vec<u8>, at: u64, piece: &[u8]) -> Result<(), AllocError>
    ensures ok { OnOk result (content.new.items ≡ written at piece.now content.old.items) }
    ensures err { OnErr result (content.new.items ≡ content.old.items) }
{
    let front = content.len().min(at as usize);
    if piece.len() <= content.len() - front {
        content[front..front + piece.len()].copy_from_slice(piece);
        return Ok(());
    }
    content.reserve(piece.len())?;
    content.truncate(front);
    content.extend_from_slice(piece)?;
    Ok(())
}

/// Makes a change once more.
fn redo(content: &mut Vec<u8>, change: &Change) -> Result<(), AllocError>
    ensures { OnOk result (content.new.items ≡ (after (begun content.old.items) change.now).content) }
{
    match change {
        Change::Wrote { at, bytes } => overwrite(content, *at, bytes.as_slice()),
        Change::Cut { len } => {
            content.truncate(*len as usize);
            Ok(())
        }
        Change::LostWrite { .. } | Change::LostCut { .. } | Change::Synced => Ok(()),
    }
}

/// The content after these stages.
pub(crate) fn replay(alloc: Global, start: &[u8], stages: &[Stage]) -> Result<Vec<u8>, AllocError>
    ensures { IfOk result (λ content. content.items ≡ (kept_after start.now stages.now).content) }
{
    let mut content = Vec::from_slice(alloc, start)?;
    for stage in stages {
        redo(&mut content, &stage.change)?;
    }
    Ok(content)
}

/// The stages that began up to a moment.
pub(crate) fn until(stages: &[Stage], moment: u64) -> &[Stage]
    ensures { result.now ≡ take_while (began_by moment) stages.now }
{
    &stages[..count_until(stages, moment)]
}

fn count_until(stages: &[Stage], moment: u64) -> usize
    ensures { result ≡ length (take_while (began_by moment) stages.now) }
{
    stages
        .iter()
        .take_while(|stage| stage.first <= moment)
        .count()
}

/// How many of the stages stand up to the last sync, with it.
pub(crate) fn synced_count(stages: &[Stage]) -> usize
    ensures within { result ≤ length stages.now }
    ensures durable { (start : List ℕ) → (kept_after start stages.now).durable ≡ (kept_after start (take result stages.now)).content }
    ensures ranges { (start : List ℕ) (place : ℕ) → is_in (kept_after start stages.now).pending.ranges place ≡ is_covered place (drop result stages.now) }
{
    let mut synced = 0;
    for (index, stage) in stages.iter().enumerate() {
        if is_sync(&stage.change) {
            synced = index + 1;
        }
    }
    synced
}

fn is_sync(change: &Change) -> bool
    ensures { result ≡ is_sync change.now }
{
    matches!(change, Change::Synced)
}

/// The change wrote at this place, or failed to.
fn covers(change: &Change, place: u64) -> bool
    ensures { result ≡ covers place change.now }
{
    match change {
        Change::Wrote { at, bytes } => {
            *at <= place && place - *at < bytes.as_slice().len() as u64
        }
        Change::LostWrite { at, count } => *at <= place && place - *at < *count,
        Change::Cut { .. } | Change::LostCut { .. } | Change::Synced => false,
    }
}

/// One of the stages did.
fn is_covered(stages: &[Stage], place: u64) -> bool
    ensures { result ≡ is_covered place stages.now }
{
    stages.iter().any(|stage| covers(&stage.change, place))
}

/// Puts a byte at each place that one of the stages wrote at.
pub(crate) fn spoil(content: &mut [u8], stages: &[Stage], byte: u8)
    ensures places { (place : ℕ) → place < length content.old → slice_index content.new place ≡ (if is_covered place stages.now then byte else slice_index content.old place) }
{
    for place in 0..content.len() {
        if is_covered(stages, place as u64) {
            content[place] = byte;
        }
    }
}
