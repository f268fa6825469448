// What a store asks of its disk.
ghost use Rattle.std.specs.Prelude.{◌≡◌, ◌≤◌, ◌<◌, ◌+◌, ◌∷◌, ◌++◌, ◌^◌, [], List, true, length, IfOk, OnOk, IsErr, IsErrOf};
ghost use Rattle.cluster_objects.specs.declared.objects.Write.{Write};
ghost use Rattle.cluster_file.specs.Files.{stands};
ghost use Rattle.cluster_file.specs.Writing.{empty_file, piece, place_after};
ghost use Rattle.olm_disk.specs.Disk.{LeavesOnly, Torn, nothing_pending, written};
ghost use Rattle.olm_io.specs.Outside.{HasCause};
ghost use Rattle.log_file.specs.Crashes.{AddingLeaves, OpeningLeaves};
ghost use Rattle.log_file.specs.Log.{AddsRecord, HasBegun, IsSettled};

use olm_disk::Disk;
use olm_io::{Failed, Outage};
use std::alloc::Global;

// Writes a piece, and has all that was written on the disk.
fn write_and_sync<D: Disk>(disk: &mut D, at: u64, piece: &[u8]) -> Result<(), Outage>
    requires within { D.tells disk.old ≡ true → at ≤ length (D.content disk.old) }
    requires fits { at + length piece.now ≤ 2 ^ 40 }
    ensures written { D.tells disk.old ≡ true → OnOk result (D.content disk.new ≡ written at piece.now (D.content disk.old)) }
    ensures durable { D.tells disk.old ≡ true → OnOk result (D.pending disk.new ≡ nothing_pending (D.content disk.new)) }
    ensures torn { D.tells disk.old ≡ true → IsErrOf result Outage.Failed → Torn at (length piece.now) (D.content disk.old) (D.content disk.new) }
    ensures memory { IsErrOf result Outage.Memory → (D.content disk.new ≡ D.content disk.old) × (D.pending disk.new ≡ D.pending disk.old) }
    ensures leaves { D.tells disk.old ≡ true → D.pending disk.old ≡ nothing_pending (D.content disk.old)
        → LeavesOnly D.moment D.left_since disk.old disk.new (Torn at (length piece.now) (D.content disk.old)) }
    ensures kept { D.tells disk.old ≡ true → D.pending disk.old ≡ nothing_pending (D.content disk.old)
        → IsErrOf result Outage.Memory → LeavesOnly D.moment D.left_since disk.old disk.new (λ image. image ≡ D.content disk.old) }
    ensures short { D.tells disk.old ≡ true → (D.pending disk.old).greatest ≤ 9 → at + length piece.now ≤ 9
        → LeavesOnly D.moment D.left_since disk.old disk.new (λ image. length image ≤ 9) }
    ensures tells { D.tells disk.new ≡ D.tells disk.old }
    ensures cause { HasCause (D.faults disk.old) (D.faults disk.new) (IsErrOf result Outage.Failed) }
{
    match disk.write_at(at, piece) {
        Ok(()) => match disk.sync() {
            Ok(()) => Ok(()),
            Err(Failed) => Err(Outage::Failed),
        },
        Err(Outage::Failed) => Err(Outage::Failed),
        Err(Outage::Memory) => Err(Outage::Memory),
    }
}

/// Adds a record: writes it with a closed next gate behind the last gate, and then opens that gate, each durably.
pub fn add_record<D: Disk>(disk: &mut D, gate: u64, record_piece: &[u8]) -> Result<(), Outage>
    requires within { D.tells disk.old ≡ true → gate + 1 ≤ length (D.content disk.old) }
    requires fits { gate + 1 + length record_piece.now ≤ 2 ^ 40 }
    ensures adds { D.tells disk.old ≡ true → (ws : List Write) (w : Write) → gate ≡ place_after ws → record_piece.now ≡ piece w 0
        → IsSettled (D.content disk.old) (D.pending disk.old) ws → AddsRecord (D.content disk.new) (D.pending disk.new) ws w result }
    ensures exact { D.tells disk.old ≡ true → OnOk result (D.content disk.new ≡ written gate (1 ∷ []) (written (gate + 1) record_piece.now (D.content disk.old))) }
    ensures crash { D.tells disk.old ≡ true → (ws : List Write) (w : Write) → gate ≡ place_after ws → record_piece.now ≡ piece w 0
        → IsSettled (D.content disk.old) (D.pending disk.old) ws → LeavesOnly D.moment D.left_since disk.old disk.new (AddingLeaves ws w result) }
    ensures tells { D.tells disk.new ≡ D.tells disk.old }
    ensures cause { HasCause (D.faults disk.old) (D.faults disk.new) (IsErrOf result Outage.Failed) }
{
    match write_and_sync(disk, gate + 1, record_piece) {
        Ok(()) => write_and_sync(disk, gate, &[1]),
        Err(outage) => Err(outage),
    }
}

// Makes the file that of the empty history.
fn write_empty<D: Disk>(disk: &mut D) -> Result<(), Outage>
    ensures same { D.tells disk.old ≡ true → length (D.content disk.old) ≤ 9 → stands (D.content disk.new) ≡ stands (D.content disk.old) }
    ensures written { D.tells disk.old ≡ true → OnOk result (D.content disk.new ≡ empty_file) }
    ensures durable { D.tells disk.old ≡ true → OnOk result (D.pending disk.new ≡ nothing_pending (D.content disk.new)) }
    ensures short { D.tells disk.old ≡ true → (D.pending disk.old).greatest ≤ 9
        → LeavesOnly D.moment D.left_since disk.old disk.new (λ image. length image ≤ 9) }
    ensures tells { D.tells disk.new ≡ D.tells disk.old }
    ensures cause { HasCause (D.faults disk.old) (D.faults disk.new) (IsErrOf result Outage.Failed) }
{
    match disk.cut(0) {
        Ok(()) => write_and_sync(disk, 0, b"OLMLOG01\0"),
        Err(outage) => Err(outage),
    }
}

// Syncs, and makes a file of at most nine bytes that of the empty history. The file's length.
pub(crate) fn begin<D: Disk>(disk: &mut D) -> Result<u64, Outage>
    ensures same { D.tells disk.old ≡ true → stands (D.content disk.new) ≡ stands (D.content disk.old) }
    ensures begun { D.tells disk.old ≡ true → OnOk result (HasBegun (D.content disk.new) (D.pending disk.new)) }
    ensures len { D.tells disk.old ≡ true → IfOk result (λ len. len ≡ length (D.content disk.new)) }
    ensures kept { D.tells disk.old ≡ true → 9 < length (D.content disk.old) → D.content disk.new ≡ D.content disk.old }
    ensures made { D.tells disk.old ≡ true → length (D.content disk.old) ≤ 9 → OnOk result (D.content disk.new ≡ empty_file) }
    ensures crash { D.tells disk.old ≡ true → LeavesOnly D.moment D.left_since disk.old disk.new (OpeningLeaves (D.content disk.old) (D.pending disk.old)) }
    ensures tells { D.tells disk.new ≡ D.tells disk.old }
    ensures cause { HasCause (D.faults disk.old) (D.faults disk.new) (IsErrOf result Outage.Failed) }
{
    let Ok(()) = disk.sync() else {
        return Err(Outage::Failed);
    };
    let Ok(len) = disk.len() else {
        return Err(Outage::Failed);
    };
    if len > 9 {
        return Ok(len);
    }
    match write_empty(disk) {
        Ok(()) => Ok(9),
        Err(outage) => Err(outage),
    }
}

// All the bytes of a file of this length.
pub(crate) fn read_content<D: Disk>(
    alloc: Global,
    disk: &mut D,
    len: u64,
) -> Result<Vec<u8>, Outage>
    ensures bytes { D.tells disk.old ≡ true → len ≡ length (D.content disk.old) → IfOk result (λ bytes. bytes.items ≡ D.content disk.old) }
    ensures same { D.content disk.new ≡ D.content disk.old }
    ensures pending { D.pending disk.new ≡ D.pending disk.old }
    ensures crash { D.tells disk.old ≡ true → D.pending disk.old ≡ nothing_pending (D.content disk.old)
        → LeavesOnly D.moment D.left_since disk.old disk.new (λ image. image ≡ D.content disk.old) }
    ensures tells { D.tells disk.new ≡ D.tells disk.old }
    ensures cause { HasCause (D.faults disk.old) (D.faults disk.new) (IsErrOf result Outage.Failed) }
{
    let Ok(mut bytes) = vec![in alloc; 0u8; len as usize] else {
        return Err(Outage::Memory);
    };
    match disk.read(0, &mut bytes) {
        Ok(count) => {
            bytes.truncate(count);
            Ok(bytes)
        }
        Err(Failed) => Err(Outage::Failed),
    }
}
