//! Laws of the model of a crash. Each stands as what a call that does nothing ensures.
ghost use Rattle.std.specs.Prelude.{◌≡◌, ◌≤◌, List, ℕ, length};
ghost use Rattle.olm_disk.specs.Disk.{Pending, MayLeave, Torn, nothing_pending, pending_write, written};
ghost use Rattle.olm_disk.specs.Kept.{Kept, after};
ghost use Rattle.olm_disk.specs.MemDisk.{MemDiskState, IsImage, kept_at};
ghost use Rattle.olm_disk.specs.declared.change.Change.TheVariants as change;
ghost use Rattle.olm_disk.specs.declared.keep.Keep.{Keep};

use crate::Disk;

/// With nothing pending a crash leaves the content, and nothing else.
pub fn nothing_pending_keeps_the_content()
    ensures only { (content image : List ℕ) → MayLeave content (nothing_pending content) image → image ≡ content }
    ensures content { (content : List ℕ) → MayLeave content (nothing_pending content) content }
{}

/// Where nothing is pending on a disk, a crash from now on and up to now leaves what a read gives.
pub fn a_crash_leaves_what_is_read<D: Disk>()
    ensures { (disk : D) (image : List ℕ) → D.pending disk ≡ nothing_pending (D.content disk) → D.left_since disk (D.moment disk) image → image ≡ D.content disk }
{}

/// After a sync that succeeded nothing is pending, and the content is durable.
pub fn a_good_sync_leaves_nothing_pending()
    ensures pending { (kept : Kept) → (after kept change.Synced).pending ≡ nothing_pending kept.content }
    ensures durable { (kept : Kept) → (after kept change.Synced).durable ≡ kept.content }
{}

/// Where all was durable before a write, a crash after it tears at most its range, whether the
/// write succeeded or failed.
pub fn a_crash_tears_at_most_the_range()
    ensures succeeded { (at : ℕ) (piece old : List ℕ) → at ≤ length old → Torn at (length piece) old (written at piece old) }
    ensures crashed { (at count : ℕ) (old new image : List ℕ) → Torn at count old new → MayLeave new (pending_write at count (nothing_pending old)) image → Torn at count old image }
{}

/// What a crash may leave before a write or a cut it may leave after it: either may be lost.
pub fn an_unsynced_change_may_be_lost()
    ensures written { (content : List ℕ) (p : Pending) (at : ℕ) (piece image : List ℕ) → p.least ≤ length content → MayLeave content p image → MayLeave (written at piece content) (pending_write at (length piece) p) image }
    ensures cut { (kept : Kept) (len : ℕ) (image : List ℕ) → MayLeave kept.content kept.pending image → MayLeave (after kept (change.Cut len)).content (after kept (change.Cut len)).pending image }
{}

/// Each image of a disk in memory is one that a crash at that moment may have left.
pub fn an_image_may_be_left()
    ensures { (disk : MemDiskState) (moment : ℕ) (keep : Keep) (image : List ℕ) → IsImage keep (kept_at disk moment) image → MayLeave (kept_at disk moment).content (kept_at disk moment).pending image }
{}
