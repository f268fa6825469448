// A file on a disk: what a read gives, and what a crash may leave.
ghost use Rattle.std.specs.Prelude.{◌≡◌, ◌≤◌, ◌+◌, ◌-◌, ◌++◌, ◌^◌, min, List, ℕ, Bool, true, length, take, drop, IfOk, OnOk, OnErr, IsErr, IsErrOf};
ghost use Rattle.olm_io.specs.Outside.{HasCause};
ghost use Rattle.olm_disk.specs.Disk.{Pending, nothing_pending, pending_write, pending_cut, MayLeave, written, Torn, PartlyCut, Elapses};

use olm_io::{Failed, Outage};

/// The greatest length of a file, in bytes: 2^40.
pub const FILE_LIMIT: u64 = 1_099_511_627_776;

/// A disk with one file. Clauses on the content hold where the disk tells it.
pub trait Disk {
    /// The disk tells what its file holds.
    ghost tells: { Self → Bool };

    /// What a read gives.
    ghost content: { Self → List ℕ };

    /// What was asked for since the last sync that succeeded.
    ghost pending: { Self → Pending };

    /// The clock, which never falls.
    ghost moment: { Self → ℕ };

    /// What a crash at some moment since that one might have left, within a call or between two.
    ghost left_since: { Self → ℕ → List ℕ → Type 0 };

    /// How often a call has failed.
    ghost faults: { Self → ℕ };

    /// The file's length in bytes.
    fn len(&mut self) -> Result<u64, Failed>
        ensures len { tells self.old ≡ true → IfOk result (λ len. len ≡ length (content self.old)) }
        ensures tells { tells self.new ≡ tells self.old }
        ensures content { content self.new ≡ content self.old }
        ensures pending { pending self.new ≡ pending self.old }
        ensures time { Elapses (moment self.old) (moment self.new) (left_since self.old) (left_since self.new) (MayLeave (content self.new) (pending self.new)) }
        ensures cause { HasCause (faults self.old) (faults self.new) (IsErr result) };

    /// Fills as much of `into` as the file has from `at` on, and answers how many bytes that is.
    fn read(&mut self, at: u64, into: &mut [u8]) -> Result<usize, Failed>
        ensures within { IfOk result (λ count. count ≤ length into.new) }
        ensures count { tells self.old ≡ true → IfOk result (λ count. count ≡ min (length into.old) (length (content self.old) - at)) }
        ensures bytes { tells self.old ≡ true → IfOk result (λ count. into.new ≡ take count (drop at (content self.old)) ++ drop count into.old) }
        ensures tells { tells self.new ≡ tells self.old }
        ensures content { content self.new ≡ content self.old }
        ensures pending { pending self.new ≡ pending self.old }
        ensures time { Elapses (moment self.old) (moment self.new) (left_since self.old) (left_since self.new) (MayLeave (content self.new) (pending self.new)) }
        ensures cause { HasCause (faults self.old) (faults self.new) (IsErr result) };

    /// Writes a piece over what is there and past the end. It begins within the file, or at its
    /// end. One that failed leaves the bytes outside its range; those in it are unknown until they
    /// are read.
    fn write_at(&mut self, at: u64, piece: &[u8]) -> Result<(), Outage>
        requires within { tells self.old ≡ true → at ≤ length (content self.old) }
        requires fits { at + length piece.now ≤ 2 ^ 40 }
        ensures written { tells self.old ≡ true → OnOk result (content self.new ≡ written at piece.now (content self.old)) }
        ensures torn { tells self.old ≡ true → IsErrOf result Outage.Failed → Torn at (length piece.now) (content self.old) (content self.new) }
        ensures memory { IsErrOf result Outage.Memory → (content self.new ≡ content self.old) × (pending self.new ≡ pending self.old) }
        ensures pending { tells self.old ≡ true → (IsErrOf result Outage.Memory → ⊥) → pending self.new ≡ pending_write at (length piece.now) (pending self.old) }
        ensures tells { tells self.new ≡ tells self.old }
        ensures time { Elapses (moment self.old) (moment self.new) (left_since self.old) (left_since self.new) (MayLeave (content self.new) (pending self.new)) }
        ensures cause { HasCause (faults self.old) (faults self.new) (IsErrOf result Outage.Failed) };

    /// Cuts the file to a length that it has reached. One that failed leaves the bytes before that
    /// place.
    fn cut(&mut self, len: u64) -> Result<(), Outage>
        requires within { tells self.old ≡ true → len ≤ length (content self.old) }
        ensures cut { tells self.old ≡ true → OnOk result (content self.new ≡ take len (content self.old)) }
        ensures partly { tells self.old ≡ true → IsErrOf result Outage.Failed → PartlyCut len (content self.old) (content self.new) }
        ensures memory { IsErrOf result Outage.Memory → (content self.new ≡ content self.old) × (pending self.new ≡ pending self.old) }
        ensures pending { tells self.old ≡ true → (IsErrOf result Outage.Memory → ⊥) → pending self.new ≡ pending_cut len (pending self.old) }
        ensures tells { tells self.new ≡ tells self.old }
        ensures time { Elapses (moment self.old) (moment self.new) (left_since self.old) (left_since self.new) (MayLeave (content self.new) (pending self.new)) }
        ensures cause { HasCause (faults self.old) (faults self.new) (IsErrOf result Outage.Failed) };

    /// Makes what a read gives durable. One that failed leaves as much pending as there was.
    fn sync(&mut self) -> Result<(), Failed>
        ensures durable { tells self.old ≡ true → OnOk result (pending self.new ≡ nothing_pending (content self.new)) }
        ensures still_pending { tells self.old ≡ true → OnErr result (pending self.new ≡ pending self.old) }
        ensures tells { tells self.new ≡ tells self.old }
        ensures content { content self.new ≡ content self.old }
        ensures time { Elapses (moment self.old) (moment self.new) (left_since self.old) (left_since self.new) (MayLeave (content self.old) (pending self.old)) }
        ensures cause { HasCause (faults self.old) (faults self.new) (IsErr result) };

    /// The present moment is one of those since an earlier one.
    ghost counts_now: { (disk : Self) (t : ℕ) (image : List ℕ) → tells disk ≡ true → t ≤ moment disk → MayLeave (content disk) (pending disk) image → left_since disk t image };

    /// Since the present moment there is no other.
    ghost only_now: { (disk : Self) (image : List ℕ) → left_since disk (moment disk) image → MayLeave (content disk) (pending disk) image };
}

/// A borrowed disk passes each call on.
impl<D: Disk> Disk for &mut D {
    ghost tells = { λ d. D.tells d.now };

    ghost content = { λ d. D.content d.now };

    ghost pending = { λ d. D.pending d.now };

    ghost moment = { λ d. D.moment d.now };

    ghost left_since = { λ d t image. D.left_since d.now t image };

    ghost faults = { λ d. D.faults d.now };

    ghost counts_now = { λ d t image told earlier may. D.counts_now d.now t image told earlier may };

    ghost only_now = { λ d image left. D.only_now d.now image left };

    fn len(&mut self) -> Result<u64, Failed> {
        (**self).len()
    }

    fn read(&mut self, at: u64, into: &mut [u8]) -> Result<usize, Failed> {
        (**self).read(at, into)
    }

    fn write_at(&mut self, at: u64, piece: &[u8]) -> Result<(), Outage> {
        (**self).write_at(at, piece)
    }

    fn cut(&mut self, len: u64) -> Result<(), Outage> {
        (**self).cut(len)
    }

    fn sync(&mut self) -> Result<(), Failed> {
        (**self).sync()
    }
}
