// A disk in memory that keeps each of its changes.
ghost use Rattle.std.specs.Prelude.{◌≡◌, ◌≤◌, ◌<◌, ◌+◌, ◌-◌, ◌++◌, ◌∷◌, ◌^◌, [], Some, ℕ, true, false, length, take, drop, min, is_err, vec_capacity, IfOk, OnOk, OnErr, IsErr, IsErrOf};
ghost use Rattle.olm_io.specs.InMemory.{is_listed};
ghost use Rattle.olm_io.specs.Outside.{HasCause, one_more};
ghost use Rattle.olm_disk.specs.Disk.{MayLeave};
ghost use Rattle.olm_disk.specs.Kept.{after, kept_after};
ghost use Rattle.olm_disk.specs.MemDisk.{MightHaveLeft, Steps, Called, Missed, IsImage, kept_at, kept_now, first_content, present_counts, only_present};
ghost use Rattle.olm_disk.specs.declared.change.Change.TheVariants as change;

use crate::change::{Change, Stage};
use crate::replay::{overwrite, replay, spoil, synced_count, until};
use crate::{Disk, Keep};
use olm_base::{Bytes, Many, Memory};
use olm_io::{Failed, Outage};
use std::alloc::{AllocError, Global};
use std::marker::Model;

/// A disk in memory, of which the calls of some numbers fail, counted from 0. A call that answers
/// `Outage::Memory` isn't counted. All calls after number 2^64 - 1 have that number.
///
/// Its clock rises with each `write_at`, `cut` and `sync`, and what it held at each moment can be
/// asked for. It keeps all that was written, so it serves tests.
#[derive(Debug, Drop)]
pub struct MemDisk {
    alloc: Global,
    start: Option<Bytes>,
    content: Vec<u8>,
    stages: Vec<Stage>,
    settled: bool,
    clock: u64,
    call: u64,
    faults: u64,
    fails: Many<u64>,
}

impl Model for MemDisk {
    ghost use Rattle.std.specs.Prelude.{vec_capacity};
    ghost use Rattle.olm_disk.specs.MemDisk.{MemDiskState, IsMemDisk, first_content};

    ghost Value = { MemDiskState };

    ghost view = { λ disk. record {
      start = first_content disk.start disk.content.items;
      stages = disk.stages.items;
      clock = disk.clock;
      call = disk.call;
      faults = disk.faults;
      fails = disk.fails;
    } };

    ghost invariant = { λ disk. IsMemDisk disk.start disk.content.items disk.stages.items (vec_capacity disk.stages) disk.clock disk.settled };
}

impl MemDisk {
    /// A disk with this content, all of it durable. A call whose number is in `fails` fails, and
    /// changes nothing but the clock and the count of faults.
    pub fn new(alloc: Global, content: Bytes, fails: Many<u64>) -> MemDisk
        ensures { result ≡ record { start = content; stages = []; clock = 0; call = 0; faults = 0; fails = fails } }
    {
        MemDisk {
            alloc,
            start: None,
            content: content.into_vec(),
            stages: Vec::new(alloc),
            settled: true,
            clock: 0,
            call: 0,
            faults: 0,
            fails,
        }
    }

    /// The moment: how many of `write_at`, `cut` and `sync` were called, those aside that answered
    /// `Outage::Memory`. It stays at 2^64 - 1.
    pub fn clock(&self) -> u64
        ensures { result ≡ self.now.clock }
    {
        self.clock
    }

    /// The content after a crash at a moment, which isn't past the clock.
    pub fn image(&self, alloc: Global, moment: u64, keep: Keep) -> Result<Bytes, Memory>
        requires { moment ≤ self.now.clock }
        ensures image { IfOk result (IsImage keep (kept_at self.now moment)) }
        ensures may { IfOk result (MayLeave (kept_at self.now moment).content (kept_at self.now moment).pending) }
        ensures since { IfOk result (⟦<MemDisk as Disk>⟧.left_since self.now moment) }
    {
        Ok(Bytes::from_vec(self.image_at(alloc, moment, keep)?))
    }

    fn image_at(&self, alloc: Global, moment: u64, keep: Keep) -> Result<Vec<u8>, AllocError>
        ensures { IfOk result (λ image. IsImage keep (kept_at self.now moment) image.items) }
    {
        let start = match &self.start {
            Some(start) => start.as_slice(),
            None => self.content.as_slice(),
        };
        image_of(alloc, start, until(&self.stages, moment), keep)
    }
}

// An image after these stages.
fn image_of(
    alloc: Global,
    start: &[u8],
    stages: &[Stage],
    keep: Keep,
) -> Result<Vec<u8>, AllocError>
    ensures { IfOk result (λ image. IsImage keep (kept_after start.now stages.now) image.items) }
{
    let synced = synced_count(stages);
    match keep {
        Keep::Old => replay(alloc, start, &stages[..synced]),
        Keep::New => replay(alloc, start, stages),
        Keep::Junk { byte } => {
            let mut image = replay(alloc, start, stages)?;
            spoil(&mut image, &stages[synced..], byte);
            Ok(image)
        }
    }
}

// The call of this number fails.
fn is_listed(fails: &Many<u64>, call: u64) -> bool
    ensures { result ≡ is_listed fails.now call }
{
    fails.as_slice().contains(&call)
}

// Keeps a copy of the content at first, and makes room for a change and for the sync after it.
fn make_room(
    alloc: Global,
    start: &mut Option<Bytes>,
    content: &[u8],
    stages: &mut Vec<Stage>,
) -> Result<(), AllocError>
    ensures start { first_content start.new content.now ≡ first_content start.old content.now }
    ensures kept { OnOk result (start.new ≡ Some (first_content start.old content.now)) }
    ensures stages { stages.new.items ≡ stages.old.items }
    ensures room { OnOk result (length stages.new.items + 2 ≤ vec_capacity stages.new) }
    ensures capacity { vec_capacity stages.old ≤ vec_capacity stages.new }
{
    stages.reserve(2)?;
    if start.is_none() {
        *start = Some(Bytes::from_vec(Vec::from_slice(alloc, content)?));
    }
    Ok(())
}

// Adds a stage, for which there is room.
fn note(stages: &mut Vec<Stage>, first: u64, change: Change)
    requires { length stages.old.items < vec_capacity stages.old }
    ensures items { stages.new.items ≡ stages.old.items ++ record { first = first; change = change } ∷ [] }
    ensures capacity { vec_capacity stages.old ≤ vec_capacity stages.new }
{
    let _ = stages.push(Stage { first, change });
}

impl Disk for MemDisk {
    ghost tells = { λ disk. true };

    ghost content = { λ disk. (kept_now disk).content };

    ghost pending = { λ disk. (kept_now disk).pending };

    ghost moment = { λ disk. disk.clock };

    ghost left_since = { MightHaveLeft };

    ghost faults = { λ disk. disk.faults };

    ghost counts_now = { λ disk t image told earlier may. present_counts disk t image earlier may };

    ghost only_now = { only_present };

    /// Fails exactly where the number of this call is listed.
    fn len(&mut self) -> Result<u64, Failed>
        ensures listed { is_err result ≡ is_listed self.old.fails self.old.call }
        ensures len { IfOk result (λ len. len ≡ length (kept_now self.old).content) }
        ensures ok { OnOk result (self.new ≡ record self.old { call = one_more self.old.call }) }
        ensures err { OnErr result (self.new ≡ record self.old { call = one_more self.old.call; faults = one_more self.old.faults }) }
        ensures cause { HasCause self.old.faults self.new.faults (IsErr result) }
    {
        let fails = is_listed(&self.fails, self.call);
        self.call = self.call.saturating_add(1);
        if fails {
            self.faults = self.faults.saturating_add(1);
            return Err(Failed);
        }
        Ok(self.content.as_slice().len() as u64)
    }

    /// Fails exactly where the number of this call is listed.
    fn read(&mut self, at: u64, into: &mut [u8]) -> Result<usize, Failed>
        ensures listed { is_err result ≡ is_listed self.old.fails self.old.call }
        ensures count { IfOk result (λ count. count ≡ min (length into.old) (length (kept_now self.old).content - at)) }
        ensures bytes { IfOk result (λ count. into.new ≡ take count (drop at (kept_now self.old).content) ++ drop count into.old) }
        ensures ok { OnOk result (self.new ≡ record self.old { call = one_more self.old.call }) }
        ensures err { OnErr result (self.new ≡ record self.old { call = one_more self.old.call; faults = one_more self.old.faults }) }
        ensures cause { HasCause self.old.faults self.new.faults (IsErr result) }
    {
        let fails = is_listed(&self.fails, self.call);
        self.call = self.call.saturating_add(1);
        if fails {
            self.faults = self.faults.saturating_add(1);
            return Err(Failed);
        }
        Ok(read_from(&self.content, at, into))
    }

    /// Fails exactly where the number of this call is listed, but for memory. Where it fails
    /// nothing of the piece is written.
    fn write_at(&mut self, at: u64, piece: &[u8]) -> Result<(), Outage>
        ensures listed { IsErrOf result Outage.Failed → is_listed self.old.fails self.old.call ≡ true }
        ensures unlisted { OnOk result (is_listed self.old.fails self.old.call ≡ false) }
        ensures ok { OnOk result (Steps self.old self.new (after (kept_now self.old) (change.Wrote at piece.now))) }
        ensures called { OnOk result (Called self.old self.new) }
        ensures failed { IsErrOf result Outage.Failed → Steps self.old self.new (after (kept_now self.old) (change.LostWrite at (length piece.now))) }
        ensures missed { IsErrOf result Outage.Failed → Missed self.old self.new }
        ensures memory { IsErrOf result Outage.Memory → self.new ≡ self.old }
        ensures cause { HasCause self.old.faults self.new.faults (IsErrOf result Outage.Failed) }
    {
        let Ok(()) = make_room(self.alloc, &mut self.start, &self.content, &mut self.stages) else {
            return Err(Outage::Memory);
        };
        let now = self.clock.saturating_add(1);
        if is_listed(&self.fails, self.call) {
            let count = piece.len() as u64;
            note(&mut self.stages, now, Change::LostWrite { at, count });
            self.settled = false;
            self.clock = now;
            self.call = self.call.saturating_add(1);
            self.faults = self.faults.saturating_add(1);
            return Err(Outage::Failed);
        }
        let Ok(bytes) = Vec::from_slice(self.alloc, piece) else {
            return Err(Outage::Memory);
        };
        let Ok(()) = overwrite(&mut self.content, at, piece) else {
            return Err(Outage::Memory);
        };
        let bytes = Bytes::from_vec(bytes);
        note(&mut self.stages, now, Change::Wrote { at, bytes });
        self.settled = false;
        self.clock = now;
        self.call = self.call.saturating_add(1);
        Ok(())
    }

    /// Fails exactly where the number of this call is listed, but for memory. Where it fails
    /// nothing is cut off.
    fn cut(&mut self, len: u64) -> Result<(), Outage>
        ensures listed { IsErrOf result Outage.Failed → is_listed self.old.fails self.old.call ≡ true }
        ensures unlisted { OnOk result (is_listed self.old.fails self.old.call ≡ false) }
        ensures ok { OnOk result (Steps self.old self.new (after (kept_now self.old) (change.Cut len))) }
        ensures called { OnOk result (Called self.old self.new) }
        ensures failed { IsErrOf result Outage.Failed → Steps self.old self.new (after (kept_now self.old) (change.LostCut len)) }
        ensures missed { IsErrOf result Outage.Failed → Missed self.old self.new }
        ensures memory { IsErrOf result Outage.Memory → self.new ≡ self.old }
        ensures cause { HasCause self.old.faults self.new.faults (IsErrOf result Outage.Failed) }
    {
        let Ok(()) = make_room(self.alloc, &mut self.start, &self.content, &mut self.stages) else {
            return Err(Outage::Memory);
        };
        let now = self.clock.saturating_add(1);
        if is_listed(&self.fails, self.call) {
            note(&mut self.stages, now, Change::LostCut { len });
            self.settled = false;
            self.clock = now;
            self.call = self.call.saturating_add(1);
            self.faults = self.faults.saturating_add(1);
            return Err(Outage::Failed);
        }
        self.content.truncate(len as usize);
        note(&mut self.stages, now, Change::Cut { len });
        self.settled = false;
        self.clock = now;
        self.call = self.call.saturating_add(1);
        Ok(())
    }

    /// Fails exactly where the number of this call is listed.
    fn sync(&mut self) -> Result<(), Failed>
        ensures listed { is_err result ≡ is_listed self.old.fails self.old.call }
        ensures ok { OnOk result (Steps self.old self.new (after (kept_now self.old) change.Synced)) }
        ensures called { OnOk result (Called self.old self.new) }
        ensures failed { OnErr result (Steps self.old self.new (kept_now self.old)) }
        ensures missed { OnErr result (Missed self.old self.new) }
        ensures cause { HasCause self.old.faults self.new.faults (IsErr result) }
    {
        let fails = is_listed(&self.fails, self.call);
        let now = self.clock.saturating_add(1);
        self.call = self.call.saturating_add(1);
        self.clock = now;
        if fails {
            self.faults = self.faults.saturating_add(1);
            return Err(Failed);
        }
        if !self.settled {
            note(&mut self.stages, now, Change::Synced);
            self.settled = true;
        }
        Ok(())
    }
}

// Copies as many bytes from a place on as there are and fit.
fn read_from(content: &[u8], at: u64, into: &mut [u8]) -> usize
    ensures count { result ≡ min (length into.old) (length content.now - at) }
    ensures bytes { into.new ≡ take result (drop at content.now) ++ drop result into.old }
{
    if at >= content.len() as u64 {
        return 0;
    }
    let rest = &content[at as usize..];
    let count = into.len().min(rest.len());
    into[..count].copy_from_slice(&rest[..count]);
    count
}
