// A disk in memory that never fails.
ghost use Rattle.std.specs.Prelude.{◌≡◌, ◌≢◌, ◌-◌, ◌++◌, [], Err, IsOk, IfOk, OnOk, IsErrOf, length, take, drop, min};
ghost use Rattle.olm_io.specs.Outside.{one_more};
ghost use Rattle.olm_disk.specs.Kept.{after};
ghost use Rattle.olm_disk.specs.MemDisk.{MemDiskState, MightHaveLeft, Steps, kept_now, present_counts, only_present};
ghost use Rattle.olm_disk.specs.declared.change.Change.TheVariants as change;

use crate::{Disk, MemDisk};
use olm_base::{Bytes, Many};
use olm_io::{Failed, Outage};
use std::alloc::Global;
use std::marker::Model;

/// A disk in memory that never fails but for memory. It keeps all that was written, so it serves
/// tests.
#[derive(Debug, Drop)]
pub struct SureDisk {
    disk: MemDisk,
}

impl Model for SureDisk {
    ghost use Rattle.std.specs.Prelude.{◌≡◌, []};
    ghost use Rattle.olm_disk.specs.MemDisk.{MemDiskState};

    ghost Value = { MemDiskState };

    ghost view = { λ disk. disk.disk };

    ghost invariant = { λ disk. disk.disk.fails ≡ [] };
}

impl SureDisk {
    /// A disk with this content, all of it durable.
    pub fn new(alloc: Global, content: Bytes) -> SureDisk
        ensures disk { result ≡ record { start = content; stages = []; clock = 0; call = 0; faults = 0; fails = [] } }
        ensures sure { (disk : MemDiskState) → ⟦<SureDisk as Disk>⟧.faults disk ≡ 0 }
    {
        SureDisk {
            disk: MemDisk::new(alloc, content, Many::new(alloc)),
        }
    }
}

impl Disk for SureDisk {
    ghost use Rattle.std.specs.Prelude.{true};

    ghost tells = { λ disk. true };

    ghost content = { λ disk. (kept_now disk).content };

    ghost pending = { λ disk. (kept_now disk).pending };

    ghost moment = { λ disk. disk.clock };

    ghost left_since = { MightHaveLeft };

    ghost faults = { λ disk. 0 };

    ghost counts_now = { λ disk t image told earlier may. present_counts disk t image earlier may };

    ghost only_now = { only_present };

    fn len(&mut self) -> Result<u64, Failed>
        ensures sure { IsOk result }
        ensures len { IfOk result (λ len. len ≡ length (kept_now self.old).content) }
        ensures ok { self.new ≡ record self.old { call = one_more self.old.call } }
    {
        self.disk.len()
    }

    fn read(&mut self, at: u64, into: &mut [u8]) -> Result<usize, Failed>
        ensures sure { IsOk result }
        ensures count { IfOk result (λ count. count ≡ min (length into.old) (length (kept_now self.old).content - at)) }
        ensures bytes { IfOk result (λ count. into.new ≡ take count (drop at (kept_now self.old).content) ++ drop count into.old) }
        ensures ok { self.new ≡ record self.old { call = one_more self.old.call } }
    {
        self.disk.read(at, into)
    }

    fn write_at(&mut self, at: u64, piece: &[u8]) -> Result<(), Outage>
        ensures sure { result ≢ Err Outage.Failed }
        ensures ok { OnOk result (Steps self.old self.new (after (kept_now self.old) (change.Wrote at piece.now))) }
        ensures memory { IsErrOf result Outage.Memory → self.new ≡ self.old }
    {
        self.disk.write_at(at, piece)
    }

    fn cut(&mut self, len: u64) -> Result<(), Outage>
        ensures sure { result ≢ Err Outage.Failed }
        ensures ok { OnOk result (Steps self.old self.new (after (kept_now self.old) (change.Cut len))) }
        ensures memory { IsErrOf result Outage.Memory → self.new ≡ self.old }
    {
        self.disk.cut(len)
    }

    fn sync(&mut self) -> Result<(), Failed>
        ensures sure { IsOk result }
        ensures ok { Steps self.old self.new (after (kept_now self.old) change.Synced) }
    {
        self.disk.sync()
    }
}
