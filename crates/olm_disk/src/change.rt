// The changes of a disk in memory.
use olm_base::Bytes;

/// What a call did.
#[derive(Debug, Drop)]
pub enum Change {
    /// These bytes were written.
    Wrote { at: u64, bytes: Bytes },
    /// The file was cut to this length.
    Cut { len: u64 },
    /// A write of so many bytes failed.
    LostWrite { at: u64, count: u64 },
    /// A cut to this length failed.
    LostCut { len: u64 },
    /// A sync succeeded.
    Synced,
}

/// A change, and the moment of the clock that began with it.
#[derive(Debug, Drop)]
pub struct Stage {
    pub first: u64,
    pub change: Change,
}
