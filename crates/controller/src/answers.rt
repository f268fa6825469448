// What the calls return.
use cluster_objects::Key;

/// What a worker's look comes to.
#[derive(Clone, Copy, Debug, PartialEq, Eq)]
pub enum Looked {
    /// The worker holds the view of a history of this length.
    Done { length: u64 },
    /// A call of the store failed.
    Failed,
    /// Memory ran out.
    Memory,
}

/// What a worker's act comes to.
#[derive(Debug, PartialEq, Eq, Drop)]
pub enum Acted {
    /// Its first write of this key was made, at this position.
    Put { key: Key, version: u64 },
    /// It has no write in its view.
    Idle,
    /// It holds no view.
    NoView,
    /// The key of its first write has this version, and the write expects another.
    Conflict { found: u64 },
    /// It requested its lease, and doesn't hold the present term, which is this.
    Stale { term: u64 },
    /// The store has no room for the write.
    Full,
    /// A call of the store failed. The write may have been made.
    Failed,
    /// Memory ran out, and nothing is written.
    Memory,
}

/// What a settle comes to, after so many writes.
#[derive(Clone, Copy, Debug, PartialEq, Eq)]
pub enum Settled {
    /// No role has a write.
    Quiet { writes: u32 },
    /// A role still has a write, and there are no more turns, or its key has another version than the write expects.
    Unsettled { writes: u32 },
    /// The store has no room for the next write.
    Full { writes: u32 },
    /// A call of the store failed. The next write may have been made.
    Failed { writes: u32 },
    /// Memory ran out.
    Memory { writes: u32 },
}

/// Whether a worker may act.
#[derive(Clone, Copy)]
pub(crate) enum Fence {
    Fresh,
    Stale { term: u64 },
    Failed,
    Memory,
}

/// What a turn of a settle comes to.
#[derive(Clone, Copy)]
pub(crate) enum Turned {
    /// The write was made.
    Made,
    /// No role has a write.
    Quiet,
    /// The write's key has another version than the write expects.
    Blocked,
    Full,
    Failed,
    Memory,
}
