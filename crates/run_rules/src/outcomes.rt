// What came of an event.
use cluster_objects::Key;
use olm_base::Text;

/// What came of an event.
#[derive(Debug, PartialEq, Drop)]
pub enum Outcome {
    /// The write of a user's event was made.
    Done { key: Key, version: u64 },
    /// A user's event is refused, for this reason.
    Refused { reason: Text },
    /// A worker came, with this number.
    Arrived { number: u64 },
    /// A worker looked at a history of this length.
    Looked { length: u64 },
    /// A worker put a write.
    Put { key: Key, version: u64 },
    /// It had none.
    Idle,
    /// It had no view.
    NoView,
    /// The key of its write has this other version.
    Conflict { found: u64 },
    /// It hasn't the present term, which is this one.
    Stale { term: u64 },
    /// A settle made so many writes, and no role has one more, or some role has.
    Settled { writes: u64, quiet: bool },
    /// A lease was granted.
    Leased { term: u64, until: u64 },
    /// The lease is held.
    HeldUntil { until: u64 },
    /// The store was opened again.
    Restarted,
    /// There is no worker of the event's number.
    NoWorker,
    /// A call of the store failed, and the store was opened again.
    Fault,
}
