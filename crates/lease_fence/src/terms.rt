// What a worker holds, what it is granted, and what a call returns.
use cluster_objects::LeaseStatus;

/// What a worker holds of the lease of its role.
#[derive(Clone, Copy, Debug, PartialEq, Eq)]
pub enum Term {
    /// It never requested the lease.
    Free,
    /// This term was granted to it last.
    Held(u64),
    /// It requested the lease, and holds no term.
    Lost,
}

/// What a worker is granted that requests a lease.
#[derive(Clone, Copy, Debug, PartialEq, Eq)]
pub enum Grant {
    /// This lease, which has the next term.
    NewTerm(LeaseStatus),
    /// This lease, which has the term that the worker holds.
    Renewal(LeaseStatus),
    /// Nothing, before this moment.
    Held { until: u64 },
}

/// The result of a request for a lease.
#[derive(Clone, Copy, Debug, PartialEq, Eq)]
pub enum Granted {
    /// The worker holds the lease with this term until this moment. The write has this position.
    Done { term: u64, until: u64, version: u64 },
    /// The lease is held until this moment, and nothing is written.
    Held { until: u64 },
    /// The store has no room for the write.
    Full,
    /// A call of the store failed. The write may have been made.
    Failed,
    /// Memory ran out, and nothing is written.
    Memory,
}
