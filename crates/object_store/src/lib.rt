//! Stores of a cluster's history, and the views that they give.
#![tactic(auto)]

mod cluster;
mod laws;
mod mem;
mod miss;
mod shared;
mod sure;

pub use cluster::{Cluster, ClusterFault, PutAnswer};
pub use cluster_history::{Base, Slot};
pub use laws::{puts_keep_histories, views_show};
pub use mem::MemCluster;
pub use miss::Miss;
pub use shared::{Shared, View};
pub use sure::{Appended, SureCluster};

/// The most writes that a store takes.
pub const WRITE_LIMIT: u64 = 16_777_216;
