//! A store of a cluster's history over a file on a disk.
//!
//! The file is that of `cluster_file`, opened and written by `log_file`; the writes are kept in memory too, in a
//! `SureCluster`. Where the disk tells what it holds, the history is what the file stands for.
#![tactic(auto)]

mod adding;
mod laws;
mod log_cluster;
mod starting;

pub use laws::gates_add_up;
pub use log_cluster::LogCluster;
pub use starting::StartFault;
