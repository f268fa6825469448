//! The file of a cluster's history on a disk: opened, read, and a record added to it.
//!
//! `cluster_file` says what such a file stands for. A record is added by four calls of the disk: its bytes behind the
//! last gate, a sync, the gate's byte, and a sync.
#![tactic(auto)]

mod disk_calls;
mod fold;
mod opening;

pub use disk_calls::add_record;
pub use opening::{Opened, open_file};
