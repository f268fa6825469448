//! Disks, each with one file on it, and what a crash at any moment may leave of it.
//!
//! Between two syncs that succeed a crash may leave any bytes in what was written, and any length
//! that the file had or that a failed call may have given it. A [`MemDisk`] gives such images.
#![tactic(auto)]

mod change;
mod disk;
mod file_disk;
mod keep;
pub mod laws;
mod mem_disk;
mod replay;
mod sure_disk;

pub use disk::{Disk, FILE_LIMIT};
pub use file_disk::FileDisk;
pub use keep::Keep;
pub use mem_disk::MemDisk;
pub use sure_disk::SureDisk;
