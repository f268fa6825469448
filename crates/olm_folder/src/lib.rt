//! Folders of files, in memory and over the system.
//!
//! A [`Folder`] has a count of faults that never falls, and a call answers `Failed` only where it rose. What a
//! folder holds is told in memory alone.
#![tactic(auto)]

mod files;
mod folder;
mod mem_folder;
mod std_folder;
mod sure_folder;

pub use folder::Folder;
pub use mem_folder::MemFolder;
pub use std_folder::StdFolder;
pub use sure_folder::SureFolder;
