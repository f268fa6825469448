//! The blobs of a catalog stream: JSON objects that follow one another in a text, with blanks between them.
#![tactic(auto)]

mod blobs;
mod scan;

pub use blobs::{Blob, Blobs, StreamFault, depth_law, read_blobs};
pub use scan::extent_law;
