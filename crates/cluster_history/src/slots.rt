// What stands at a key, and a state to begin with.
use cluster_objects::{Key, Object, Stamp};
use olm_base::Many;

/// What is kept of a key.
#[derive(Debug, PartialEq, Eq, Drop)]
pub struct Slot {
    /// 0 for a key that was never written, else the position, from 1, of its last write, removals included.
    pub version: u64,
    pub object: Option<Object>,
    /// The stamps of all writes of the key, in order.
    pub stamps: Many<Stamp>,
}

/// A state to begin a history with: the length of the history that it stands for, and the slots in key order.
#[derive(Debug, PartialEq, Eq, Drop)]
pub struct Base {
    pub length: u64,
    pub slots: Many<(Key, Slot)>,
}
