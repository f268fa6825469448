// What an event of a user comes to.
use cluster_objects::Key;
use olm_base::Text;

/// What an event of a user came to.
#[derive(Debug, Drop, PartialEq)]
pub enum UserAnswer {
    /// The write of this key stands, at this position.
    Done { key: Key, version: u64 },
    /// Nothing is written, for this reason, in the words that are printed.
    Refused { reason: Text },
    /// The store has no room for the write.
    Full,
    /// A call of the store failed: the write stands or it doesn't.
    StoreFailed,
    /// A call of the folder failed, and nothing is written.
    FolderFailed,
    /// Memory ran out, and nothing is written.
    Memory,
}
