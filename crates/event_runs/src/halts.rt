// Why a run ends before its events do.

/// Why a run ends before its events do. The writes that were made stand.
#[derive(Clone, Copy, Debug, PartialEq, Eq)]
pub enum Halt {
    /// A call of the output failed: a front of the event's line may have been put.
    OutputFailed,
    /// A call of the folder failed.
    FolderFailed,
    /// A call of the store failed: the event's write stands or it doesn't.
    StoreFailed,
    /// The store was opened again, and what it holds stands for no history, from this place on.
    Damaged { at: u64 },
    /// The store has no room for the event's write.
    Full,
    /// Memory ran out. The event's write may stand without its line.
    Memory,
}
