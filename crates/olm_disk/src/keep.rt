// Which image of a disk in memory a crash leaves.

/// What a crash leaves of a disk in memory.
#[derive(Clone, Copy, Debug, PartialEq, Eq)]
pub enum Keep {
    /// What the last sync that succeeded left, or the content at first.
    Old,
    /// What a read gave.
    New,
    /// What a read gave, with this byte at each place that was written since the last sync that
    /// succeeded, also by a call that failed.
    Junk { byte: u8 },
}
