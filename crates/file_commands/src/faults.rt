// Why a command over a cluster's file doesn't come to its end.
use event_runs::Halt;

/// Why nothing is shown or decided of the cluster in a file.
#[derive(Clone, Copy, Debug, PartialEq, Eq)]
pub enum FileFault {
    /// The file stands for no history, from this place on.
    Damaged { at: u64 },
    /// A call of the disk failed.
    Failed,
    /// The problem has so many variables, or one of them so many constraints, and that is above the limit.
    TooManyVariables { count: u64 },
    Memory,
}

/// Why a run over a file ends before its events do.
#[derive(Clone, Copy, Debug, PartialEq, Eq)]
pub enum RunFault {
    /// The file stands for no history, from this place on. No event was applied.
    Damaged { at: u64 },
    /// A call of the disk failed while the file was opened. No event was applied.
    Failed,
    /// Memory ran out while the file was opened. No event was applied.
    Memory,
    /// The file was opened, and the run of the events ended for this.
    Halted(Halt),
}
