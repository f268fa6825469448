// How a run ends, and why.
ghost use Rattle.std.specs.Prelude.{◌≡◌};
ghost use Rattle.olm_cli.specs.Causes as spec;

use catalog_stream::StreamFault;
use olm_base::{FieldKind, Text};

/// How a run ends. Each is a status of the program.
#[derive(Clone, Copy, Debug, PartialEq, Eq)]
pub enum Exit {
    /// Status 0: done.
    Done,
    /// Status 1: no choice meets the constraints, a certificate isn't accepted, the catalog breaks a rule, or it has no
    /// such channel.
    Refused,
    /// Status 2: the words are no command line of this program.
    Words,
    /// Status 3: the input or the folder isn't a catalog, or the input isn't a list of events.
    Input,
    /// Status 4: a call of the folder, the input, the disk or the output failed.
    Outside,
    /// Status 5: memory ran out.
    Memory,
    /// Status 6: the budget was spent before there was a decision.
    Unfinished,
    /// Status 7: the cluster file stands for no history.
    Damaged,
    /// Status 8: the input, or the folder's files together, are longer than the limit, the problem is larger, or the
    /// cluster file has no room for a write.
    Limit,
}

/// Why a run ends with another status than 0. Each has its line on `err`, but for `BudgetSpent`, which the output
/// tells.
#[derive(Debug, Drop, PartialEq)]
pub enum Cause {
    /// No choice meets the constraints.
    NoChoice,
    /// The text of the input isn't accepted as a certificate of the problem.
    NotAccepted,
    /// The catalog breaks a rule.
    BrokenRules,
    /// The catalog has no channel of these names.
    NoChannel,
    /// The words are no command line of this program.
    BadWords,
    /// The input is no stream of blobs.
    Stream(StreamFault),
    /// The file of this path is no stream of blobs by itself.
    SplitFile {
        path: Text,
        fault: StreamFault,
    },
    /// A file of this path would belong to the catalog, and isn't read.
    FileNotRead {
        path: Text,
    },
    /// The value at this path of the blob of this number is not what it must be.
    Field {
        blob: u32,
        path: Text,
        kind: FieldKind,
    },
    /// The blob of this number names no event, and is no object to be applied.
    NoEvent {
        blob: u32,
    },
    /// The blob of this number names an event that there isn't.
    UnknownEvent {
        blob: u32,
    },
    /// A call of the folder failed.
    FolderFailed,
    /// A call of the input failed.
    InputFailed,
    /// A call of the disk failed.
    DiskFailed,
    /// A call of the output failed.
    OutputFailed,
    /// Memory ran out.
    NoMemory,
    /// The budget was spent before there was a decision.
    BudgetSpent,
    /// The cluster file stands for no history, from this place on.
    Damaged {
        at: u64,
    },
    /// The input, or the folder's files together, are longer than the limit.
    TooLong,
    /// The problem has so many variables, or one of them so many constraints, and that is above the limit.
    TooManyVariables {
        count: u64,
    },
    /// The cluster file has no room for an event's write.
    StoreFull,
}

/// The status of a run that ended so.
pub fn exit_of(cause: &Cause) -> Exit
    ensures { result ≡ spec.exit_of cause.now }
{
    match cause {
        Cause::NoChoice | Cause::NotAccepted => Exit::Refused,
        Cause::BrokenRules | Cause::NoChannel => Exit::Refused,
        Cause::BadWords => Exit::Words,
        Cause::Stream(_) | Cause::SplitFile { .. } | Cause::FileNotRead { .. } => Exit::Input,
        Cause::Field { .. } | Cause::NoEvent { .. } | Cause::UnknownEvent { .. } => Exit::Input,
        Cause::FolderFailed | Cause::InputFailed => Exit::Outside,
        Cause::DiskFailed | Cause::OutputFailed => Exit::Outside,
        Cause::NoMemory => Exit::Memory,
        Cause::BudgetSpent => Exit::Unfinished,
        Cause::Damaged { .. } => Exit::Damaged,
        Cause::TooLong | Cause::TooManyVariables { .. } | Cause::StoreFull => Exit::Limit,
    }
}

/// The number of a status.
pub fn status(exit: Exit) -> u8
    ensures { result ≡ spec.number_of exit }
{
    match exit {
        Exit::Done => 0,
        Exit::Refused => 1,
        Exit::Words => 2,
        Exit::Input => 3,
        Exit::Outside => 4,
        Exit::Memory => 5,
        Exit::Unfinished => 6,
        Exit::Damaged => 7,
        Exit::Limit => 8,
    }
}
