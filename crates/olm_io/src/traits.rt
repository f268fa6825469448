// What lies outside, by what it holds, where that is told, and by how often it has failed.
ghost use Rattle.std.specs.Prelude.{List, ℕ, OnOk, IsErrOf, IsErr};
ghost use Rattle.std.specs.declared.option.Option.{Option};
ghost use Rattle.std.specs.Io.{ReadsAtMost};
ghost use Rattle.std.specs.Io.KnownBytes.{ReadConsumes, Appends, Keeps};
ghost use Rattle.olm_io.specs.Outside.{HasCause, AppendsFront};

use thiserror::Error;

/// A call of something outside failed.
#[derive(Clone, Copy, Debug, PartialEq, Eq, Error)]
#[error("a call failed")]
pub struct Failed;

/// Why a sink or a disk didn't do a call.
#[derive(Clone, Copy, Debug, PartialEq, Eq, Error)]
pub enum Outage {
    /// The call failed. It may have been done in part.
    #[error("a call failed")]
    Failed,
    /// Memory ran out, and nothing was done.
    #[error("out of memory")]
    Memory,
}

/// Why a file, or a source to its end, wasn't read.
#[derive(Clone, Copy, Debug, PartialEq, Eq, Error)]
pub enum FolderFault {
    /// A call failed.
    #[error("a call failed")]
    Failed,
    /// There are more bytes than this limit of the caller's.
    #[error("more than {limit} bytes")]
    TooLong { limit: u64 },
    /// Memory ran out.
    #[error("out of memory")]
    Memory,
}

/// Something that gives bytes, once and in order.
pub trait Source {
    /// The bytes that are left, where the source tells.
    ghost left: { Self → Option (List ℕ) };

    /// How often a call has failed.
    ghost faults: { Self → ℕ };

    /// The next bytes, put to the front of `into`; the answer is their number. The answer 0 is the
    /// end, if `into` isn't empty.
    fn read(&mut self, into: &mut [u8]) -> Result<usize, Failed>
        ensures bound { ReadsAtMost result into.new }
        ensures bytes { ReadConsumes (left self.old) (left self.new) result into.new }
        ensures cause { HasCause (faults self.old) (faults self.new) (IsErr result) };
}

/// Something that takes bytes.
pub trait Sink {
    /// The bytes that were put, where the sink tells.
    ghost held: { Self → Option (List ℕ) };

    /// How often a call has failed.
    ghost faults: { Self → ℕ };

    /// Appends the whole piece, or fails after a front of it. An adapter never answers
    /// `Outage::Memory`.
    fn put(&mut self, piece: &[u8]) -> Result<(), Outage>
        ensures ok { OnOk result (Appends (held self.old) (held self.new) piece.now) }
        ensures failed { IsErrOf result Outage.Failed → AppendsFront (held self.old) (held self.new) piece.now }
        ensures memory { IsErrOf result Outage.Memory → Keeps (held self.old) (held self.new) }
        ensures cause { HasCause (faults self.old) (faults self.new) (IsErrOf result Outage.Failed) };
}
