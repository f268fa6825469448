// The faults of a certificate's text.
use olm_base::Memory;
use thiserror::Error;

/// Why a text is no certificate: the first fault from its beginning. Lines count from 1.
#[derive(Clone, Copy, Debug, PartialEq, Eq, Error)]
pub enum CertText {
    /// The line has no form that is allowed in its place; or something stands behind the last line, at the number
    /// behind its own.
    #[error("bad line {line}")]
    BadLine { line: u64 },
    /// The form of the line is right. But a number has a zero before other digits, or 32 bits don't hold it.
    #[error("bad number {line}")]
    BadNumber { line: u64 },
    /// The text ends before the line feed of its last line.
    #[error("cut short")]
    CutShort,
    /// Memory ran out.
    #[error("out of memory")]
    Memory,
}

impl From<Memory> for CertText {
    ghost use Rattle.derivations.specs.declared.reading.cert_text.CertText.TheVariants.{Memory as NoMemory};
    ghost use Rattle.std.specs.Prelude.{◌≡◌};

    ghost from_gives = { λ _ e. e ≡ NoMemory };

    fn from(_: Memory) -> CertText {
        CertText::Memory
    }
}
