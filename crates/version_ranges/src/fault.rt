// Why a text is no range.

use thiserror::Error;

/// Why a text is no range. Places are numbers of bytes from the text's beginning.
#[derive(Clone, Copy, Debug, PartialEq, Eq, Error)]
pub enum RangeFault {
    /// An alternative without a condition; the place is where the alternative ends.
    #[error("at {at}: no condition stands here")]
    Empty { at: u64 },
    /// A run of `<`, `>`, `=` and `!` that is no operator; the place is that of its first byte.
    #[error("at {at}: no operator")]
    BadOperator { at: u64 },
    /// A word that is neither a version nor written as a wildcard; the place is the word's first.
    #[error("at {at}: no version")]
    BadVersion { at: u64 },
    /// A word of digits, dots and at least one `x` that is no wildcard; the place is the word's first.
    #[error("at {at}: no wildcard")]
    BadWildcard { at: u64 },
    #[error("out of memory")]
    Memory,
}
