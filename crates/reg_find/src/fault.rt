//! Why a text isn't a pattern.

use thiserror::Error;

/// Why a pattern wasn't compiled.
#[derive(Clone, Copy, Debug, PartialEq, Eq, Error)]
pub enum PatternFault {
    /// The text is no pattern, or nests too deep: the regex crate's reason, and the part of the text where it lies, in bytes.
    #[error("{0}")]
    Syntax(regex_syntax::Error),
    /// The text is a pattern that takes more than 10 MiB when compiled, or has more groups than 32 bits count.
    #[error("the pattern is too large")]
    TooLarge,
    /// A growth was refused.
    #[error("no memory")]
    Memory,
}
