//! Why a tree wasn't written as a registration file.
use reg_tree_text::DumpFault;
use thiserror::Error;

/// Why a tree wasn't written.
#[derive(Debug, Drop, Error)]
pub enum ExportFault {
    /// The front has no character, begins with `-`, ends with a backslash, or has a character that can't stand in a .reg text: a line
    /// break, or one beyond 0x01 to 0x7F.
    #[error("the front can't stand in a .reg text")]
    Front,
    /// No key is there, or the text is no path.
    #[error("there is no such key")]
    NoKey,
    /// A name has a line break: of the key to which these names lead, what stands for the root's first, joined by backslashes; or of one
    /// of its values.
    #[error("a name has a line break")]
    Name(Vec<u8>),
    /// A write or memory failed on the way.
    #[error("{0}")]
    Stopped(DumpFault),
}
