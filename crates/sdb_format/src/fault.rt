// Why bytes are refused.
use thiserror::Error;

/// Why bytes don't begin with a value of a format.
#[derive(Clone, Copy, Debug, PartialEq, Eq, Error)]
pub enum FormatFault {
    /// They end too early: more bytes could make a value of them.
    #[error("the bytes end too early")]
    Short,
    /// No bytes after them could make a value of them.
    #[error("the bytes aren't of the format")]
    Bad,
}
