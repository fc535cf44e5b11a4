// Why a call on a real file failed.
use std::io::{self, ErrorKind};
use thiserror::Error;

/// The last failure of real files: the file's name, and the cause.
#[derive(Clone, Copy, Debug, PartialEq, Eq, Error)]
#[error("{file}: {cause}")]
pub struct Failure {
    pub file: &'static str,
    pub cause: FailureCause,
}

/// The cause of a failure of real files.
#[derive(Clone, Copy, Debug, PartialEq, Eq, Error)]
pub enum FailureCause {
    /// The file is locked by another process, which holds the store.
    #[error("another process holds the store")]
    Held,
    /// The file would have more than 2^62 bytes, or has.
    #[error("longer than 2^62 bytes")]
    TooLong,
    /// The system's call failed.
    #[error("{0}")]
    System(ErrorKind),
}

impl From<io::Error> for FailureCause {
    fn from(error: io::Error) -> FailureCause {
        FailureCause::System(error.kind())
    }
}
