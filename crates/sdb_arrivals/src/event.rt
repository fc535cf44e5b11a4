//! What happens to a core, and what a step answers.

use thiserror::Error;

/// What happens to a core.
#[derive(Clone, Copy, Debug)]
pub enum Event<'a> {
    /// A connection is opened. Its number is greater than that of each before it.
    Opened(u32),
    /// Of a connection 1 to 65,536 bytes came, at a moment in seconds since 1970.
    Piece(u32, u64, &'a [u8]),
    /// A connection ended.
    Ended(u32),
    /// The answers that are held are made durable and released.
    Commit,
    /// A turn of background work.
    Work,
}

/// Why a step isn't done.
#[derive(Clone, Copy, Debug, PartialEq, Eq, Error)]
pub enum CoreFault {
    /// 64 connections are live.
    #[error("64 connections are live")]
    Full,
    /// A call of the disk failed.
    #[error("the disk failed")]
    Disk,
    /// The files of the disk stand for no accounts. It names the first bad file.
    #[error("file {0} is not that of a store")]
    NotAStore(u8),
    /// No memory was left.
    #[error("out of memory")]
    OutOfMemory,
}
